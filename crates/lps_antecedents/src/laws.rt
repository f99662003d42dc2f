//! The law of what waits, the contract of a function that does nothing.
ghost use Rattle.lps_antecedents.specs.Laws.{StandsForPrefixes};

use lps_nodes::{led_law, progress_law};

/// What waits stands for a trace up to a time by what happens up to it alone.
pub fn waiting_law()
    ensures { StandsForPrefixes }
{
    progress_law();
    led_law();
}
