//! The top call: runs a text over a stream of batches and prints the report.
//!
//! It stands on the readers of texts and of streams, the judge of texts, the run from cycle to cycle, the bytes of the report
//! and the three traits of the outside, and never knows what a file, a terminal or a pipe is. Which texts are run (`built`: all
//! accepted ones without macro clauses and without rules whose alternatives call macros) and which batches may come (`batch`)
//! stand here as private modules. It carries the headline: the clauses `told` and `checked` of `lps` say for each answer what was
//! printed, in the words of the definitions, and clauses `usage`, `unread`, `limit`, `silent` and `caused` say when each answer
//! comes; a stream is judged in one way (`streams_are_judged_one_way`), the goals of a run are counted in one way
//! (`reports_are_counted_one_way`), a run that ends at a limit is none of the whole stream (`runs_end_at_limits`), and one that is
//! `Done` makes every rule true (`finished_runs_make_rules_true`).
#![tactic(auto)]

mod answer;
mod batch;
mod built;
mod laws;
mod loading;
mod stop;
mod stream;
mod top;
mod words;

pub use answer::{Answer, UsageKind};
pub use laws::{
    finished_runs_make_rules_true, reports_are_counted_one_way, runs_end_at_limits,
    streams_are_judged_one_way,
};
pub use top::lps;
