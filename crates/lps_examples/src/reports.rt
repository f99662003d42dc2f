//! Worked examples of what is reported and kept.

ghost use Rattle.lps_examples.specs.Conflicts.{ReportExample};
ghost use Rattle.lps_examples.specs.Kept.{GoalNodeExample, KeptExample};

/// The whole report of a plain run: which goals come, which picks are made, which goals are solved and which one fails, and how many
/// are left.
pub fn report_law()
    ensures { ReportExample }
{}

/// What is left of the plans of a goal, while it is pending and once it has failed; and how many symbols are kept for rules and goals.
pub fn kept_law()
    ensures goal_node { GoalNodeExample }
    ensures kept { KeptExample }
{}
