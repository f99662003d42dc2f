ghost use Rattle.std.specs.Prelude.{◌≡◌, ◌++◌, map, OnOk};
ghost use Rattle.std.specs.Fmt.{decimal};
ghost use Rattle.std.specs.List.{flat_map};
ghost use Rattle.lps_terms.specs.Printed.{printed};
ghost use Rattle.lps_meaning.specs.Reports.{closed_line, closed_word, goal_line, with_values};

use crate::listed::{print_terms, print_times};
use crate::number::print_number;
use lps_meaning::{Closed, GoalId, GoalKey, NewGoal};
use std::alloc::AllocError;

/// Appends the values and the times of a key, where it has any.
fn print_key(key: &GoalKey, out: &mut Vec<u8>) -> Result<(), AllocError>
    ensures { OnOk result (out.new.items ≡ out.old.items ++ with_values (map printed key.now.values ++ map decimal key.now.times)) }
{
    print_terms(key.values.as_slice(), out)?;
    let later = !key.values.is_empty();
    print_times(later, key.times.as_slice(), out)
}

/// Appends the line of a new goal.
fn print_goal(new: &NewGoal, out: &mut Vec<u8>) -> Result<(), AllocError>
    ensures { OnOk result (out.new.items ≡ out.old.items ++ goal_line new.now) }
{
    out.extend_from_slice(b"goal ")?;
    print_number(new.goal.0, out)?;
    out.extend_from_slice(b" rule ")?;
    print_number(new.key.rule as u64, out)?;
    print_key(&new.key, out)?;
    out.extend_from_slice(b"\n")
}

/// Appends a line for each new goal, in order.
pub(crate) fn print_created(created: &[NewGoal], out: &mut Vec<u8>) -> Result<(), AllocError>
    ensures { OnOk result (out.new.items ≡ out.old.items ++ flat_map goal_line created.now) }
{
    for new in created {
        print_goal(new, out)?;
    }
    Ok(())
}

/// Appends the word for how a goal was closed.
fn print_closed_word(how: Closed, out: &mut Vec<u8>) -> Result<(), AllocError>
    ensures { OnOk result (out.new.items ≡ out.old.items ++ closed_word how) }
{
    match how {
        Closed::Solved => out.extend_from_slice(b"solved "),
        Closed::Failed => out.extend_from_slice(b"failed "),
        Closed::Cut => out.extend_from_slice(b"cut "),
    }
}

/// Appends the line of a goal that was closed.
fn print_closed_goal(goal: GoalId, how: Closed, out: &mut Vec<u8>) -> Result<(), AllocError>
    ensures { OnOk result (out.new.items ≡ out.old.items ++ closed_line (goal, how)) }
{
    print_closed_word(how, out)?;
    print_number(goal.0, out)?;
    out.extend_from_slice(b"\n")
}

/// Appends a line for each goal that was closed, in order.
pub(crate) fn print_closed(closed: &[(GoalId, Closed)], out: &mut Vec<u8>) -> Result<(), AllocError>
    ensures { OnOk result (out.new.items ≡ out.old.items ++ flat_map closed_line closed.now) }
{
    for (goal, how) in closed {
        print_closed_goal(*goal, *how, out)?;
    }
    Ok(())
}
