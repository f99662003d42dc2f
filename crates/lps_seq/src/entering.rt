ghost use Rattle.std.specs.Prelude.{◌≡◌, ◌≤◌, IfOk, MatchOption, Contains};
ghost use Rattle.std.specs.List.{AllByRecursion, filter};
ghost use Rattle.lps_terms.specs.declared.atom.Atom.{Atom as Fluent};
ghost use Rattle.lps_facts.specs.Facts.{members};
ghost use Rattle.lps_nodes.specs.Plans.{Entrance};
ghost use Rattle.lps_seq.specs.Calls.{IsEntry};
ghost use Rattle.lps_residual.specs.Limits.{HasFalse, IsOpenOrTrue, is_open, with_limits};
ghost use Rattle.lps_residual.specs.Moments.{IsReady};
ghost use Rattle.lps_seq.specs.Starts.{IsEntered, IsGiven, IsStart, entered_node};
ghost use Rattle.lps_solve.specs.Met.{AreGround};
ghost use Rattle.lps_unify.specs.Bindings.{count_of};

use crate::entrance::entrance;
use crate::found::Found;
use crate::run::run;
use crate::start::Start;
use crate::stepped::Stepped;
use lps_facts::Facts;
use lps_meaning::Node;
use lps_nodes::led_law;
use lps_residual::tested;
use lps_solve::Program;
use lps_unify::Bindings;
use sqlite_items::Items;
use std::alloc::{AllocError, Global};

/// What a sequence comes to at the time at which it is entered: exactly the nodes that are left of its live plans then, and what
/// its instances carry that end then. The bindings are as before on every way out.
///
/// An antecedent is entered at 0, and an alternative at the time of its goal's key; the facts are the state of that time. The
/// bindings have no variables. An error comes where memory runs out or no number is left for a variable, and for no other
/// reason.
pub fn enter(
    alloc: Global,
    program: &Program,
    depth: u32,
    start: &Start,
    time: u64,
    facts: &Facts,
    bindings: &mut Bindings,
) -> Result<Stepped, AllocError>
    requires depth { (1 ≤ depth) × (depth ≤ 1000) }
    requires time { time ≤ 1000000 }
    requires start { IsStart program.now start.now time }
    requires ground { (a : Fluent) → Contains (members facts.now) a → AreGround a.args }
    requires none { count_of bindings.now ≡ 0 }
    ensures entry { IfOk result (λ stepped. IsEntry program.now depth start.now time (members facts.now) stepped) }
    ensures nodes { IfOk result (λ stepped. AllByRecursion (IsReady program.now) stepped.nodes.items) }
    ensures same { bindings.new ≡ bindings.old }
{
    program.lawful();
    led_law();
    match first_node(alloc, program, start)? {
        None => Found::new(alloc).stepped(alloc),
        Some(node) => {
            let nothing = Items::new(alloc);
            run(
                alloc,
                program,
                &node,
                time,
                time,
                facts,
                nothing.as_slice(),
                bindings,
            )
        }
    }
}

/// What is left where the sequence is entered, without the constraints whose times are all known; none where one of these is
/// false.
fn first_node(alloc: Global, program: &Program, start: &Start) -> Result<Option<Node>, AllocError>
    requires { (e : Entrance) × IsEntered program.now start.now e × IsGiven e }
    ensures { IfOk result (λ found. (e : Entrance) → IsEntered program.now start.now e → MatchOption found (HasFalse (entered_node e).limits) (λ node. (node ≡ with_limits (entered_node e) (filter is_open (entered_node e).limits)) × AllByRecursion IsOpenOrTrue (entered_node e).limits)) }
{
    program.lawful();
    match entrance(alloc, program.text().text(), start)? {
        None => Ok(None),
        Some(node) => tested(alloc, node),
    }
}
