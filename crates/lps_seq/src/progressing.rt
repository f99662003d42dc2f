ghost use Rattle.std.specs.Prelude.{◌≡◌, ◌≤◌, IfOk, Contains};
ghost use Rattle.std.specs.List.{AllByRecursion};
ghost use Rattle.lps_terms.specs.declared.atom.Atom.{Atom as Fluent};
ghost use Rattle.lps_facts.specs.Facts.{members};
ghost use Rattle.lps_seq.specs.Calls.{IsNext};
ghost use Rattle.lps_residual.specs.Moments.{IsReady};
ghost use Rattle.lps_solve.specs.Met.{AreGround};
ghost use Rattle.lps_unify.specs.Bindings.{count_of};

use crate::run::run;
use crate::stepped::Stepped;
use lps_facts::Facts;
use lps_meaning::Node;
use lps_nodes::led_law;
use lps_solve::Program;
use lps_terms::Atom;
use lps_unify::Bindings;
use std::alloc::{AllocError, Global};

/// What a node of the time before comes to in a cycle: exactly the nodes that are left of the plans that go on from it, and what
/// the instances carry that come through it and end then. The bindings are as before on every way out.
///
/// The facts are the state at this time, and the events are those of the cycle that ends at it. The bindings have no variables. An
/// error comes where memory runs out or no number is left for a variable, and for no other reason.
pub fn progress(
    alloc: Global,
    program: &Program,
    depth: u32,
    node: &Node,
    time: u64,
    facts: &Facts,
    events: &[Atom],
    bindings: &mut Bindings,
) -> Result<Stepped, AllocError>
    requires depth { (1 ≤ depth) × (depth ≤ 1000) }
    requires time { (1 ≤ time) × (time ≤ 1000000) }
    requires node { IsReady program.now node.now }
    requires ground { (a : Fluent) → Contains (members facts.now) a → AreGround a.args }
    requires events { (a : Fluent) → Contains events.now a → AreGround a.args }
    requires none { count_of bindings.now ≡ 0 }
    ensures next { IfOk result (λ stepped. IsNext program.now depth node.now time (members facts.now) events.now stepped) }
    ensures nodes { IfOk result (λ stepped. AllByRecursion (IsReady program.now) stepped.nodes.items) }
    ensures same { bindings.new ≡ bindings.old }
{
    program.lawful();
    led_law();
    let before = time.saturating_sub(1);
    run(alloc, program, node, before, time, facts, events, bindings)
}
