//! What waits in the initial state.
ghost use Rattle.std.specs.Prelude.{◌≡◌, IfOk, Contains, length};
ghost use Rattle.lps_terms.specs.declared.atom.Atom.{Atom as Fluent};
ghost use Rattle.lps_facts.specs.Facts.{members};
ghost use Rattle.lps_model.specs.Rules.{rules};
ghost use Rattle.lps_solve.specs.Met.{AreGround};
ghost use Rattle.lps_unify.specs.Bindings.{count_of};
ghost use Rattle.lps_residual.specs.Moments.{IsReady};
ghost use Rattle.lps_antecedents.specs.declared.held.Held.{Held as One};
ghost use Rattle.lps_antecedents.specs.Gathered.{IsGatheredAtFirst};

use crate::advancing::DEPTH;
use crate::gathered::Gathered;
use crate::rules::rule_count;
use lps_facts::Facts;
use lps_nodes::progress_law;
use lps_seq::{Start, enter};
use lps_solve::Program;
use lps_unify::Bindings;
use std::alloc::{AllocError, Global};

/// What the antecedents of all rules come to at time 0.
pub(crate) fn started(
    alloc: Global,
    program: &Program,
    facts: &Facts,
    bindings: &mut Bindings,
) -> Result<Gathered, AllocError>
    requires ground { (a : Fluent) → Contains (members facts.now) a → AreGround a.args }
    requires none { count_of bindings.now ≡ 0 }
    ensures gathered { IfOk result (λ g. IsGatheredAtFirst program.now (members facts.now) (length (rules program.now)) g) }
    ensures ready { IfOk result (λ g. (h : One) → Contains g.held.items h → IsReady program.now h.node) }
    ensures same { bindings.new ≡ bindings.old }
{
    program.lawful();
    progress_law();
    let count = rule_count(program.text().text())?;
    let mut gathered = Gathered::new(alloc);
    for before in 0..count {
        let rule = before + 1;
        let start = Start::Antecedent { rule };
        let stepped = enter(alloc, program, DEPTH, &start, 0, facts, bindings)?;
        gathered.add(alloc, rule, 0, stepped)?;
    }
    Ok(gathered)
}
