//! What a law gives for an event.
ghost use Rattle.std.specs.Prelude.{◌≡◌, ◌≤◌, ◌↔◌, ℕ, List, IfOk, OnOk, Contains, map};
ghost use Rattle.lps_terms.specs.declared.atom.Atom.{Atom as Fluent};
ghost use Rattle.lps_terms.specs.declared.term.Term.{Term as Value};
ghost use Rattle.lps_terms.specs.Symbols.{atom_symbols_of};
ghost use Rattle.lps_model.specs.Program.{laws};
ghost use Rattle.lps_model.specs.Clauses.{clauses};
ghost use Rattle.lps_derivation.specs.Levels.{AreLevels};
ghost use Rattle.lps_facts.specs.Facts.{members};
ghost use Rattle.lps_solve.specs.Found.{atom_of};
ghost use Rattle.lps_solve.specs.Met.{AreGround};
ghost use Rattle.lps_causal.specs.Given.{AddsBy, Gives, GivesAs};
ghost use Rattle.lps_causal.specs.Laws.{IsCounted, law_of};

use crate::causal_law::CausalLaw;
use crate::given::Given;
use lps_facts::Facts;
use lps_solve::{Program, instances, unify_all};
use lps_terms::{Atom, Values};
use lps_unify::Bindings;
use std::alloc::{AllocError, Global};

/// How many symbols the arguments of an atom of an instance may have together.
const MOST_IN_ARGUMENTS: u64 = 1023;

/// Adds the fluents that a law gives for an event of its name.
pub(crate) fn add_by_law(
    alloc: Global,
    program: &Program,
    facts: &Facts,
    law: &CausalLaw,
    event: &Atom,
    given: &mut Given,
) -> Result<(), AllocError>
    requires law { Contains (laws program.now) (law_of law.now) }
    requires counted { IsCounted law.now }
    requires state { (a : Fluent) → Contains (members facts.now) a → AreGround a.args }
    requires event { AreGround event.now.args }
    requires named { law.now.event.name ≡ event.now.name }
    requires small { atom_symbols_of event.now ≤ 1024 }
    ensures { OnOk result (AddsBy (clauses program.now) given.old given.new (λ level initiates. GivesAs (clauses program.now) (members facts.now) level event.now initiates (law_of law.now))) }
{
    let rows = arguments_by_law(alloc, program, facts, law, event)?;
    given.add_rows(alloc, law.initiates, &law.fluent.name, rows)
}

/// The arguments of the fluents that a law gives for an event of its name.
fn arguments_by_law(
    alloc: Global,
    program: &Program,
    facts: &Facts,
    law: &CausalLaw,
    event: &Atom,
) -> Result<Vec<Values>, AllocError>
    requires law { Contains (laws program.now) (law_of law.now) }
    requires counted { IsCounted law.now }
    requires state { (a : Fluent) → Contains (members facts.now) a → AreGround a.args }
    requires event { AreGround event.now.args }
    requires named { law.now.event.name ≡ event.now.name }
    requires small { atom_symbols_of event.now ≤ 1024 }
    ensures { IfOk result (λ found. (level : List ℕ → ℕ) → AreLevels (clauses program.now) level → (x : List Value) → Contains (map (λ v. v.0) found.items) x ↔ Gives (clauses program.now) (members facts.now) level (law_of law.now) event.now (atom_of law.now.fluent.name x)) }
{
    let args = event.args.as_slice();
    let pattern = law.event.args.as_slice();
    if args.len() != pattern.len() {
        return Ok(Vec::new(alloc));
    }
    let mut bindings = Bindings::new(alloc, law.variables)?;
    if !unify_all(&mut bindings, args, pattern)? {
        return Ok(Vec::new(alloc));
    }
    program.lawful();
    bindings.lawful();
    let conds = law.conds.as_slice();
    let wanted = law.fluent.args.as_slice();
    instances(
        alloc,
        program,
        facts,
        conds,
        wanted,
        MOST_IN_ARGUMENTS,
        &mut bindings,
    )
}
