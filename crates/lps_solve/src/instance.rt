ghost use Rattle.std.specs.Prelude.{◌≡◌, ◌↔◌, ℕ, List, IfOk, Contains, map};
ghost use Rattle.std.specs.List.{flat_map};
ghost use Rattle.std.specs.List.Sorted.{IsStrictlySortedBy};
ghost use Rattle.std.specs.Cmp.Lexicographic.{slice_cmp};
ghost use Rattle.lps_terms.specs.Order.{term_cmp};
ghost use Rattle.lps_terms.specs.declared.atom.Atom.{Atom};
ghost use Rattle.lps_terms.specs.declared.term.Term.{Term as Value};
ghost use Rattle.lps_model.specs.Clauses.{clauses};
ghost use Rattle.lps_model.specs.VariableLists.{cond_vars};
ghost use Rattle.lps_derivation.specs.Levels.{AreLevels};
ghost use Rattle.lps_facts.specs.Facts.{members};
ghost use Rattle.lps_unify.specs.Bindings.{count_of};
ghost use Rattle.lps_unify.specs.Unified.{AreWithin};
ghost use Rattle.lps_solve.specs.Answers.{IsInstanceFor, IsSearched};
ghost use Rattle.lps_solve.specs.Met.{AreGround};
ghost use Rattle.lps_solve.specs.Moded.{AreModedFor, IsModedRun};
ghost use Rattle.lps_solve.specs.Placed.{AreBelow};

use crate::found::values_of;
use crate::program::Program;
use crate::search::{Query, Search, run};
use lps_facts::Facts;
use lps_terms::{Cond, Term, Values};
use lps_unify::Bindings;
use std::alloc::{AllocError, Global};
use std::collections::BTreeSet;

/// What the wanted terms are in each instance of the conditions that is true by the clauses of the program over the facts,
/// sorted and each once: as many values as there are wanted terms, each of at most 1,024 symbols, and together of at most
/// `room`. The bindings are as before on every way out.
///
/// The facts are ground, and the conditions are well-moded under the bindings: from the left each variable is known where
/// it has to be; each variable of the wanted terms is known at the start or stands in the conditions. The search always
/// ends, and never meets a variable without a value where one is needed. An error comes where memory runs out or no number
/// is left for a variable, and for no other reason.
pub fn instances(
    alloc: Global,
    program: &Program,
    facts: &Facts,
    conds: &[Cond],
    wanted: &[Term],
    room: u64,
    bindings: &mut Bindings,
) -> Result<Vec<Values>, AllocError>
    requires ground { (a : Atom) → Contains (members facts.now) a → AreGround a.args }
    requires below { AreBelow (count_of bindings.now) 0 (flat_map cond_vars conds.now) }
    requires within { AreWithin (count_of bindings.now) wanted.now }
    requires moded { AreModedFor program.now bindings.now conds.now wanted.now }
    ensures instances { IfOk result (λ found. (level : List ℕ → ℕ) → AreLevels (clauses program.now) level → (x : List Value) → Contains (map (λ v. v.0) found.items) x ↔ IsInstanceFor (clauses program.now) (members facts.now) level u64.MAX room bindings.old conds.now wanted.now x) }
    ensures sorted { IfOk result (λ found. IsStrictlySortedBy (slice_cmp term_cmp) (map (λ v. v.0) found.items)) }
    ensures same { bindings.new ≡ bindings.old }
{
    program.lawful();
    let text = program.text();
    let search = Search {
        alloc,
        program,
        facts,
        levels: text.levels(),
    };
    wanted_by(&search, conds, wanted, room, bindings)
}

/// The same by what the search goes by.
fn wanted_by(
    search: &Search<'_>,
    conds: &[Cond],
    wanted: &[Term],
    room: u64,
    bindings: &mut Bindings,
) -> Result<Vec<Values>, AllocError>
    requires sound { IsSearched search.now.program.now search.now.levels.now (members search.now.facts.now) }
    requires below { AreBelow (count_of bindings.now) 0 (flat_map cond_vars conds.now) }
    requires within { AreWithin (count_of bindings.now) wanted.now }
    requires moded { AreModedFor search.now.program.now bindings.now conds.now wanted.now }
    ensures instances { IfOk result (λ found. (level : List ℕ → ℕ) → AreLevels (clauses search.now.program.now) level → (x : List Value) → Contains (map (λ v. v.0) found.items) x ↔ IsInstanceFor (clauses search.now.program.now) (members search.now.facts.now) level u64.MAX room bindings.old conds.now wanted.now x) }
    ensures sorted { IfOk result (λ found. IsStrictlySortedBy (slice_cmp term_cmp) (map (λ v. v.0) found.items)) }
    ensures same { bindings.new ≡ bindings.old }
{
    bindings.lawful();
    instances_by(search, conds, wanted, room, bindings)
}

/// The same where the conditions are moded for each solution of the bindings.
pub(crate) fn instances_by(
    search: &Search<'_>,
    conds: &[Cond],
    wanted: &[Term],
    room: u64,
    bindings: &mut Bindings,
) -> Result<Vec<Values>, AllocError>
    requires sound { IsSearched search.now.program.now search.now.levels.now (members search.now.facts.now) }
    requires below { AreBelow (count_of bindings.now) 0 (flat_map cond_vars conds.now) }
    requires within { AreWithin (count_of bindings.now) wanted.now }
    requires moded { IsModedRun search.now.program.now bindings.now 0 conds.now wanted.now }
    ensures instances { IfOk result (λ found. (level : List ℕ → ℕ) → AreLevels (clauses search.now.program.now) level → (x : List Value) → Contains (map (λ v. v.0) found.items) x ↔ IsInstanceFor (clauses search.now.program.now) (members search.now.facts.now) level u64.MAX room bindings.old conds.now wanted.now x) }
    ensures sorted { IfOk result (λ found. IsStrictlySortedBy (slice_cmp term_cmp) (map (λ v. v.0) found.items)) }
    ensures same { bindings.new ≡ bindings.old }
{
    bindings.lawful();
    let mut found = BTreeSet::new(search.alloc);
    let query = Query {
        base: 0,
        wanted,
        room,
    };
    run(search, conds, &query, bindings, &mut found)?;
    values_of(search.alloc, found)
}
