ghost use Rattle.std.specs.Prelude.{◌≡◌, ◌↔◌, ℕ, List, IfOk, MatchOption, Contains, map};
ghost use Rattle.std.specs.List.{flat_map};
ghost use Rattle.std.specs.List.Sorted.{IsStrictlySortedBy};
ghost use Rattle.std.specs.Cmp.Lexicographic.{slice_cmp};
ghost use Rattle.lps_terms.specs.Order.{term_cmp};
ghost use Rattle.lps_terms.specs.declared.atom.Atom.{Atom};
ghost use Rattle.lps_terms.specs.declared.term.Term.{Term as Value};
ghost use Rattle.lps_terms.specs.declared.term.Term.TheVariants.{Var};
ghost use Rattle.lps_model.specs.VariableLists.{cond_vars};
ghost use Rattle.lps_model.specs.Clauses.{clauses};
ghost use Rattle.lps_derivation.specs.Instances.{IsSmallCond, put_cond};
ghost use Rattle.lps_derivation.specs.Levels.{AreLevels};
ghost use Rattle.lps_facts.specs.Facts.{members};
ghost use Rattle.lps_unify.specs.Bindings.{count_of};
ghost use Rattle.lps_solve.specs.Answers.{AreLarge, IsAnswer, IsSearched, variables_left};
ghost use Rattle.lps_solve.specs.Met.{AreGround};
ghost use Rattle.lps_solve.specs.Moded.{AreModed};
ghost use Rattle.lps_solve.specs.Placed.{AreBelow};

use crate::instance::instances_by;
use crate::place_cond::place_cond;
use crate::program::Program;
use crate::search::Search;
use crate::variables::note_cond;
use lps_facts::Facts;
use lps_terms::{Args, Cond, Term, Values};
use lps_unify::Bindings;
use sqlite_items::Items;
use std::alloc::{AllocError, Global};
use std::collections::BTreeSet;

/// The values of the variables that stand in the conditions, by rising number, in each instance of the conditions that is
/// true by the clauses of the program over the facts, each once and in order. What is bound has its value in its place, and
/// is none of these variables. The bindings are as before on every way out.
///
/// The facts are ground, and the conditions are well-moded under the bindings: from the left each variable is known where
/// it has to be. The search always ends, and never meets a variable without a value where one is needed. An error comes
/// where memory runs out or no number is left for a variable, and for no other reason.
pub fn answers(
    alloc: Global,
    program: &Program,
    facts: &Facts,
    conds: &[Cond],
    bindings: &mut Bindings,
) -> Result<Vec<Values>, AllocError>
    requires ground { (a : Atom) → Contains (members facts.now) a → AreGround a.args }
    requires below { AreBelow (count_of bindings.now) 0 (flat_map cond_vars conds.now) }
    requires moded { AreModed program.now bindings.now conds.now }
    ensures answers { IfOk result (λ found. (level : List ℕ → ℕ) → AreLevels (clauses program.now) level → (x : List Value) → Contains (map (λ v. v.0) found.items) x ↔ IsAnswer (clauses program.now) (members facts.now) level bindings.old conds.now x) }
    ensures sorted { IfOk result (λ found. IsStrictlySortedBy (slice_cmp term_cmp) (map (λ v. v.0) found.items)) }
    ensures same { bindings.new ≡ bindings.old }
{
    program.lawful();
    let text = program.text();
    let search = Search {
        alloc,
        program,
        facts,
        levels: text.levels(),
    };
    answers_by(&search, conds, bindings)
}

/// The same by what the search goes by.
fn answers_by(
    search: &Search<'_>,
    conds: &[Cond],
    bindings: &mut Bindings,
) -> Result<Vec<Values>, AllocError>
    requires sound { IsSearched search.now.program.now search.now.levels.now (members search.now.facts.now) }
    requires below { AreBelow (count_of bindings.now) 0 (flat_map cond_vars conds.now) }
    requires moded { AreModed search.now.program.now bindings.now conds.now }
    ensures answers { IfOk result (λ found. (level : List ℕ → ℕ) → AreLevels (clauses search.now.program.now) level → (x : List Value) → Contains (map (λ v. v.0) found.items) x ↔ IsAnswer (clauses search.now.program.now) (members search.now.facts.now) level bindings.old conds.now x) }
    ensures sorted { IfOk result (λ found. IsStrictlySortedBy (slice_cmp term_cmp) (map (λ v. v.0) found.items)) }
    ensures same { bindings.new ≡ bindings.old }
{
    let alloc = search.alloc;
    match wanted_in(alloc, conds, bindings)? {
        Some(wanted) => {
            bindings.lawful();
            let terms = wanted.as_slice();
            instances_by(search, conds, terms, u64::MAX, bindings)
        }
        None => {
            bindings.lawful();
            Ok(Vec::new(alloc))
        }
    }
}

/// The variables that stand in the conditions once what is bound is put in, by rising number; none where one of the
/// conditions is too large.
fn wanted_in(alloc: Global, conds: &[Cond], bindings: &Bindings) -> Result<Option<Args>, AllocError>
    requires below { AreBelow (count_of bindings.now) 0 (flat_map cond_vars conds.now) }
    ensures { IfOk result (λ found. MatchOption found (AreLarge bindings.now conds.now) (λ wanted. wanted ≡ map (λ v. Var v) (variables_left bindings.now conds.now))) }
{
    let mut variables = BTreeSet::new(alloc);
    for cond in conds {
        match place_cond(alloc, bindings, 0, cond)? {
            Some(cond) => note_cond(&cond, &mut variables)?,
            None => return Ok(None),
        }
    }
    Ok(Some(as_terms(alloc, variables)?))
}

fn as_terms(alloc: Global, variables: BTreeSet<u32>) -> Result<Args, AllocError>
    ensures { IfOk result (λ terms. terms ≡ map (λ v. Var v) variables.keys) }
{
    let mut terms = Vec::new(alloc);
    for variable in variables {
        terms.push(Term::Var(variable))?;
    }
    Ok(Items::from_vec(terms))
}
