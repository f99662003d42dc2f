ghost use Rattle.std.specs.Prelude.{◌≡◌, ◌≤◌, ◌+◌, [], ℕ, IfOk, OnOk, Contains, map};
ghost use Rattle.std.specs.List.{flat_map};
ghost use Rattle.lps_terms.specs.Put.{put};
ghost use Rattle.lps_terms.specs.declared.cond.Cond.TheVariants as Condition;
ghost use Rattle.lps_model.specs.VariableLists.{args_vars, cond_vars};
ghost use Rattle.lps_terms.specs.Symbols.{atom_symbols_of};
ghost use Rattle.lps_model.specs.Program.{declarations};
ghost use Rattle.lps_model.specs.Clauses.{clauses};
ghost use Rattle.lps_derivation.specs.Instances.{put_cond};
ghost use Rattle.lps_facts.specs.Facts.{members};
ghost use Rattle.lps_unify.specs.Bindings.{count_of, standing};
ghost use Rattle.lps_unify.specs.Unified.{AreWithin};
ghost use Rattle.lps_solve.specs.Answers.{IsSearched};
ghost use Rattle.lps_solve.specs.Found.{ByClause, ByOne, Finds, GainsBy, IsLonger, Reaches, ReachesBy};
ghost use Rattle.lps_solve.specs.Met.{AreGround, MeetsBy};
ghost use Rattle.lps_solve.specs.Moded.{IsMarked, IsModedRun, IsModedStep, IsReadyCond, needs_of};
ghost use Rattle.lps_solve.specs.Placed.{AreBelow, values_in};
ghost use Rattle.lps_solve.specs.Table.{IsPlaceFor, clause_at, clause_of, clause_vars};

use crate::built::ways_to_meet;
use crate::clause::Clause;
use crate::found::{add_facts, collect, room_for, rows_of};
use crate::ground::are_ground;
use crate::lists::unify_all;
use crate::place::shifted_all;
use crate::place_cond::place_cond;
use crate::program::Program;
use crate::row::Row;
use crate::ways::Ways;
use lps_facts::Facts;
use lps_model::Levels;
use lps_terms::{Atom, Cond, Lit, Term};
use lps_unify::Bindings;
use std::alloc::{AllocError, Global};
use std::collections::BTreeSet;

/// The clauses and the facts that a search goes by. The levels tell how far down it may go.
#[derive(Clone, Copy)]
pub(crate) struct Search<'a> {
    pub alloc: Global,
    pub program: &'a Program,
    pub facts: &'a Facts,
    pub levels: &'a Levels,
}

/// What conditions are asked for: the wanted terms, together of at most `room` symbols. The variables of the conditions count
/// from `base`.
#[derive(Clone, Copy)]
pub(crate) struct Query<'a> {
    pub base: u32,
    pub wanted: &'a [Term],
    pub room: u64,
}

/// How many symbols the arguments of an atom of an instance may have together.
const MOST_IN_ARGUMENTS: u64 = 1023;

/// The arguments of the true instances of a goal into which the bindings were put.
#[cycle(search)]
fn solve(
    search: &Search<'_>,
    goal: &Atom,
    bindings: &mut Bindings,
) -> Result<BTreeSet<Row>, AllocError>
    requires sound { IsSearched search.now.program.now search.now.levels.now (members search.now.facts.now) }
    requires within { AreWithin (count_of bindings.now) goal.now.args }
    requires resolved { map (put (standing bindings.now).value) goal.now.args ≡ goal.now.args }
    requires small { atom_symbols_of goal.now ≤ 1024 }
    requires marked { IsMarked (declarations search.now.program.now) goal.now }
    ensures found { IfOk result (λ found. Finds (clauses search.now.program.now) (members search.now.facts.now) bindings.old goal.now found.keys) }
    ensures same { bindings.new ≡ bindings.old }
{
    bindings.lawful();
    let mut found = BTreeSet::new(search.alloc);
    add_facts(search.alloc, search.facts, goal, &mut found)?;
    let places = search.program.places_for(goal);
    by_clauses(search, places.keyed, goal, bindings, &mut found)?;
    by_clauses(search, places.others, goal, bindings, &mut found)?;
    Ok(found)
}

/// Adds what the clauses at these places give.
#[cycle(search)]
fn by_clauses(
    search: &Search<'_>,
    places: &[usize],
    goal: &Atom,
    bindings: &mut Bindings,
    found: &mut BTreeSet<Row>,
) -> Result<(), AllocError>
    requires sound { IsSearched search.now.program.now search.now.levels.now (members search.now.facts.now) }
    requires places { (i : ℕ) → Contains places.now i → IsPlaceFor (clauses search.now.program.now) goal.now i }
    requires within { AreWithin (count_of bindings.now) goal.now.args }
    requires small { atom_symbols_of goal.now ≤ 1024 }
    requires marked { IsMarked (declarations search.now.program.now) goal.now }
    ensures found { OnOk result (GainsBy (clauses search.now.program.now) found.old.keys found.new.keys (λ level. ByOne places.now (λ i. ByClause (clauses search.now.program.now) (members search.now.facts.now) level u64.MAX bindings.old (clause_at (clauses search.now.program.now) i) goal.now))) }
    ensures same { bindings.new ≡ bindings.old }
{
    for place in places {
        let clause = search.program.clause(*place);
        by_clause(search, clause, goal, bindings, found)?;
    }
    Ok(())
}

/// Adds what a clause gives.
#[cycle(search)]
fn by_clause(
    search: &Search<'_>,
    clause: &Clause,
    goal: &Atom,
    bindings: &mut Bindings,
    found: &mut BTreeSet<Row>,
) -> Result<(), AllocError>
    requires sound { IsSearched search.now.program.now search.now.levels.now (members search.now.facts.now) }
    requires within { AreWithin (count_of bindings.now) goal.now.args }
    requires variables { AreBelow clause.now.variables 0 (clause_vars (clause_of clause.now)) }
    requires among { Contains (clauses search.now.program.now) (clause_of clause.now) }
    requires named { clause.now.head.name ≡ goal.now.name }
    requires small { atom_symbols_of goal.now ≤ 1024 }
    requires marked { IsMarked (declarations search.now.program.now) goal.now }
    ensures found { OnOk result (GainsBy (clauses search.now.program.now) found.old.keys found.new.keys (λ level. ByClause (clauses search.now.program.now) (members search.now.facts.now) level u64.MAX bindings.old (clause_of clause.now) goal.now)) }
    ensures same { bindings.new ≡ bindings.old }
{
    let mark = bindings.mark();
    let done = enter(search, clause, goal, bindings, found);
    bindings.undo_to(&mark);
    done
}

#[cycle(search)]
fn enter(
    search: &Search<'_>,
    clause: &Clause,
    goal: &Atom,
    bindings: &mut Bindings,
    found: &mut BTreeSet<Row>,
) -> Result<(), AllocError>
    requires sound { IsSearched search.now.program.now search.now.levels.now (members search.now.facts.now) }
    requires within { AreWithin (count_of bindings.now) goal.now.args }
    requires variables { AreBelow clause.now.variables 0 (clause_vars (clause_of clause.now)) }
    requires among { Contains (clauses search.now.program.now) (clause_of clause.now) }
    requires named { clause.now.head.name ≡ goal.now.name }
    requires small { atom_symbols_of goal.now ≤ 1024 }
    requires marked { IsMarked (declarations search.now.program.now) goal.now }
    ensures found { OnOk result (GainsBy (clauses search.now.program.now) found.old.keys found.new.keys (λ level. ByClause (clauses search.now.program.now) (members search.now.facts.now) level u64.MAX bindings.old (clause_of clause.now) goal.now)) }
    ensures extended { IsLonger bindings.old bindings.new }
{
    bindings.lawful();
    let variables = match room_for(bindings.count(), clause.variables) {
        Some(variables) => variables,
        None => return Err(AllocError),
    };
    let base = bindings.extend(variables)?;
    let own = clause.head.args.as_slice();
    let head = shifted_all(search.alloc, base, own)?;
    let pattern = head.as_slice();
    let wanted = goal.args.as_slice();
    if wanted.len() != pattern.len() {
        return Ok(());
    }
    if unify_all(bindings, wanted, pattern)? {
        bindings.lawful();
        let conds = clause.conds.as_slice();
        let query = Query {
            base,
            wanted,
            room: MOST_IN_ARGUMENTS,
        };
        run(search, conds, &query, bindings, found)
    } else {
        Ok(())
    }
}

/// Adds what the wanted terms are where the conditions are met.
#[cycle(search)]
pub(crate) fn run(
    search: &Search<'_>,
    conds: &[Cond],
    query: &Query<'_>,
    bindings: &mut Bindings,
    found: &mut BTreeSet<Row>,
) -> Result<(), AllocError>
    requires sound { IsSearched search.now.program.now search.now.levels.now (members search.now.facts.now) }
    requires within { AreWithin (count_of bindings.now) query.now.wanted.now }
    requires below { AreBelow (count_of bindings.now) query.now.base (flat_map cond_vars conds.now) }
    requires moded { IsModedRun search.now.program.now bindings.now query.now.base conds.now query.now.wanted.now }
    ensures found { OnOk result (GainsBy (clauses search.now.program.now) found.old.keys found.new.keys (λ level. Reaches (clauses search.now.program.now) (members search.now.facts.now) level u64.MAX query.now.room bindings.old query.now.base conds.now query.now.wanted.now)) }
    ensures same { bindings.new ≡ bindings.old }
{
    bindings.lawful();
    match conds.split_first() {
        Some((cond, rest)) => {
            let ways = meet(search, cond, query.base, bindings)?;
            let terms = ways.terms.as_slice();
            for row in ways.rows.as_slice() {
                step(search, rest, query, terms, row, bindings, found)?;
            }
            Ok(())
        }
        None => collect(search.alloc, query.wanted, query.room, bindings, found),
    }
}

/// How a condition is met.
#[cycle(search)]
fn meet(
    search: &Search<'_>,
    cond: &Cond,
    base: u32,
    bindings: &mut Bindings,
) -> Result<Ways, AllocError>
    requires sound { IsSearched search.now.program.now search.now.levels.now (members search.now.facts.now) }
    requires below { AreBelow (count_of bindings.now) base (cond_vars cond.now) }
    requires ready { IsReadyCond (declarations search.now.program.now) (put_cond (values_in bindings.now base) cond.now) }
    ensures met { IfOk result (λ ways. MeetsBy (clauses search.now.program.now) (members search.now.facts.now) bindings.old (λ s. put_cond (λ v. s (base + v)) cond.now) ways) }
    ensures same { bindings.new ≡ bindings.old }
{
    bindings.lawful();
    match place_cond(search.alloc, bindings, base, cond)? {
        Some(Cond::Lit(lit)) => meet_literal(search, lit, bindings),
        Some(Cond::Built(built)) => ways_to_meet(search.alloc, built),
        None => Ok(Ways::never(search.alloc)),
    }
}

/// How a literal into which the bindings were put is met.
#[cycle(search)]
fn meet_literal(search: &Search<'_>, lit: Lit, bindings: &mut Bindings) -> Result<Ways, AllocError>
    requires sound { IsSearched search.now.program.now search.now.levels.now (members search.now.facts.now) }
    requires within { AreWithin (count_of bindings.now) lit.atom.args }
    requires resolved { map (put (standing bindings.now).value) lit.atom.args ≡ lit.atom.args }
    requires small { atom_symbols_of lit.atom ≤ 1024 }
    requires ready { needs_of (declarations search.now.program.now) lit.negated lit.atom ≡ [] }
    ensures met { IfOk result (λ ways. MeetsBy (clauses search.now.program.now) (members search.now.facts.now) bindings.old (λ s. put_cond s (Condition.Lit lit)) ways) }
    ensures same { bindings.new ≡ bindings.old }
{
    if lit.negated {
        if !are_ground(lit.atom.args.as_slice()) {
            return Ok(Ways::never(search.alloc));
        }
        let found = solve(search, &lit.atom, bindings)?;
        Ok(Ways::when(search.alloc, found.is_empty())?)
    } else {
        let found = solve(search, &lit.atom, bindings)?;
        let rows = rows_of(search.alloc, found)?;
        let terms = lit.atom.args;
        Ok(Ways { terms, rows })
    }
}

/// Adds what is reached where the terms are the row.
#[cycle(search)]
fn step(
    search: &Search<'_>,
    conds: &[Cond],
    query: &Query<'_>,
    terms: &[Term],
    row: &Row,
    bindings: &mut Bindings,
    found: &mut BTreeSet<Row>,
) -> Result<(), AllocError>
    requires sound { IsSearched search.now.program.now search.now.levels.now (members search.now.facts.now) }
    requires within { AreWithin (count_of bindings.now) query.now.wanted.now }
    requires below { AreBelow (count_of bindings.now) query.now.base (flat_map cond_vars conds.now) }
    requires terms { AreWithin (count_of bindings.now) terms.now }
    requires ground { AreGround row.now }
    requires moded { IsModedStep search.now.program.now bindings.now query.now.base conds.now query.now.wanted.now terms.now row.now }
    ensures found { OnOk result (GainsBy (clauses search.now.program.now) found.old.keys found.new.keys (λ level. ReachesBy (clauses search.now.program.now) (members search.now.facts.now) level u64.MAX query.now.room bindings.old query.now.base conds.now query.now.wanted.now terms.now row.now)) }
    ensures same { bindings.new ≡ bindings.old }
{
    let mark = bindings.mark();
    let done = bound(search, conds, query, terms, row, bindings, found);
    bindings.undo_to(&mark);
    done
}

#[cycle(search)]
fn bound(
    search: &Search<'_>,
    conds: &[Cond],
    query: &Query<'_>,
    terms: &[Term],
    row: &Row,
    bindings: &mut Bindings,
    found: &mut BTreeSet<Row>,
) -> Result<(), AllocError>
    requires sound { IsSearched search.now.program.now search.now.levels.now (members search.now.facts.now) }
    requires within { AreWithin (count_of bindings.now) query.now.wanted.now }
    requires below { AreBelow (count_of bindings.now) query.now.base (flat_map cond_vars conds.now) }
    requires terms { AreWithin (count_of bindings.now) terms.now }
    requires ground { AreGround row.now }
    requires moded { IsModedStep search.now.program.now bindings.now query.now.base conds.now query.now.wanted.now terms.now row.now }
    ensures found { OnOk result (GainsBy (clauses search.now.program.now) found.old.keys found.new.keys (λ level. ReachesBy (clauses search.now.program.now) (members search.now.facts.now) level u64.MAX query.now.room bindings.old query.now.base conds.now query.now.wanted.now terms.now row.now)) }
    ensures extended { IsLonger bindings.old bindings.new }
{
    let values = row.terms();
    if terms.len() != values.len() {
        return Ok(());
    }
    bindings.lawful();
    if unify_all(bindings, terms, values)? {
        bindings.lawful();
        run(search, conds, query, bindings, found)
    } else {
        Ok(())
    }
}
