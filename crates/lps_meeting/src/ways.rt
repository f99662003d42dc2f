//! How an item can be met at a time.
ghost use Rattle.std.specs.Prelude.{◌≡◌, ◌↔◌, ◌<◌, ◌≤◌, ◌∷◌, [], IfOk, IsTrue, OnOk, length, map};
ghost use Rattle.std.specs.List.{AllByRecursion};
ghost use Rattle.lps_terms.specs.Symbols.{atom_symbols_of};
ghost use Rattle.lps_meaning.specs.declared.node.LeftItem.TheVariants as Left;
ghost use Rattle.lps_meaning.specs.declared.when.When.TheVariants.{Known};
ghost use Rattle.lps_model.specs.Clauses.{clauses};
ghost use Rattle.lps_model.specs.VariableLists.{cond_vars};
ghost use Rattle.lps_facts.specs.Facts.{members};
ghost use Rattle.lps_unify.specs.Unified.{AreWithin};
ghost use Rattle.lps_solve.specs.Found.{Gains};
ghost use Rattle.lps_solve.specs.Moded.{AreModedFor};
ghost use Rattle.lps_meeting.specs.Steps.{AreGroundAtoms, AreInstances, AreWays, IsFresh, IsLeftBelow, IsReadyItem, IsRowOfEvent, decided_by};

use crate::moment::Moment;
use lps_meaning::LeftItem;
use lps_residual::MOST_SYMBOLS;
use lps_solve::{accepted_texts_are_sound, instances};
use lps_terms::{
    Atom, Built, Cond, Lit, Term, Values, atom_symbols, copy_atom, copy_built, copy_lit, copy_term,
};
use lps_unify::Bindings;
use sqlite_items::Items;
use std::alloc::{AllocError, Global};

/// How many symbols the arguments of an atom of an instance may have together.
const MOST_IN_ARGUMENTS: u64 = 1023;

/// How an item is met: where the terms are one of the rows.
#[derive(Drop)]
pub struct Ways {
    pub terms: Items<Term>,
    pub rows: Vec<Values>,
}

/// How an item is met, but for its times. The bindings are as before on every way out.
pub fn ways_to_meet(
    moment: &Moment<'_>,
    item: &LeftItem,
    bindings: &mut Bindings,
) -> Result<Ways, AllocError>
    requires events { AreGroundAtoms moment.now.events.now }
    requires facts { AreGroundAtoms (members moment.now.facts.now) }
    requires fresh { IsFresh moment.now.variables bindings.now }
    requires below { IsLeftBelow moment.now.variables item.now }
    requires ready { IsReadyItem moment.now.program.now item.now }
    ensures ways { IfOk result (λ ways. AreWays (clauses moment.now.program.now) (members moment.now.facts.now) moment.now.events.now moment.now.variables item.now ways) }
    ensures same { bindings.new ≡ bindings.old }
{
    match item {
        LeftItem::At(lit, _) => ways_of_lit(moment, lit, bindings),
        LeftItem::Bare(lit) => ways_of_lit(moment, lit, bindings),
        LeftItem::Built(built) => ways_of_built(moment, built, bindings),
        LeftItem::Span(atom, _, _) => ways_of_event(moment, atom),
    }
}

/// An event or an action is met where it happens.
fn ways_of_event(moment: &Moment<'_>, atom: &Atom) -> Result<Ways, AllocError>
    requires events { AreGroundAtoms moment.now.events.now }
    requires below { IsLeftBelow moment.now.variables (Left.Span atom.now (Known 0) (Known 0)) }
    ensures { IfOk result (λ ways. AreWays (clauses moment.now.program.now) (members moment.now.facts.now) moment.now.events.now moment.now.variables (Left.Span atom.now (Known 0) (Known 0)) ways) }
{
    let mut rows = Vec::new(moment.alloc);
    for event in moment.events {
        add_row(moment.alloc, atom, event, &mut rows)?;
    }
    let terms = copy_atom(moment.alloc, atom)?.args;
    Ok(Ways { terms, rows })
}

/// Adds the arguments of an event where it may be an instance of the atom.
fn add_row(
    alloc: Global,
    atom: &Atom,
    event: &Atom,
    rows: &mut Vec<Values>,
) -> Result<(), AllocError>
    ensures { OnOk result (Gains (map (λ v. v.0) rows.old.items) (map (λ v. v.0) rows.new.items) (IsRowOfEvent atom.now event.now)) }
{
    if !may_be(atom, event) {
        return Ok(());
    }
    let copy = copy_atom(alloc, event)?;
    rows.push(Values(copy.args))?;
    Ok(())
}

/// Whether an event has the name of an atom and as many arguments, and is small.
fn may_be(atom: &Atom, event: &Atom) -> bool
    ensures { IsTrue result ↔ ((event.now.name ≡ atom.now.name) × (length event.now.args ≡ length atom.now.args) × (atom_symbols_of event.now ≤ 1024)) }
{
    event.name == atom.name
        && event.args.len() == atom.args.len()
        && atom_symbols(event) <= MOST_SYMBOLS
}

/// A literal is met where it is true in the state.
fn ways_of_lit(moment: &Moment<'_>, lit: &Lit, bindings: &mut Bindings) -> Result<Ways, AllocError>
    requires facts { AreGroundAtoms (members moment.now.facts.now) }
    requires fresh { IsFresh moment.now.variables bindings.now }
    requires below { IsLeftBelow moment.now.variables (Left.Bare lit.now) }
    requires ready { IsReadyItem moment.now.program.now (Left.Bare lit.now) }
    ensures ways { IfOk result (λ ways. AreWays (clauses moment.now.program.now) (members moment.now.facts.now) moment.now.events.now moment.now.variables (Left.Bare lit.now) ways) }
    ensures same { bindings.new ≡ bindings.old }
{
    let cond = Cond::Lit(copy_lit(moment.alloc, lit)?);
    let terms = copy_atom(moment.alloc, &lit.atom)?.args;
    ways_of_cond(moment, cond, terms, MOST_IN_ARGUMENTS, bindings)
}

/// A built-in is met where it is true.
fn ways_of_built(
    moment: &Moment<'_>,
    built: &Built,
    bindings: &mut Bindings,
) -> Result<Ways, AllocError>
    requires facts { AreGroundAtoms (members moment.now.facts.now) }
    requires fresh { IsFresh moment.now.variables bindings.now }
    requires below { IsLeftBelow moment.now.variables (Left.Built built.now) }
    requires ready { IsReadyItem moment.now.program.now (Left.Built built.now) }
    ensures ways { IfOk result (λ ways. AreWays (clauses moment.now.program.now) (members moment.now.facts.now) moment.now.events.now moment.now.variables (Left.Built built.now) ways) }
    ensures same { bindings.new ≡ bindings.old }
{
    let cond = Cond::Built(copy_built(moment.alloc, built)?);
    let terms = decided_by(moment.alloc, built)?;
    ways_of_cond(moment, cond, terms, u64::MAX, bindings)
}

/// The terms of a built-in that may have variables when it is met.
fn decided_by(alloc: Global, built: &Built) -> Result<Items<Term>, AllocError>
    ensures { IfOk result (λ terms. terms ≡ decided_by built.now) }
{
    let mut terms = Items::new(alloc);
    match built {
        Built::Same(left, right) => {
            terms.push(copy_term(alloc, left)?)?;
            terms.push(copy_term(alloc, right)?)?;
        }
        Built::Is(left, _) => terms.push(copy_term(alloc, left)?)?,
        Built::Differ(_, _) => {}
        Built::Compare(_, _, _) => {}
    }
    Ok(terms)
}

/// A condition is met by the instances for the terms.
fn ways_of_cond(
    moment: &Moment<'_>,
    cond: Cond,
    terms: Items<Term>,
    room: u64,
    bindings: &mut Bindings,
) -> Result<Ways, AllocError>
    requires facts { AreGroundAtoms (members moment.now.facts.now) }
    requires fresh { IsFresh moment.now.variables bindings.now }
    requires below { AllByRecursion (λ v. v < moment.now.variables) (cond_vars cond) }
    requires within { AreWithin moment.now.variables terms }
    requires moded { AreModedFor moment.now.program.now bindings.now (cond ∷ []) terms }
    ensures ways { IfOk result (λ ways. AreInstances (clauses moment.now.program.now) (members moment.now.facts.now) u64.MAX room bindings.old cond terms ways) }
    ensures same { bindings.new ≡ bindings.old }
{
    moment.program.lawful();
    accepted_texts_are_sound();
    let alone = vec![in moment.alloc; cond]?;
    let rows = instances(
        moment.alloc,
        moment.program,
        moment.facts,
        alone.as_slice(),
        terms.as_slice(),
        room,
        bindings,
    )?;
    Ok(Ways { terms, rows })
}
