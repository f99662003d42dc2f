ghost use Rattle.std.specs.Prelude.{◌≡◌, [], true, false, IfOk};
ghost use Rattle.std.specs.Option.{option_or};
ghost use Rattle.lps_model.specs.Known.{alternatives_unknown, body_unknown, conditions_unknown, head_known, items_unknown, known_after, learnt, scope_at, sequence_unknown, steps_after};
ghost use Rattle.lps_model.specs.VariableLists.{atom_vars};
ghost use Rattle.lps_modes.specs.Scopes.{scope_of};

use crate::known::learn;
use crate::needs::append_atom_needs;
use crate::scope::Scope;
use crate::sequences::{conds_unknown, items_unknown, learn_items, learn_steps};
use crate::variables::append_atom;
use lps_model::Kinds;
use lps_terms::{Atom, Body, Cond, Item, Name, Statement};
use sqlite_items::Items;
use std::alloc::{AllocError, Global};

/// Where the statement's items stand, in a sequence whose constraints may speak of these times.
fn scope_at<'a>(
    kinds: &'a Kinds,
    statement: &'a Statement,
    steps: &'a [u32],
    is_planned: bool,
) -> Scope<'a>
    ensures { scope_of result ≡ scope_at kinds.now statement.now steps.now is_planned }
{
    Scope {
        kinds,
        names: statement.names.as_slice(),
        times: statement.times.as_slice(),
        steps,
        is_planned,
    }
}

fn vars_of(alloc: Global, atom: &Atom) -> Result<Vec<u32>, AllocError>
    ensures { IfOk result (λ variables. variables.items ≡ atom_vars atom.now) }
{
    let mut variables = Vec::new(alloc);
    append_atom(atom, &mut variables)?;
    Ok(variables)
}

/// The variables of a law's event, which are known at the start.
fn event_known(alloc: Global, event: &Atom) -> Result<Vec<u32>, AllocError>
    ensures { IfOk result (λ known. known.items ≡ learnt [] (atom_vars event.now)) }
{
    let variables = vars_of(alloc, event)?;
    let mut known = Vec::new(alloc);
    learn(&mut known, variables.as_slice())?;
    Ok(known)
}

/// The variables of a head that are known at the start.
fn head_known(alloc: Global, kinds: &Kinds, head: &Atom) -> Result<Vec<u32>, AllocError>
    ensures { IfOk result (λ known. known.items ≡ head_known kinds.now head.now) }
{
    let mut variables = Vec::new(alloc);
    append_atom_needs(kinds, false, head, &mut variables)?;
    let mut known = Vec::new(alloc);
    learn(&mut known, variables.as_slice())?;
    Ok(known)
}

fn sequence_unknown(
    alloc: Global,
    kinds: &Kinds,
    statement: &Statement,
    is_planned: bool,
    wanted: &[u32],
    known: Vec<u32>,
    items: &[Item],
) -> Result<Option<Name>, AllocError>
    ensures { IfOk result (λ unknown. unknown ≡ sequence_unknown kinds.now statement.now is_planned wanted.now known.items items.now) }
{
    let mut steps = Vec::new(alloc);
    learn_steps(&mut steps, items)?;
    let scope = scope_at(kinds, statement, steps.as_slice(), is_planned);
    items_unknown(alloc, &scope, wanted, known, items)
}

fn conditions_unknown(
    alloc: Global,
    kinds: &Kinds,
    statement: &Statement,
    wanted: &[u32],
    known: Vec<u32>,
    conds: &[Cond],
) -> Result<Option<Name>, AllocError>
    ensures { IfOk result (λ unknown. unknown ≡ conditions_unknown kinds.now statement.now wanted.now known.items conds.now) }
{
    let none = [0u32; 0];
    let scope = scope_at(kinds, statement, none.as_slice(), false);
    conds_unknown(alloc, &scope, wanted, known, conds)
}

/// The name of the first unknown variable of an alternative that starts with these known variables and times.
fn alternative_unknown(
    alloc: Global,
    kinds: &Kinds,
    statement: &Statement,
    steps: &[u32],
    known: &[u32],
    items: &[Item],
) -> Result<Option<Name>, AllocError>
    ensures { IfOk result (λ unknown. unknown ≡ items_unknown (scope_at kinds.now statement.now (steps_after steps.now items.now) true) [] known.now items.now) }
{
    let mut steps = Vec::from_slice(alloc, steps)?;
    learn_steps(&mut steps, items)?;
    let known = Vec::from_slice(alloc, known)?;
    let scope = scope_at(kinds, statement, steps.as_slice(), true);
    let none = [0u32; 0];
    items_unknown(alloc, &scope, none.as_slice(), known, items)
}

fn alternatives_unknown(
    alloc: Global,
    kinds: &Kinds,
    statement: &Statement,
    steps: &[u32],
    known: &[u32],
    alternatives: &[Items<Item>],
) -> Result<Option<Name>, AllocError>
    ensures { IfOk result (λ unknown. unknown ≡ alternatives_unknown kinds.now statement.now steps.now known.now alternatives.now) }
{
    for items in alternatives {
        if let Some(name) = alternative_unknown(
            alloc,
            kinds,
            statement,
            steps,
            known,
            items.as_slice(),
        )? {
            return Ok(Some(name));
        }
    }
    Ok(None)
}

/// The name of the first unknown variable of the alternatives, which start with what the antecedent makes known.
fn consequent_unknown(
    alloc: Global,
    kinds: &Kinds,
    statement: &Statement,
    antecedent: &[Item],
    alternatives: &[Items<Item>],
) -> Result<Option<Name>, AllocError>
    ensures { IfOk result (λ unknown. unknown ≡ alternatives_unknown kinds.now statement.now (steps_after [] antecedent.now) (known_after [] antecedent.now) alternatives.now) }
{
    let mut steps = Vec::new(alloc);
    learn_steps(&mut steps, antecedent)?;
    let mut known = Vec::new(alloc);
    learn_items(&mut known, antecedent)?;
    alternatives_unknown(
        alloc,
        kinds,
        statement,
        steps.as_slice(),
        known.as_slice(),
        alternatives,
    )
}

fn rule_unknown(
    alloc: Global,
    kinds: &Kinds,
    statement: &Statement,
    antecedent: &[Item],
    alternatives: &[Items<Item>],
) -> Result<Option<Name>, AllocError>
    ensures { IfOk result (λ unknown. unknown ≡
        option_or (sequence_unknown kinds.now statement.now false [] [] antecedent.now)
        (alternatives_unknown kinds.now statement.now (steps_after [] antecedent.now) (known_after [] antecedent.now) alternatives.now)) }
{
    let unknown = open_sequence_unknown(alloc, kinds, statement, antecedent)?;
    match unknown {
        Some(name) => Ok(Some(name)),
        None => consequent_unknown(alloc, kinds, statement, antecedent, alternatives),
    }
}

fn law_unknown(
    alloc: Global,
    kinds: &Kinds,
    statement: &Statement,
    event: &Atom,
    fluent: &Atom,
    conds: &[Cond],
) -> Result<Option<Name>, AllocError>
    ensures { IfOk result (λ unknown. unknown ≡ conditions_unknown kinds.now statement.now (atom_vars fluent.now) (learnt [] (atom_vars event.now)) conds.now) }
{
    let wanted = vars_of(alloc, fluent)?;
    let known = event_known(alloc, event)?;
    conditions_unknown(alloc, kinds, statement, wanted.as_slice(), known, conds)
}

fn clause_unknown(
    alloc: Global,
    kinds: &Kinds,
    statement: &Statement,
    head: &Atom,
    conds: &[Cond],
) -> Result<Option<Name>, AllocError>
    ensures { IfOk result (λ unknown. unknown ≡ conditions_unknown kinds.now statement.now (atom_vars head.now) (head_known kinds.now head.now) conds.now) }
{
    let wanted = vars_of(alloc, head)?;
    let known = head_known(alloc, kinds, head)?;
    conditions_unknown(alloc, kinds, statement, wanted.as_slice(), known, conds)
}

fn macro_unknown(
    alloc: Global,
    kinds: &Kinds,
    statement: &Statement,
    head: &Atom,
    items: &[Item],
) -> Result<Option<Name>, AllocError>
    ensures { IfOk result (λ unknown. unknown ≡ sequence_unknown kinds.now statement.now true (atom_vars head.now) (head_known kinds.now head.now) items.now) }
{
    let wanted = vars_of(alloc, head)?;
    let known = head_known(alloc, kinds, head)?;
    sequence_unknown(
        alloc,
        kinds,
        statement,
        true,
        wanted.as_slice(),
        known,
        items,
    )
}

/// The name of the first unknown variable of a denial or an antecedent.
fn open_sequence_unknown(
    alloc: Global,
    kinds: &Kinds,
    statement: &Statement,
    items: &[Item],
) -> Result<Option<Name>, AllocError>
    ensures { IfOk result (λ unknown. unknown ≡ sequence_unknown kinds.now statement.now false [] [] items.now) }
{
    let none = [0u32; 0];
    let nothing = Vec::new(alloc);
    sequence_unknown(
        alloc,
        kinds,
        statement,
        false,
        none.as_slice(),
        nothing,
        items,
    )
}

/// The name of the first unknown variable of a statement.
pub fn unknown_in_statement(
    alloc: Global,
    kinds: &Kinds,
    statement: &Statement,
) -> Result<Option<Name>, AllocError>
    ensures { IfOk result (λ unknown. unknown ≡ body_unknown kinds.now statement.now statement.now.body) }
{
    match &statement.body {
        Body::Declare(_) => Ok(None),
        Body::Initially(_) => Ok(None),
        Body::Denial(items) => open_sequence_unknown(alloc, kinds, statement, items.as_slice()),
        Body::Rule {
            antecedent,
            alternatives,
        } => rule_unknown(
            alloc,
            kinds,
            statement,
            antecedent.as_slice(),
            alternatives.as_slice(),
        ),
        Body::Law {
            event,
            fluent,
            conds,
            ..
        } => law_unknown(alloc, kinds, statement, event, fluent, conds.as_slice()),
        Body::Clause { head, conds } => {
            clause_unknown(alloc, kinds, statement, head, conds.as_slice())
        }
        Body::MacroClause { head, items, .. } => {
            macro_unknown(alloc, kinds, statement, head, items.as_slice())
        }
    }
}
