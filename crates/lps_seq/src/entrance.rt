//! What is left of a sequence where it is entered.
ghost use Rattle.std.specs.Prelude.{◌≡◌, ◌<◌, ◌++◌, ℕ, IfOk, Some, OnOk, length, map};
ghost use Rattle.std.specs.Prelude.{List};
ghost use Rattle.std.specs.List.{AllByRecursion, flat_map};
ghost use Rattle.lps_terms.specs.declared.item.Item.{Item as TextItem};
ghost use Rattle.lps_terms.specs.declared.term.Term.TheVariants.{Var};
ghost use Rattle.lps_meaning.specs.declared.when.When.TheVariants.{Unknown};
ghost use Rattle.lps_meaning.specs.Goals.{shared_times, shared_values};
ghost use Rattle.lps_model.specs.Rules.{numbered};
ghost use Rattle.lps_nodes.specs.Plans.{Entrance, alternative_entrance, antecedent_entrance};
ghost use Rattle.lps_residual.specs.Putting.{value_at, when_at};
ghost use Rattle.lps_seq.specs.Starts.{IsEntered, IsGiven, con_whole_of, entered_node, given_when, given_value, left_whole, left_whole_of, lefts_of, rule_of};

use crate::rule::{Rule, rule_at, shared_times, shared_values};
use crate::start::Start;
use lps_meaning::{Carry, GoalKey, Left, LeftCon, LeftItem, Node, When};
use lps_residual::{Terms, Times, place_of, put_node};
use lps_terms::{Item, Term, Text, TimeVar, copy_atom, copy_built, copy_lit, copy_term};
use sqlite_items::Items;
use std::alloc::{AllocError, Global};

/// What is left of a sequence where it is entered, with what its start gives put in; none where the text has no such
/// sequence.
pub(crate) fn entrance(
    alloc: Global,
    text: &Text,
    start: &Start,
) -> Result<Option<Node>, AllocError>
    requires { (e : Entrance) × IsEntered text.now start.now e × IsGiven e }
    ensures { IfOk result (λ found. (e : Entrance) → IsEntered text.now start.now e → found ≡ Some (entered_node e)) }
{
    match start {
        Start::Antecedent { rule } => match rule_at(text, *rule) {
            Some(rule) => Ok(Some(antecedent(alloc, rule)?)),
            None => Ok(None),
        },
        Start::Alternative { key, alternative } => match rule_at(text, key.rule) {
            Some(rule) => alternative_of(alloc, rule, key, *alternative),
            None => Ok(None),
        },
    }
}

/// An antecedent carries what it shares.
fn antecedent(alloc: Global, rule: Rule<'_>) -> Result<Node, AllocError>
    ensures { IfOk result (λ node. node ≡ entered_node (antecedent_entrance (rule_of rule.entry))) }
{
    let values = variables(alloc, shared_values(alloc, rule)?.as_slice())?;
    let times = unknowns(alloc, shared_times(alloc, rule)?.as_slice())?;
    let mut node = whole(alloc, rule.antecedent)?;
    node.carry = Carry { values, times };
    Ok(node)
}

fn alternative_of(
    alloc: Global,
    rule: Rule<'_>,
    key: &GoalKey,
    number: u32,
) -> Result<Option<Node>, AllocError>
    requires values { length key.now.values ≡ length (shared_values (rule_of rule)) }
    requires times { length key.now.times ≡ length (shared_times (rule_of rule)) }
    ensures { IfOk result (λ found. (items : List TextItem) → numbered (rule_of rule.entry).alternatives number ≡ Some items → found ≡ Some (entered_node (alternative_entrance (rule_of rule.entry) key.now number items))) }
{
    match number.checked_sub(1) {
        None => Ok(None),
        Some(place) => match rule.alternatives.get(place as usize) {
            None => Ok(None),
            Some(items) => Ok(Some(alternative(alloc, rule, key, number, items.as_slice())?)),
        },
    }
}

/// An alternative is given what its antecedent shares, by the key of its goal.
fn alternative(
    alloc: Global,
    rule: Rule<'_>,
    key: &GoalKey,
    number: u32,
    items: &[Item],
) -> Result<Node, AllocError>
    requires values { length key.now.values ≡ length (shared_values (rule_of rule)) }
    requires times { length key.now.times ≡ length (shared_times (rule_of rule)) }
    ensures { IfOk result (λ node. node ≡ entered_node (alternative_entrance (rule_of rule.entry) key.now number items.now)) }
{
    let values = shared_values(alloc, rule)?;
    let values = given_terms(alloc, values.as_slice(), key.values.as_slice())?;
    let times = shared_times(alloc, rule)?;
    let times = given_times(alloc, times.as_slice(), key.times.as_slice())?;
    let whole = whole(alloc, items)?;
    let terms = Terms::Given(values.as_slice());
    let mut node = put_node(alloc, terms, Times::Given(times.as_slice()), &whole)?;
    node.alternative = number;
    Ok(node)
}

/// A term for each variable up to the greatest of these: its value where it is one of these, or else the variable.
fn given_terms(alloc: Global, shared: &[u32], values: &[Term]) -> Result<Vec<Term>, AllocError>
    requires { length values.now ≡ length shared.now }
    ensures { IfOk result (λ terms. (v : ℕ) → value_at terms.items v ≡ given_value shared.now values.now v) }
{
    let mut terms = Vec::new(alloc);
    for variable in 0..above(shared)? {
        match values.get(place_of(shared, variable)) {
            Some(value) => terms.push(copy_term(alloc, value)?)?,
            None => terms.push(Term::Var(variable))?,
        }
    }
    Ok(terms)
}

/// The same of times.
fn given_times(alloc: Global, shared: &[u32], times: &[u64]) -> Result<Vec<When>, AllocError>
    requires { length times.now ≡ length shared.now }
    ensures { IfOk result (λ whens. (k : ℕ) → when_at whens.items k ≡ given_when shared.now times.now k) }
{
    let mut whens = Vec::new(alloc);
    for number in 0..above(shared)? {
        match times.get(place_of(shared, number)) {
            Some(time) => whens.push(When::Known(*time))?,
            None => whens.push(When::Unknown(number))?,
        }
    }
    Ok(whens)
}

/// A number above these. An error comes where there is none.
fn above(numbers: &[u32]) -> Result<u32, AllocError>
    ensures { IfOk result (λ above. AllByRecursion (λ number. number < above) numbers.now) }
{
    let mut above = 0u32;
    for number in numbers {
        above = above.max(next(*number)?);
    }
    Ok(above)
}

fn next(number: u32) -> Result<u32, AllocError>
    ensures { IfOk result (λ next. number < next) }
{
    match number.checked_add(1) {
        Some(next) => Ok(next),
        None => Err(AllocError),
    }
}

fn variables(alloc: Global, numbers: &[u32]) -> Result<Items<Term>, AllocError>
    ensures { IfOk result (λ terms. terms ≡ map (λ v. Var v) numbers.now) }
{
    let mut terms = Vec::new(alloc);
    for number in numbers {
        terms.push(Term::Var(*number))?;
    }
    Ok(Items::from_vec(terms))
}

fn unknowns(alloc: Global, numbers: &[u32]) -> Result<Items<When>, AllocError>
    ensures { IfOk result (λ whens. whens ≡ map (λ k. Unknown k) numbers.now) }
{
    let mut whens = Vec::new(alloc);
    for number in numbers {
        whens.push(When::Unknown(*number))?;
    }
    Ok(Items::from_vec(whens))
}

/// Items of a text with nothing put in.
fn whole(alloc: Global, items: &[Item]) -> Result<Node, AllocError>
    ensures { IfOk result (λ node. node ≡ left_whole items.now) }
{
    let rest = left_of_items(alloc, items)?;
    let limits = cons_of_items(alloc, items)?;
    Ok(Node {
        alternative: 0,
        rank: Items::new(alloc),
        done: 0,
        carry: Carry {
            values: Items::new(alloc),
            times: Items::new(alloc),
        },
        rest: Items::from_vec(rest),
        limits: Items::from_vec(limits),
    })
}

fn left_of_items(alloc: Global, items: &[Item]) -> Result<Vec<Left>, AllocError>
    ensures { IfOk result (λ rest. rest.items ≡ flat_map left_whole_of items.now) }
{
    let mut rest = Vec::new(alloc);
    for item in items {
        add_left(alloc, item, &mut rest)?;
    }
    Ok(rest)
}

fn add_left(alloc: Global, item: &Item, rest: &mut Vec<Left>) -> Result<(), AllocError>
    ensures { OnOk result (rest.new.items ≡ rest.old.items ++ left_whole_of item.now) }
{
    if let Some(item) = left_item(alloc, item)? {
        rest.push(Left { item, nest: 0 })?;
    }
    Ok(())
}

#[tactic(auto, using(crate::proofs::Whole::whole_at, crate::proofs::Whole::whole_bare, crate::proofs::Whole::whole_built, crate::proofs::Whole::whole_span))]
fn left_item(alloc: Global, item: &Item) -> Result<Option<LeftItem>, AllocError>
    ensures { IfOk result (λ found. lefts_of found ≡ left_whole_of item.now) }
{
    match item {
        Item::At(lit, time) => Ok(Some(LeftItem::At(copy_lit(alloc, lit)?, unknown(*time)))),
        Item::Bare(lit) => Ok(Some(LeftItem::Bare(copy_lit(alloc, lit)?))),
        Item::Built(built) => Ok(Some(LeftItem::Built(copy_built(alloc, built)?))),
        Item::Span(atom, from, to) => Ok(Some(LeftItem::Span(
            copy_atom(alloc, atom)?,
            unknown(*from),
            unknown(*to),
        ))),
        Item::Con(_) => Ok(None),
    }
}

fn cons_of_items(alloc: Global, items: &[Item]) -> Result<Vec<LeftCon>, AllocError>
    ensures { IfOk result (λ limits. limits.items ≡ flat_map con_whole_of items.now) }
{
    let mut limits = Vec::new(alloc);
    for item in items {
        add_con(item, &mut limits)?;
    }
    Ok(limits)
}

fn add_con(item: &Item, limits: &mut Vec<LeftCon>) -> Result<(), AllocError>
    ensures { OnOk result (limits.new.items ≡ limits.old.items ++ con_whole_of item.now) }
{
    if let Item::Con(con) = item {
        limits.push(LeftCon {
            left: unknown(con.left),
            rel: con.rel,
            right: unknown(con.right),
            plus: con.plus,
        })?;
    }
    Ok(())
}

fn unknown(time: TimeVar) -> When
    ensures { result ≡ Unknown time.0 }
{
    When::Unknown(time.0)
}
