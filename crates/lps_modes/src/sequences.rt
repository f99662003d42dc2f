ghost use Rattle.std.specs.Prelude.{◌≡◌, ◌∷◌, [], IfOk, OnOk};
ghost use Rattle.lps_model.specs.Known.{conds_unknown, item_unknown, items_unknown, known_after, learnt, steps_after, unknown_among, cond_needs};
ghost use Rattle.lps_model.specs.VariableLists.{cond_vars, item_vars, step_times};
ghost use Rattle.lps_modes.specs.Scopes.{scope_of};

use crate::known::{learn, unknown_among};
use crate::needs::{append_cond_needs, append_item_needs};
use crate::scope::Scope;
use crate::variables::{append_cond, append_item, append_step_times};
use lps_terms::{Con, Cond, Item, Name};
use std::alloc::{AllocError, Global};

/// Adds the variables of an item to the known ones.
fn learn_item(known: &mut Vec<u32>, item: &Item) -> Result<(), AllocError>
    ensures { OnOk result (known.new.items ≡ learnt known.old.items (item_vars item.now)) }
{
    let mut variables = Vec::new(*known.allocator());
    append_item(item, &mut variables)?;
    learn(known, variables.as_slice())
}

/// Adds the variables of a condition to the known ones.
fn learn_cond(known: &mut Vec<u32>, cond: &Cond) -> Result<(), AllocError>
    ensures { OnOk result (known.new.items ≡ learnt known.old.items (cond_vars cond.now)) }
{
    let mut variables = Vec::new(*known.allocator());
    append_cond(cond, &mut variables)?;
    learn(known, variables.as_slice())
}

/// Adds the times of an item that is a step to these times.
fn learn_step(steps: &mut Vec<u32>, item: &Item) -> Result<(), AllocError>
    ensures { OnOk result (steps.new.items ≡ learnt steps.old.items (step_times item.now)) }
{
    let mut times = Vec::new(*steps.allocator());
    append_step_times(item, &mut times)?;
    learn(steps, times.as_slice())
}

/// Adds the variables of items to the known ones.
pub fn learn_items(known: &mut Vec<u32>, items: &[Item]) -> Result<(), AllocError>
    ensures { OnOk result (known.new.items ≡ known_after known.old.items items.now) }
{
    for item in items {
        learn_item(known, item)?;
    }
    Ok(())
}

/// Adds the times of the steps of items to these times.
pub fn learn_steps(steps: &mut Vec<u32>, items: &[Item]) -> Result<(), AllocError>
    ensures { OnOk result (steps.new.items ≡ steps_after steps.old.items items.now) }
{
    for item in items {
        learn_step(steps, item)?;
    }
    Ok(())
}

fn con_unknown(alloc: Global, scope: &Scope, con: &Con) -> Result<Option<Name>, AllocError>
    ensures { IfOk result (λ unknown. unknown ≡ unknown_among scope.now.times.now scope.now.steps.now (con.now.left.0 ∷ con.now.right.0 ∷ [])) }
{
    let times = [con.left.0, con.right.0];
    unknown_among(alloc, scope.times, scope.steps, times.as_slice())
}

fn item_unknown(
    alloc: Global,
    scope: &Scope,
    known: &[u32],
    item: &Item,
) -> Result<Option<Name>, AllocError>
    ensures { IfOk result (λ unknown. unknown ≡ item_unknown (scope_of scope.now) known.now item.now) }
{
    if let Item::Con(con) = item {
        return con_unknown(alloc, scope, con);
    }
    let mut needs = Vec::new(alloc);
    append_item_needs(scope, known, item, &mut needs)?;
    unknown_among(alloc, scope.names, known, needs.as_slice())
}

fn cond_unknown(
    alloc: Global,
    scope: &Scope,
    known: &[u32],
    cond: &Cond,
) -> Result<Option<Name>, AllocError>
    ensures { IfOk result (λ unknown. unknown ≡ unknown_among scope.now.names.now known.now (cond_needs (scope_of scope.now) known.now cond.now)) }
{
    let mut needs = Vec::new(alloc);
    append_cond_needs(scope, known, cond, &mut needs)?;
    unknown_among(alloc, scope.names, known, needs.as_slice())
}

/// The name of the first unknown variable of the items, or else of those that have to be known at the end.
pub fn items_unknown(
    alloc: Global,
    scope: &Scope,
    wanted: &[u32],
    mut known: Vec<u32>,
    items: &[Item],
) -> Result<Option<Name>, AllocError>
    ensures { IfOk result (λ unknown. unknown ≡ items_unknown (scope_of scope.now) wanted.now known.items items.now) }
{
    for item in items {
        if let Some(name) = item_unknown(alloc, scope, known.as_slice(), item)? {
            return Ok(Some(name));
        }
        learn_item(&mut known, item)?;
    }
    unknown_among(alloc, scope.names, known.as_slice(), wanted)
}

/// The name of the first unknown variable of the conditions, or else of those that have to be known at the end.
pub fn conds_unknown(
    alloc: Global,
    scope: &Scope,
    wanted: &[u32],
    mut known: Vec<u32>,
    conds: &[Cond],
) -> Result<Option<Name>, AllocError>
    ensures { IfOk result (λ unknown. unknown ≡ conds_unknown (scope_of scope.now) wanted.now known.items conds.now) }
{
    for cond in conds {
        if let Some(name) = cond_unknown(alloc, scope, known.as_slice(), cond)? {
            return Ok(Some(name));
        }
        learn_cond(&mut known, cond)?;
    }
    unknown_among(alloc, scope.names, known.as_slice(), wanted)
}
