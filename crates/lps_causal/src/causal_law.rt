ghost use Rattle.std.specs.Prelude.{◌≡◌, ◌<◌, IfOk};
ghost use Rattle.std.specs.List.{AllByRecursion, flat_map};
ghost use Rattle.lps_model.specs.VariableLists.{atom_vars, cond_vars};
ghost use Rattle.lps_causal.specs.Laws.{IsCounted, law_of, positive};

use lps_solve::above_conds;
use lps_terms::{Atom, Cond, Lit, copy_atom, copy_conds};
use sqlite_items::Items;
use std::alloc::{AllocError, Global};

/// A causal law: its event initiates or terminates its fluent where its conditions are true. Each of its variables has a number
/// below `variables`.
#[derive(Drop)]
pub(crate) struct CausalLaw {
    pub(crate) initiates: bool,
    pub(crate) event: Atom,
    pub(crate) fluent: Atom,
    pub(crate) conds: Items<Cond>,
    pub(crate) variables: u32,
}

/// A copy of a law. An error comes where memory runs out or no number is left for a variable.
pub(crate) fn copy_law(
    alloc: Global,
    initiates: bool,
    event: &Atom,
    fluent: &Atom,
    conds: &[Cond],
) -> Result<CausalLaw, AllocError>
    ensures law { IfOk result (λ entry. law_of entry ≡ record { initiates = initiates; event = event.now; fluent = fluent.now; conds = conds.now }) }
    ensures counted { IfOk result (λ entry. IsCounted entry) }
{
    let variables = variables_of(alloc, event, fluent, conds)?;
    let event = copy_atom(alloc, event)?;
    let fluent = copy_atom(alloc, fluent)?;
    let conds = copy_conds(alloc, conds)?;
    Ok(CausalLaw {
        initiates,
        event,
        fluent,
        conds,
        variables,
    })
}

/// A number above those of the variables of two atoms and of conditions, where it is in range.
fn variables_of(
    alloc: Global,
    event: &Atom,
    fluent: &Atom,
    conds: &[Cond],
) -> Result<u32, AllocError>
    ensures event { IfOk result (λ above. AllByRecursion (λ v. v < above) (atom_vars event.now)) }
    ensures fluent { IfOk result (λ above. AllByRecursion (λ v. v < above) (atom_vars fluent.now)) }
    ensures conds { IfOk result (λ above. AllByRecursion (λ v. v < above) (flat_map cond_vars conds.now)) }
{
    let of_event = above_atom(alloc, event)?;
    let of_fluent = above_atom(alloc, fluent)?;
    in_range(of_event.max(of_fluent).max(above_conds(conds)))
}

/// A number above those of the variables of an atom.
fn above_atom(alloc: Global, atom: &Atom) -> Result<u64, AllocError>
    ensures { IfOk result (λ above. AllByRecursion (λ v. v < above) (atom_vars atom.now)) }
{
    let atom = copy_atom(alloc, atom)?;
    let alone = vec![in alloc; as_cond(atom)]?;
    Ok(above_conds(alone.as_slice()))
}

fn as_cond(atom: Atom) -> Cond
    ensures { result ≡ positive atom }
{
    Cond::Lit(Lit {
        negated: false,
        atom,
    })
}

fn in_range(above: u64) -> Result<u32, AllocError>
    ensures { IfOk result (λ number. number ≡ above) }
{
    if above < 4294967296 {
        Ok(above as u32)
    } else {
        Err(AllocError)
    }
}
