ghost use Rattle.std.specs.Prelude.{◌≡◌, IfOk, option_copied};
ghost use Rattle.lps_model.specs.Declarations.{decl_among};
ghost use Rattle.lps_model.specs.KindRefusals.{is_undeclared as is_undeclared_of, is_wrong_arity as is_wrong_arity_of, is_wrong_kind as is_wrong_kind_of, may_stand as may_stand_of};
ghost use Rattle.lps_kinds.specs.Faults.{is_fault, first_refusal as first_refusal_of, refusal_of};

use lps_model::{Kinds, Occurrence, Place};
use lps_terms::{Decl, Kind, Refused};
use std::alloc::{AllocError, Global};

/// What can be wrong with the name of a predicate where it stands.
#[derive(Clone, Copy, Debug, PartialEq, Eq)]
pub enum Fault {
    Undeclared,
    WrongArity,
    WrongKind,
}

/// The refusal of the first occurrence that has the fault.
pub fn first_refusal(
    alloc: Global,
    fault: Fault,
    kinds: &Kinds,
    occurrences: &[Occurrence],
) -> Result<Option<Refused>, AllocError>
    ensures { IfOk result (λ found. found ≡ first_refusal_of fault kinds.now occurrences.now) }
{
    for occurrence in occurrences {
        if has_fault(fault, kinds, occurrence) {
            return Ok(Some(refusal(alloc, fault, occurrence)?));
        }
    }
    Ok(None)
}

fn has_fault(fault: Fault, kinds: &Kinds, occurrence: &Occurrence) -> bool
    ensures { result ≡ is_fault fault occurrence.now (decl_among kinds.now occurrence.now.name) }
{
    let declared = kinds.decl(&occurrence.name);
    match fault {
        Fault::Undeclared => is_undeclared(declared),
        Fault::WrongArity => is_wrong_arity(occurrence.count, declared),
        Fault::WrongKind => is_wrong_kind(occurrence.place, declared),
    }
}

fn is_undeclared(declared: Option<&Decl>) -> bool
    ensures { result ≡ is_undeclared_of (option_copied declared.entry) }
{
    match declared {
        None => true,
        Some(_) => false,
    }
}

fn is_wrong_arity(count: usize, declared: Option<&Decl>) -> bool
    ensures { result ≡ is_wrong_arity_of count (option_copied declared.entry) }
{
    match declared {
        None => false,
        Some(decl) => count != decl.arity as usize,
    }
}

fn is_wrong_kind(place: Place, declared: Option<&Decl>) -> bool
    ensures { result ≡ is_wrong_kind_of place (option_copied declared.entry) }
{
    match declared {
        None => false,
        Some(decl) => !may_stand(place, decl.kind),
    }
}

/// The refusal of an occurrence that has the fault.
fn refusal(alloc: Global, fault: Fault, occurrence: &Occurrence) -> Result<Refused, AllocError>
    ensures { IfOk result (λ refused. refused ≡ refusal_of fault occurrence.now.line occurrence.now.name) }
{
    let line = occurrence.line;
    let name = occurrence.name.copy(alloc)?;
    match fault {
        Fault::Undeclared => Ok(Refused::Undeclared { line, name }),
        Fault::WrongArity => Ok(Refused::WrongArity { line, name }),
        Fault::WrongKind => Ok(Refused::WrongKind { line, name }),
    }
}

/// Whether a predicate of this kind may stand at this place.
pub fn may_stand(place: Place, kind: Kind) -> bool
    ensures { result ≡ may_stand_of place kind }
{
    match place {
        Place::Initial | Place::Effect => matches!(kind, Kind::Fluent),
        Place::Trigger | Place::Seen => matches!(kind, Kind::Event | Kind::Action),
        Place::Done => matches!(kind, Kind::Event | Kind::Action | Kind::Macro),
        Place::AtTime => matches!(kind, Kind::Fluent | Kind::Derived),
        Place::Untimed | Place::TimelessCondition => matches!(kind, Kind::Timeless),
        Place::Condition => matches!(kind, Kind::Fluent | Kind::Derived | Kind::Timeless),
        Place::Head => matches!(kind, Kind::Derived | Kind::Timeless),
        Place::MacroHead => matches!(kind, Kind::Macro),
    }
}
