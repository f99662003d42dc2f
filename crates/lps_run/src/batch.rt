//! Whether a batch is one that may come next.
ghost use Rattle.std.specs.Prelude.{◌≡◌};
ghost use Rattle.lps_run.specs.Judged.{batch_fault as batch_fault_of, event_fault as event_fault_of, events_fault as events_fault_of, fault_by as fault_by_of, number_fault as number_fault_of};

use lps_model::{Accepted, Batch};
use lps_terms::{Atom, BatchKind, Kind};

/// The fault of an event with so many arguments whose name is declared with this kind and this number of arguments.
fn fault_by(kind: Option<Kind>, arity: Option<u32>, count: usize) -> Option<BatchKind>
    ensures { result ≡ fault_by_of kind arity count }
{
    let Some(kind) = kind else {
        return Some(BatchKind::Undeclared);
    };
    let Some(arity) = arity else {
        return Some(BatchKind::Undeclared);
    };
    if arity as usize != count {
        return Some(BatchKind::WrongArity);
    }
    match kind {
        Kind::Event => None,
        _ => Some(BatchKind::NotExternal),
    }
}

fn event_fault(text: &Accepted, event: &Atom) -> Option<BatchKind>
    ensures { result ≡ event_fault_of text.now event.now }
{
    let kind = text.kind(&event.name);
    let arity = text.arity(&event.name);
    fault_by(kind, arity, event.args.len())
}

/// The fault of the first event that has one.
fn events_fault(text: &Accepted, events: &[Atom]) -> Option<BatchKind>
    ensures { result ≡ events_fault_of text.now events.now }
{
    for event in events {
        if let Some(fault) = event_fault(text, event) {
            return Some(fault);
        }
    }
    None
}

fn number_fault(expected: u64, got: u64) -> Option<BatchKind>
    ensures { result ≡ number_fault_of expected got }
{
    if got == expected {
        None
    } else {
        Some(BatchKind::Gap { expected, got })
    }
}

/// Why a batch is none of this cycle: an event that is not declared, has another number of arguments or is no event of the
/// outside, the first such; or else another number than the cycle's.
pub fn batch_fault(text: &Accepted, expected: u64, batch: &Batch) -> Option<BatchKind>
    ensures { result ≡ batch_fault_of text.now expected batch.now }
{
    match events_fault(text, batch.events.as_slice()) {
        Some(fault) => Some(fault),
        None => number_fault(expected, batch.number),
    }
}
