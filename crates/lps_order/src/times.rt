ghost use Rattle.std.specs.Prelude.{◌≡◌, ◌==◌, [], IfOk, OnOk};
ghost use Rattle.std.specs.List.{list_any};
ghost use Rattle.lps_model.specs.Order.{occurs};
ghost use Rattle.lps_order.specs.Walking.{noted, noted_in, noted_of};

use lps_terms::Item;
use std::alloc::{AllocError, Global};

/// Whether a time is one of these.
pub(crate) fn occurs(time: u32, times: &[u32]) -> bool
    ensures { result ≡ occurs time times.now }
{
    times.iter().any(|t| *t == time)
}

/// Adds a time, where it is not yet there. A statement that was read has at most 255 different ones.
pub(crate) fn note(times: &mut Vec<u32>, time: u32) -> Result<(), AllocError>
    ensures { OnOk result (times.new.items ≡ noted times.old.items time) }
{
    if !occurs(time, times.as_slice()) {
        times.push(time)?;
    }
    Ok(())
}

/// The times of items, each once: those of steps and those of constraints.
pub(crate) fn times_in(alloc: Global, items: &[Item]) -> Result<Vec<u32>, AllocError>
    ensures { IfOk result (λ times. times.items ≡ noted_in [] items.now) }
{
    let mut times = Vec::new(alloc);
    for item in items {
        note_times(&mut times, item)?;
    }
    Ok(times)
}

fn note_times(times: &mut Vec<u32>, item: &Item) -> Result<(), AllocError>
    ensures { OnOk result (times.new.items ≡ noted_of times.old.items item.now) }
{
    match item {
        Item::At(_, time) => note(times, time.0),
        Item::Span(_, from, to) => {
            note(times, from.0)?;
            note(times, to.0)
        }
        Item::Con(con) => {
            note(times, con.left.0)?;
            note(times, con.right.0)
        }
        _ => Ok(()),
    }
}
