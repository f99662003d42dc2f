ghost use Rattle.std.specs.Prelude.{◌≡◌, ◌++◌, is_ok, if◌then◌else◌, OnOk, take, length};
ghost use Rattle.lps_unify.specs.Slots.{free_slots};

use std::alloc::AllocError;

/// Adds slots of variables that are not bound, or none where memory runs out.
pub(crate) fn add_free(slots: &mut Vec<Option<usize>>, more: u32) -> Result<(), AllocError>
    ensures { slots.new.items ≡ (if is_ok result then slots.old.items ++ free_slots more else slots.old.items) }
{
    let before = slots.len();
    let done = push_free(slots, more);
    if done.is_err() {
        slots.truncate(before);
    }
    done
}

/// Adds slots, or a part of them where memory runs out.
fn push_free(slots: &mut Vec<Option<usize>>, more: u32) -> Result<(), AllocError>
    ensures all { OnOk result (slots.new.items ≡ slots.old.items ++ free_slots more) }
    ensures kept { take (length slots.old.items) slots.new.items ≡ slots.old.items }
{
    for _i in 0..more {
        slots.push(None)?;
    }
    Ok(())
}
