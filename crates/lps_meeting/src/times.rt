//! The times of an item that is met at a time.
ghost use Rattle.std.specs.Prelude.{◌≡◌, ◌↔◌, ◌<◌, ◌≤◌, ℕ, IfOk, IsTrue, MatchOption, length};
ghost use Rattle.lps_meaning.specs.declared.when.When.{When as Moment};
ghost use Rattle.lps_meaning.specs.declared.when.When.TheVariants.{Known};
ghost use Rattle.lps_nodes.specs.Shapes.{put_when};
ghost use Rattle.lps_residual.specs.Moments.{IsTimeOf};
ghost use Rattle.lps_windows.specs.Windows.{IsTime};
ghost use Rattle.lps_meeting.specs.Steps.{AreBy, AreUnknown, AreOfCycle, AreTimesWhenMet, IsAtTime, IsDue, IsSetTo, is_due, joins_at};

use crate::stage::Stage;
use lps_meaning::{LeftItem, When};
use std::alloc::{AllocError, Global};

/// What each of the unknown times is once the item is met at this time; none where it cannot be met then.
///
/// An event or an action that goes on with a group has the times of that group. Any other begins after the last step, so that it
/// is met in this cycle only where no step was made in it.
pub fn times_when_met(
    alloc: Global,
    unknowns: u32,
    stage: &Stage,
    item: &LeftItem,
    time: u64,
) -> Result<Option<Vec<When>>, AllocError>
    requires { IsTimeOf unknowns item.now }
    ensures { IfOk result (λ found. MatchOption found ((w : ℕ → Moment) → IsDue stage.now time item.now → IsAtTime w time item.now → ⊥) (λ whens. IsDue stage.now time item.now × AreTimesWhenMet unknowns time item.now whens.items)) }
{
    let mut whens = unknown_times(alloc, unknowns)?;
    if is_due(stage, item, time) && set_times(&mut whens, item, time) {
        Ok(Some(whens))
    } else {
        Ok(None)
    }
}

/// Whether the item may be met at this time after what was met before.
fn is_due(stage: &Stage, item: &LeftItem, time: u64) -> bool
    ensures { IsTrue result ↔ IsDue stage.now time item.now }
{
    match item {
        LeftItem::At(_, _) => true,
        LeftItem::Bare(_) => true,
        LeftItem::Built(_) => true,
        LeftItem::Span(_, from, to) => may_happen(stage, *from, *to, time),
    }
}

/// Sets the times of an item that is met at this time. False where one of them is another already.
fn set_times(whens: &mut Vec<When>, item: &LeftItem, time: u64) -> bool
    requires { IsTimeOf (length whens.old.items) item.now }
    ensures set { IsSetTo result whens.old.items whens.new.items (λ w. IsAtTime w time item.now) }
    ensures early { AreBy time whens.old.items → AreBy time whens.new.items }
{
    match item {
        LeftItem::At(_, at) => set(whens, *at, time),
        LeftItem::Bare(_) => true,
        LeftItem::Built(_) => true,
        LeftItem::Span(_, from, to) => set_span(whens, *from, *to, time),
    }
}

/// Each unknown time as itself.
#[tactic(auto, using(crate::proofs::SettingTimes::more_unknown))]
fn unknown_times(alloc: Global, unknowns: u32) -> Result<Vec<When>, AllocError>
    ensures { IfOk result (λ whens. AreUnknown unknowns whens.items) }
{
    let mut whens = Vec::new(alloc);
    for number in 0..unknowns {
        whens.push(When::Unknown(number))?;
    }
    Ok(whens)
}

/// Whether an event or an action from one time to another may be met at this time after what was met before.
fn may_happen(stage: &Stage, from: When, to: When, time: u64) -> bool
    ensures { result ≡ is_due stage.now from to time }
{
    stage.before < time || joins(stage, from, to, time)
}

/// Whether it goes on with the group of what was met last.
pub fn joins(stage: &Stage, from: When, to: When, time: u64) -> bool
    ensures { result ≡ joins_at stage.now from to time }
{
    match time.checked_sub(1) {
        None => false,
        Some(before) => { stage.joins && from == When::Known(before) && to == When::Known(time) }
    }
}

/// Sets the two times of an event or an action of the cycle that ends at this time.
fn set_span(whens: &mut Vec<When>, from: When, to: When, time: u64) -> bool
    requires from { IsTime (length whens.old.items) from }
    requires to { IsTime (length whens.old.items) to }
    ensures set { IsSetTo result whens.old.items whens.new.items (λ w. AreOfCycle time (put_when w from) (put_when w to)) }
    ensures early { (latest : ℕ) → time ≤ latest → AreBy latest whens.old.items → AreBy latest whens.new.items }
{
    match time.checked_sub(1) {
        None => false,
        Some(before) => set(whens, from, before) && set(whens, to, time),
    }
}

/// Sets a time to this one. False where it is another already.
fn set(whens: &mut Vec<When>, when: When, time: u64) -> bool
    requires { IsTime (length whens.old.items) when }
    ensures set { IsSetTo result whens.old.items whens.new.items (λ w. put_when w when ≡ Known time) }
    ensures early { (latest : ℕ) → time ≤ latest → AreBy latest whens.old.items → AreBy latest whens.new.items }
{
    match when {
        When::Known(known) => known == time,
        When::Unknown(number) => set_unknown(whens, number, time),
    }
}

fn set_unknown(whens: &mut Vec<When>, number: u32, time: u64) -> bool
    requires { number < length whens.old.items }
    ensures set { IsSetTo result whens.old.items whens.new.items (λ w. w number ≡ Known time) }
    ensures early { (latest : ℕ) → time ≤ latest → AreBy latest whens.old.items → AreBy latest whens.new.items }
{
    let place = number as usize;
    match whens[place] {
        When::Known(known) => known == time,
        When::Unknown(_) => {
            whens[place] = When::Known(time);
            true
        }
    }
}
