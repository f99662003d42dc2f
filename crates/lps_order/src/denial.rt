ghost use Rattle.std.specs.Prelude.{◌≡◌, false};
ghost use Rattle.lps_model.specs.Order.{is_denial_ordered, may_all_stand, may_stand_between, span_in, stands_at};

use lps_terms::Item;

/// Whether the items of a denial are in order. A denial without events has no times that they could break.
pub(crate) fn is_denial_ordered(items: &[Item]) -> bool
    ensures { result ≡ is_denial_ordered items.now }
{
    match span_in(items) {
        Some((first, second)) => first != second && may_all_stand(first, second, items),
        None => true,
    }
}

/// The two times of the first event.
fn span_in(items: &[Item]) -> Option<(u32, u32)>
    ensures { result ≡ span_in items.now }
{
    for item in items {
        if let Item::Span(_, from, to) = item {
            return Some((from.0, to.0));
        }
    }
    None
}

fn may_all_stand(first: u32, second: u32, items: &[Item]) -> bool
    ensures { result ≡ may_all_stand first second false items.now }
{
    let mut late = false;
    for item in items {
        if !may_stand_between(first, second, late, item) {
            return false;
        }
        late = late || stands_at(second, item);
    }
    true
}

/// Whether an item may stand there, `late` where one at the second time has stood before it.
fn may_stand_between(first: u32, second: u32, late: bool, item: &Item) -> bool
    ensures { result ≡ may_stand_between first second late item.now }
{
    match item {
        Item::At(_, time) => (time.0 == first && !late) || time.0 == second,
        Item::Span(_, from, to) => from.0 == first && to.0 == second && !late,
        _ => true,
    }
}

fn stands_at(second: u32, item: &Item) -> bool
    ensures { result ≡ stands_at second item.now }
{
    match item {
        Item::At(_, time) => time.0 == second,
        _ => false,
    }
}
