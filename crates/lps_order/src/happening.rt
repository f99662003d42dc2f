ghost use Rattle.std.specs.Prelude.{◌≡◌};
ghost use Rattle.lps_model.specs.Declarations.{kind_among};
ghost use Rattle.lps_order.specs.Walking.{are_joined, are_mixed, happening_of, happening_with};

use lps_model::Kinds;
use lps_terms::{Item, Kind};

/// An event or an action of a sequence: its two times, and which of both it is.
#[derive(Clone, Copy)]
pub(crate) struct Happening {
    pub begin: u32,
    pub end: u32,
    pub is_event: bool,
}

/// The event or action that an item is.
pub(crate) fn happening_in(item: &Item, kinds: &Kinds) -> Option<Happening>
    ensures { result ≡ happening_of (kind_among kinds.now) item.now }
{
    match item {
        Item::Span(atom, from, to) => happening_with(kinds.kind(&atom.name), from.0, to.0),
        _ => None,
    }
}

fn happening_with(kind: Option<Kind>, begin: u32, end: u32) -> Option<Happening>
    ensures { result ≡ happening_with kind begin end }
{
    match kind {
        Some(Kind::Event) => Some(Happening {
            begin,
            end,
            is_event: true,
        }),
        Some(Kind::Action) => Some(Happening {
            begin,
            end,
            is_event: false,
        }),
        _ => None,
    }
}

/// Whether two that stand next to each other are of one group.
pub(crate) fn are_joined(before: Option<Happening>, now: Option<Happening>) -> bool
    ensures { result ≡ are_joined before now }
{
    match (before, now) {
        (Some(before), Some(now)) => before.begin == now.begin && before.end == now.end,
        _ => false,
    }
}

/// Whether two that stand next to each other are an event and an action of one group.
pub(crate) fn are_mixed(before: Option<Happening>, now: Option<Happening>) -> bool
    ensures { result ≡ are_mixed before now }
{
    match (before, now) {
        (Some(before), Some(now)) => {
            before.is_event != now.is_event && before.begin == now.begin && before.end == now.end
        }
        _ => false,
    }
}
