//! Picks of the plain chooser, and picks that are given, on a board.
use crate::board::Board;
use lps_choice::{Chooser, Plain, check_picks};
use lps_model::{Group, Pick};
use lps_terms::Prefer;
use lps_tests_written::{atoms_of, shown};
use sqlite_items::Items;
use std::alloc::{AllocError, Global};
use std::process::Abort;
use std::test::Fail;

/// The proposals of goals 1 and 2, and how many events are forbidden.
type Setting = (&'static [&'static str], &'static [&'static str], usize);

fn groups(alloc: Global, lists: &[&str]) -> Result<Items<Group>, Fail> {
    let mut groups = Vec::new(alloc);
    for list in lists {
        groups.push(Group {
            atoms: atoms_of(alloc, list)?,
        })?;
    }
    Ok(Items::from_vec(groups))
}

fn board(alloc: Global, setting: Setting) -> Result<Board, Fail> {
    let (first, second, forbidden) = setting;
    let first = groups(alloc, first)?;
    let second = groups(alloc, second)?;
    Ok(Board::new(alloc, first, second, forbidden)?)
}

/// The picks of a board, each with its goal.
fn shown_picks(alloc: Global, picks: &[Pick]) -> Result<Vec<u8>, AllocError> {
    let mut text = Vec::new(alloc);
    for pick in picks {
        text.push(if pick.goal == 1 { b'1' } else { b'2' })?;
        text.push(b' ')?;
        text.extend_from_slice(shown(alloc, pick.group.atoms.as_slice())?.as_slice())?;
    }
    Ok(text)
}

/// Boards, and the picks that are made there with the oldest and with the newest goal first: each goal takes its first
/// proposal; a refused one is passed over; one goal hinders the other; what is refused in one pass is taken in the next.
const PASSES: [(Setting, &str, &str); 4] = [
    ((&["a", "b"], &["c"], 9), "1 a 2 c ", "2 c 1 a "),
    ((&["a", "b, c"], &[], 1), "1 b c ", "1 b c "),
    ((&["a"], &["b"], 2), "1 a ", "2 b "),
    ((&["a"], &["b, c"], 1), "2 b c 1 a ", "2 b c 1 a "),
];

/// Checks the picks that the plain chooser makes.
fn check_plain(
    rt: &impl Abort,
    alloc: Global,
    setting: Setting,
    prefer: Prefer,
    want: &str,
) -> Result<(), Fail> {
    let mut board = board(alloc, setting)?;
    Plain { prefer }.choose(alloc, &mut board)?;
    let found = shown_picks(alloc, board.picks())?;
    assert_eq!(rt; found.as_slice(), want.as_bytes());
    Ok(())
}

#[test]
fn passes(rt: HostRuntime) -> Result<(), Fail> {
    for (setting, oldest, newest) in PASSES {
        check_plain(&rt, rt.alloc(), setting, Prefer::Oldest, oldest)?;
        check_plain(&rt, rt.alloc(), setting, Prefer::Newest, newest)?;
    }
    Ok(())
}

/// Picks that are given where goal 1 proposes `a`, goal 2 `b`, and no two events may happen together, and whether they are
/// legal.
const GIVEN: [(&[(u64, &str)], bool); 7] = [
    (&[(1, "a")], true),
    (&[(2, "b")], true),
    (&[], false),
    (&[(1, "b")], false),
    (&[(3, "a")], false),
    (&[(1, "a"), (2, "b")], false),
    (&[(1, "a"), (1, "a")], false),
];

fn picks(alloc: Global, list: &[(u64, &str)]) -> Result<Items<Pick>, Fail> {
    let mut picks = Vec::new(alloc);
    for (goal, atoms) in list {
        let atoms = atoms_of(alloc, atoms)?;
        picks.push(Pick {
            goal: *goal,
            group: Group { atoms },
        })?;
    }
    Ok(Items::from_vec(picks))
}

#[test]
fn given(rt: HostRuntime) -> Result<(), Fail> {
    let alloc = rt.alloc();
    for (list, legal) in GIVEN {
        let mut board = board(alloc, (&["a"], &["b"], 2))?;
        let picks = picks(alloc, list)?;
        assert_eq!(rt; check_picks(alloc, &mut board, picks.as_slice())?, legal);
    }
    Ok(())
}
