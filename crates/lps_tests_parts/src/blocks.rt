//! The bytes of a block and of the last line of a report.
use lps_facts::Facts;
use lps_meaning::{Closed, Counts, GoalId, GoalKey, NewGoal};
use lps_model::{Cycle, Group, Pick, Verdict};
use lps_report::{Block, print_last_line};
use lps_terms::Term;
use lps_tests_written::{atoms_of, terms_of};
use sqlite_items::Items;
use std::alloc::Global;
use std::process::Abort;
use std::test::Fail;

/// A cycle in which the second event is rejected and two actions are done for goal 2.
fn cycle(alloc: Global) -> Result<Cycle, Fail> {
    let verdicts = [Verdict::Admitted, Verdict::Rejected(12)];
    let atoms = atoms_of(alloc, "a, b(1)")?;
    let pick = Pick {
        goal: 2,
        group: Group { atoms },
    };
    Ok(Cycle {
        events: atoms_of(alloc, "e, f(x, -1)")?,
        verdicts: Items::from_slice(alloc, verdicts.as_slice())?,
        picks: Items::from_vec(vec![in alloc; pick]?),
    })
}

/// A goal of rule 3.
fn goal(alloc: Global, number: u64, values: Items<Term>, times: &[u64]) -> Result<NewGoal, Fail> {
    let key = GoalKey {
        rule: 3,
        values,
        times: Items::from_slice(alloc, times)?,
        time: 4,
    };
    Ok(NewGoal {
        goal: GoalId(number),
        key,
    })
}

const BLOCK: &[u8] = b"cycle 5
admit e
reject f(x, -1) by 12
do a, b(1) for 2
state p, q(7)
goal 7 rule 3 with ann, f(1), 3, 5
goal 8 rule 3
solved 2
failed 10
cut 3
";

/// Checks the bytes of a block with these parts.
fn check_block<'a>(
    rt: &impl Abort,
    alloc: Global,
    cycle: &'a Cycle,
    facts: &'a Facts,
    created: &'a [NewGoal],
    closed: &'a [(GoalId, Closed)],
) -> Result<(), Fail> {
    let block = Block {
        number: 5,
        cycle,
        facts,
        created,
        closed,
    };
    let mut out = Vec::new(alloc);
    block.print(&mut out)?;
    assert_eq!(rt; out.as_slice(), BLOCK);
    Ok(())
}

#[test]
fn blocks(rt: HostRuntime) -> Result<(), Fail> {
    let alloc = rt.alloc();
    let cycle = cycle(alloc)?;
    let mut facts = Facts::new(alloc);
    facts.insert_all(atoms_of(alloc, "q(7), p")?.as_slice())?;
    let first = goal(alloc, 7, terms_of(alloc, "ann, f(1)")?, &[3, 5])?;
    let created = vec![in alloc; first, goal(alloc, 8, Items::new(alloc), &[])?]?;
    let closed = [
        (GoalId(2), Closed::Solved),
        (GoalId(10), Closed::Failed),
        (GoalId(3), Closed::Cut),
    ];
    check_block(
        &rt,
        alloc,
        &cycle,
        &facts,
        created.as_slice(),
        closed.as_slice(),
    )
}

/// Goals that are pending, failed and cut, and the last line.
const LAST_LINES: [(u64, u64, u64, &[u8]); 4] = [
    (0, 0, 0, b"done\n"),
    (1, 0, 0, b"open 1 failed 0 cut 0\n"),
    (0, 20, 0, b"open 0 failed 20 cut 0\n"),
    (0, 0, 3, b"open 0 failed 0 cut 3\n"),
];

#[test]
fn last_lines(rt: HostRuntime) -> Result<(), Fail> {
    for (pending, failed, cut, want) in LAST_LINES {
        let counts = Counts {
            pending,
            failed,
            cut,
        };
        let mut out = Vec::new(rt.alloc());
        print_last_line(counts, &mut out)?;
        assert_eq!(rt; out.as_slice(), want);
    }
    Ok(())
}
