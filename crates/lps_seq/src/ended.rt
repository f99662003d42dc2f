ghost use Rattle.std.specs.Prelude.{◌≡◌};
ghost use Rattle.std.specs.Cmp.Lexicographic.{slice_cmp};
ghost use Rattle.lps_seq.specs.Carries.{carry_cmp, carry_cmp_total, when_cmp, when_number, when_rank};
ghost use Rattle.std.specs.Cmp as laws;
ghost use Rattle.std.specs.Ordering.{as_partial_cmp, eq_by_cmp};
ghost use Rattle.std.proofs.Common.{rules};
ghost use Rattle.std.specs.Cmp.Rules.{comparing};

use lps_meaning::{Carry, When};
use std::cmp::Ordering;
use std::marker::Model;

/// What an instance carries that ended. The order is that of values, and then of times. Contracts see what is carried.
#[derive(Drop)]
pub(crate) struct Ended {
    carry: Carry,
}

impl Model for Ended {
    ghost use Rattle.lps_terms.specs.contracts.term.Term as term;
    ghost use Rattle.lps_meaning.specs.declared.node.Carry.{Carry};
    ghost use Rattle.std.specs.Coded.{codes};

    ghost Value = { Carry };

    ghost coded = { Prim.hlevel (codes, term.the_row.coded) };

    ghost view = { λ ended. ended.carry };
}

impl Ended {
    ghost use Rattle.std.specs.Prelude.{◌≡◌};

    pub(crate) fn new(carry: Carry) -> Ended
        ensures { result ≡ carry }
    {
        Ended { carry }
    }

    pub(crate) fn into_carry(self) -> Carry
        ensures { result ≡ self }
    {
        self.carry
    }
}

impl PartialEq for Ended {
    ghost eq = { eq_by_cmp carry_cmp };

    ghost laws = { laws.partial_equiv_from_equiv (laws.eq_by_cmp_equiv carry_cmp_total) };

    fn eq(&self, other: &Ended) -> bool {
        compare(&self.carry, &other.carry) == Ordering::Equal
    }
}

impl Eq for Ended {
    ghost laws = { laws.eq_by_cmp_equiv carry_cmp_total };
}

impl PartialOrd for Ended {
    ghost partial_cmp = { as_partial_cmp carry_cmp };

    ghost laws = { Prim.search (comparing, carry_cmp_total, rules) };

    fn partial_cmp(&self, other: &Ended) -> Option<Ordering> {
        Some(self.cmp(other))
    }
}

impl Ord for Ended {
    ghost cmp = { carry_cmp };

    ghost total = { carry_cmp_total };

    ghost matches_partial_cmp = { Prim.search (comparing, rules) };

    ghost matches_eq = { Prim.search (comparing, rules) };

    fn cmp(&self, other: &Ended) -> Ordering {
        compare(&self.carry, &other.carry)
    }
}

fn compare(carry: &Carry, other: &Carry) -> Ordering
    ensures { result ≡ carry_cmp carry.now other.now }
{
    match carry.values.as_slice().cmp(other.values.as_slice()) {
        Ordering::Equal => compare_times(carry.times.as_slice(), other.times.as_slice()),
        unequal => unequal,
    }
}

fn compare_times(times: &[When], others: &[When]) -> Ordering
    ensures { result ≡ slice_cmp when_cmp times.now others.now }
{
    for place in 0..times.len().min(others.len()) {
        match compare_whens(times[place], others[place]) {
            Ordering::Equal => {}
            unequal => return unequal,
        }
    }
    times.len().cmp(&others.len())
}

/// Known times come before unknown ones.
fn compare_whens(time: When, other: When) -> Ordering
    ensures { result ≡ when_cmp time other }
{
    match rank(time).cmp(&rank(other)) {
        Ordering::Equal => number(time).cmp(&number(other)),
        unequal => unequal,
    }
}

fn rank(time: When) -> u64
    ensures { result ≡ when_rank time }
{
    match time {
        When::Known(_) => 0,
        When::Unknown(_) => 1,
    }
}

fn number(time: When) -> u64
    ensures { result ≡ when_number time }
{
    match time {
        When::Known(number) => number,
        When::Unknown(number) => number as u64,
    }
}
