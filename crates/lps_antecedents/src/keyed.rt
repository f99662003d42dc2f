ghost use Rattle.std.specs.Prelude.{◌≡◌};
ghost use Rattle.lps_meaning.specs.Cycles.{key_cmp};
ghost use Rattle.lps_meaning.proofs.Numbers.{key_cmp_total};
ghost use Rattle.std.specs.Cmp as laws;
ghost use Rattle.std.specs.Ordering.{as_partial_cmp, eq_by_cmp};
ghost use Rattle.std.proofs.Common.{rules};
ghost use Rattle.std.specs.Cmp.Rules.{comparing};

use lps_meaning::GoalKey;
use std::cmp::Ordering;
use std::marker::Model;

/// A key in the order of keys: by time, then by rule, values and times. Contracts see the key.
#[derive(Drop)]
pub(crate) struct Keyed {
    key: GoalKey,
}

impl Model for Keyed {
    ghost use Rattle.lps_terms.specs.contracts.term.Term as term;
    ghost use Rattle.lps_meaning.specs.declared.goal.GoalKey.{GoalKey};
    ghost use Rattle.std.specs.Coded.{codes};

    ghost Value = { GoalKey };

    ghost coded = { Prim.hlevel (codes, term.the_row.coded) };

    ghost view = { λ keyed. keyed.key };
}

impl Keyed {
    ghost use Rattle.std.specs.Prelude.{◌≡◌};

    pub(crate) fn new(key: GoalKey) -> Keyed
        ensures { result ≡ key }
    {
        Keyed { key }
    }

    pub(crate) fn into_key(self) -> GoalKey
        ensures { result ≡ self }
    {
        self.key
    }
}

impl PartialEq for Keyed {
    ghost eq = { eq_by_cmp key_cmp };

    ghost laws = { laws.partial_equiv_from_equiv (laws.eq_by_cmp_equiv key_cmp_total) };

    fn eq(&self, other: &Keyed) -> bool {
        compare(&self.key, &other.key) == Ordering::Equal
    }
}

impl Eq for Keyed {
    ghost laws = { laws.eq_by_cmp_equiv key_cmp_total };
}

impl PartialOrd for Keyed {
    ghost partial_cmp = { as_partial_cmp key_cmp };

    ghost laws = { Prim.search (comparing, key_cmp_total, rules) };

    fn partial_cmp(&self, other: &Keyed) -> Option<Ordering> {
        Some(self.cmp(other))
    }
}

impl Ord for Keyed {
    ghost cmp = { key_cmp };

    ghost total = { key_cmp_total };

    ghost matches_partial_cmp = { Prim.search (comparing, rules) };

    ghost matches_eq = { Prim.search (comparing, rules) };

    fn cmp(&self, other: &Keyed) -> Ordering {
        compare(&self.key, &other.key)
    }
}

fn compare(key: &GoalKey, other: &GoalKey) -> Ordering
    ensures { result ≡ key_cmp key.now other.now }
{
    let values = key.values.as_slice().cmp(other.values.as_slice());
    let times = key.times.as_slice().cmp(other.times.as_slice());
    key.time
        .cmp(&other.time)
        .then(key.rule.cmp(&other.rule))
        .then(values)
        .then(times)
}
