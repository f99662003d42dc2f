ghost use Rattle.std.specs.Prelude.{◌≡◌};
ghost use Rattle.std.specs.Cmp as laws;
ghost use Rattle.std.specs.Cmp.Rules.{comparing};
ghost use Rattle.std.specs.Ordering.{as_partial_cmp, eq_by_cmp};
ghost use Rattle.std.proofs.Common.{rules};
ghost use Rattle.lps_meaning.specs.Plain.{ranked_cmp};
ghost use Rattle.lps_goaltrees.specs.OfferOrder.{ranked_cmp_total};

use lps_model::Group;
use sqlite_items::Items;
use std::cmp::Ordering;
use std::marker::Model;

/// A group that a node proposes. The order is that in which proposals are preferred: by alternative, then by rank, then by group.
#[derive(Drop)]
pub(crate) struct Offer {
    alternative: u32,
    rank: Items<u32>,
    group: Group,
}

impl Model for Offer {
    ghost use Rattle.lps_terms.specs.contracts.term.Term as term;
    ghost use Rattle.std.specs.Coded.{codes};
    ghost use Rattle.lps_meaning.specs.Plain.{Ranked};

    ghost Value = { Ranked };

    ghost coded = { Prim.hlevel (codes, term.the_row.coded) };

    ghost view = { λ it. record { alternative = it.alternative; rank = it.rank; group = it.group.atoms } };
}

impl Offer {
    ghost use Rattle.std.specs.Prelude.{◌≡◌};

    pub(crate) fn new(alternative: u32, rank: Items<u32>, group: Group) -> Offer
        ensures { result ≡ record { alternative = alternative; rank = rank; group = group.atoms } }
    {
        Offer {
            alternative,
            rank,
            group,
        }
    }

    pub(crate) fn into_group(self) -> Group
        ensures { result.atoms ≡ self.group }
    {
        self.group
    }
}

impl PartialEq for Offer {
    ghost eq = { eq_by_cmp ranked_cmp };

    ghost laws = { laws.partial_equiv_from_equiv (laws.eq_by_cmp_equiv ranked_cmp_total) };

    fn eq(&self, other: &Offer) -> bool {
        compare(self, other) == Ordering::Equal
    }
}

impl Eq for Offer {
    ghost laws = { laws.eq_by_cmp_equiv ranked_cmp_total };
}

impl PartialOrd for Offer {
    ghost partial_cmp = { as_partial_cmp ranked_cmp };

    ghost laws = { Prim.search (comparing, ranked_cmp_total, rules) };

    fn partial_cmp(&self, other: &Offer) -> Option<Ordering> {
        Some(self.cmp(other))
    }
}

impl Ord for Offer {
    ghost cmp = { ranked_cmp };

    ghost total = { ranked_cmp_total };

    ghost matches_partial_cmp = { Prim.search (comparing, rules) };

    ghost matches_eq = { Prim.search (comparing, rules) };

    fn cmp(&self, other: &Offer) -> Ordering {
        compare(self, other)
    }
}

fn compare(offer: &Offer, other: &Offer) -> Ordering
    ensures { result ≡ ranked_cmp offer.now other.now }
{
    match offer.alternative.cmp(&other.alternative) {
        Ordering::Equal => match offer.rank.as_slice().cmp(other.rank.as_slice()) {
            Ordering::Equal => {
                let atoms = offer.group.atoms.as_slice();
                atoms.cmp(other.group.atoms.as_slice())
            }
            unequal => unequal,
        },
        unequal => unequal,
    }
}
