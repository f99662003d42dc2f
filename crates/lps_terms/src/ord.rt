ghost use Rattle.lps_terms.specs.Order.{atom_cmp, atom_eq, term_cmp, term_eq};
ghost use Rattle.lps_terms.specs.OrderLaws.{atom_cmp_total, term_cmp_total};
ghost use Rattle.std.specs.Cmp as laws;
ghost use Rattle.std.specs.Ordering.{as_partial_cmp};
ghost use Rattle.std.proofs.Common.{rules};
ghost use Rattle.std.specs.Cmp.Rules.{comparing};

use crate::atom::Atom;
use crate::compare::{order, order_atoms};
use crate::term::Term;
use std::cmp::Ordering;

impl PartialEq for Term {
    ghost eq = { term_eq };

    ghost laws = { laws.partial_equiv_from_equiv (laws.eq_by_cmp_equiv term_cmp_total) };

    fn eq(&self, other: &Term) -> bool {
        order(self, other) == Ordering::Equal
    }
}

impl Eq for Term {
    ghost laws = { laws.eq_by_cmp_equiv term_cmp_total };
}

impl PartialOrd for Term {
    ghost partial_cmp = { as_partial_cmp term_cmp };

    ghost laws = { Prim.search (comparing, term_cmp_total, rules) };

    fn partial_cmp(&self, other: &Term) -> Option<Ordering> {
        Some(order(self, other))
    }
}

impl Ord for Term {
    ghost cmp = { term_cmp };

    ghost total = { term_cmp_total };

    ghost matches_partial_cmp = { Prim.search (comparing, rules) };

    ghost matches_eq = { Prim.search (comparing, rules) };

    fn cmp(&self, other: &Term) -> Ordering {
        order(self, other)
    }
}

impl PartialEq for Atom {
    ghost eq = { atom_eq };

    ghost laws = { laws.partial_equiv_from_equiv (laws.eq_by_cmp_equiv atom_cmp_total) };

    fn eq(&self, other: &Atom) -> bool {
        order_atoms(self, other) == Ordering::Equal
    }
}

impl Eq for Atom {
    ghost laws = { laws.eq_by_cmp_equiv atom_cmp_total };
}

impl PartialOrd for Atom {
    ghost partial_cmp = { as_partial_cmp atom_cmp };

    ghost laws = { Prim.search (comparing, atom_cmp_total, rules) };

    fn partial_cmp(&self, other: &Atom) -> Option<Ordering> {
        Some(order_atoms(self, other))
    }
}

impl Ord for Atom {
    ghost cmp = { atom_cmp };

    ghost total = { atom_cmp_total };

    ghost matches_partial_cmp = { Prim.search (comparing, rules) };

    ghost matches_eq = { Prim.search (comparing, rules) };

    fn cmp(&self, other: &Atom) -> Ordering {
        order_atoms(self, other)
    }
}
