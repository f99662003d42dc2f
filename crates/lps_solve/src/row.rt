ghost use Rattle.lps_terms.specs.Order.{term_cmp};
ghost use Rattle.lps_terms.specs.OrderLaws.{term_cmp_total};
ghost use Rattle.std.specs.Cmp as laws;
ghost use Rattle.std.specs.Cmp.Lexicographic.{slice_cmp};
ghost use Rattle.std.specs.Ordering.{as_partial_cmp, eq_by_cmp};
ghost use Rattle.std.proofs.Common.{rules};
ghost use Rattle.std.proofs.lemmas.Cmp.{lists_total};
ghost use Rattle.std.specs.Cmp.Rules.{comparing};

use lps_terms::Term;
use sqlite_items::Items;
use std::cmp::Ordering;
use std::marker::Model;

/// Terms that stand for one answer. Contracts see the list of the terms.
#[derive(Drop)]
pub(crate) struct Row {
    terms: Items<Term>,
}

impl Model for Row {
    ghost use Rattle.lps_terms.specs.contracts.term.Term as term;
    ghost use Rattle.lps_terms.specs.declared.term.Term.{Term};
    ghost use Rattle.std.specs.Coded.{codes};
    ghost use Rattle.std.specs.Prelude.{List};

    ghost Value = { List Term };

    ghost coded = { Prim.hlevel (codes, term.the_row.coded) };

    ghost view = { λ row. row.terms };
}

impl Row {
    ghost use Rattle.std.specs.Prelude.{◌≡◌};

    pub(crate) fn new(terms: Items<Term>) -> Row
        ensures { result ≡ terms }
    {
        Row { terms }
    }

    pub(crate) fn terms(&self) -> &[Term]
        ensures { result.now ≡ self.now }
    {
        self.terms.as_slice()
    }

    pub(crate) fn into_terms(self) -> Items<Term>
        ensures { result ≡ self }
    {
        self.terms
    }
}

impl PartialEq for Row {
    ghost eq = { eq_by_cmp (slice_cmp term_cmp) };

    ghost laws = { laws.partial_equiv_from_equiv (laws.eq_by_cmp_equiv (lists_total term_cmp_total)) };

    fn eq(&self, other: &Row) -> bool {
        self.terms().cmp(other.terms()) == Ordering::Equal
    }
}

impl Eq for Row {
    ghost laws = { laws.eq_by_cmp_equiv (lists_total term_cmp_total) };
}

impl PartialOrd for Row {
    ghost partial_cmp = { as_partial_cmp (slice_cmp term_cmp) };

    ghost laws = { Prim.search (comparing, term_cmp_total, rules) };

    fn partial_cmp(&self, other: &Row) -> Option<Ordering> {
        Some(self.cmp(other))
    }
}

impl Ord for Row {
    ghost cmp = { slice_cmp term_cmp };

    ghost total = { lists_total term_cmp_total };

    ghost matches_partial_cmp = { Prim.search (comparing, rules) };

    ghost matches_eq = { Prim.search (comparing, rules) };

    fn cmp(&self, other: &Row) -> Ordering {
        self.terms().cmp(other.terms())
    }
}
