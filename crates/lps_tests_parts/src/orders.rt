//! The order of terms and atoms, their sizes, and collections that are kept in order.
use lps_terms::{atom_symbols, copy_atom, copy_term, order, order_atoms};
use lps_tests_written::{atom_of, atoms_of, shown, terms_of};
use std::collections::{BTreeMap, BTreeSet};
use std::test::Fail;

/// Variables by number, integers by value, and then by name, number of arguments and arguments.
#[test]
fn terms_in_order(rt: HostRuntime) -> Result<(), Fail> {
    let list = "X, Y, -5, 3, a, a(9), a(f(2)), a(1, 2), a(1, a), ab, b";
    let terms = terms_of(rt.alloc(), list)?;
    for (i, x) in terms.as_slice().iter().enumerate() {
        for (j, y) in terms.as_slice().iter().enumerate() {
            assert_eq!(rt; order(x, y), i.cmp(&j), "{i} and {j}");
        }
    }
    Ok(())
}

/// Atoms and their symbols.
const SIZES: [(&str, u64); 5] = [
    ("q", 1),
    ("p(a)", 2),
    ("p(f(a, -3), X)", 5),
    ("p(-9223372036854775808)", 2),
    ("p(s(s(s(z))), s(z))", 7),
];

#[test]
fn sizes(rt: HostRuntime) -> Result<(), Fail> {
    for (atom, count) in SIZES {
        let atom = copy_atom(rt.alloc(), &atom_of(rt.alloc(), atom)?)?;
        assert_eq!(rt; u64::from(atom_symbols(&atom)), count);
    }
    Ok(())
}

#[test]
fn copies_of_terms(rt: HostRuntime) -> Result<(), Fail> {
    let terms = terms_of(rt.alloc(), "f(a, s(-3)), Y")?;
    for term in terms.as_slice() {
        let copy = copy_term(rt.alloc(), term)?;
        assert!(rt; copy == *term);
    }
    Ok(())
}

#[test]
fn sorted_atoms(rt: HostRuntime) -> Result<(), Fail> {
    let mut atoms = Vec::new(rt.alloc());
    for atom in ["q", "p(b)", "p(a, a)", "p(-1)", "p"] {
        atoms.push(atom_of(rt.alloc(), atom)?)?;
    }
    atoms.sort()?;
    let found = shown(rt.alloc(), atoms.as_slice())?;
    assert_eq!(rt; found.as_slice(), b"p p(-1) p(b) p(a, a) q ".as_slice());
    Ok(())
}

#[test]
fn atoms_in_order(rt: HostRuntime) -> Result<(), Fail> {
    let less = atom_of(rt.alloc(), "p")?;
    let more = atom_of(rt.alloc(), "p(-1)")?;
    assert!(rt; order_atoms(&less, &more).is_lt());
    Ok(())
}

#[test]
fn kept_in_order(rt: HostRuntime) -> Result<(), Fail> {
    let atoms = atoms_of(rt.alloc(), "q, p(a), q")?;
    let mut set = BTreeSet::new(rt.alloc());
    let mut map = BTreeMap::new(rt.alloc());
    for atom in atoms.as_slice() {
        set.insert(copy_atom(rt.alloc(), atom)?)?;
        map.insert(atom.name.copy(rt.alloc())?, atom_symbols(atom))?;
    }
    assert_eq!(rt; set.len(), 2);
    assert_eq!(rt; map.len(), 2);
    Ok(())
}
