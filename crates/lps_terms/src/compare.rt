ghost use Rattle.std.specs.Prelude.{◌≡◌, length};
ghost use Rattle.std.specs.Cmp.Lexicographic.{slice_cmp};
ghost use Rattle.lps_terms.specs.Order.{args_of, atom_cmp, head_cmp, integer_of, is_function, name_of, rank_of, term_cmp, variable_of};

use crate::atom::Atom;
use crate::term::Term;
use std::cmp::Ordering;

/// All of a term but its arguments, in the order in which terms are compared.
#[derive(Clone, Copy)]
struct Head<'a> {
    rank: u8,
    variable: u32,
    integer: i64,
    name: &'a [u8],
    arity: usize,
    is_function: u8,
}

fn head_of(term: &Term) -> Head<'_>
    ensures rank { result.rank ≡ rank_of term.now }
    ensures variable { result.variable ≡ variable_of term.now }
    ensures integer { result.integer ≡ integer_of term.now }
    ensures name { result.name.now ≡ name_of term.now }
    ensures arity { result.arity ≡ length (args_of term.now) }
    ensures is_function { result.is_function ≡ is_function term.now }
{
    let blank = Head {
        rank: 2,
        variable: 0,
        integer: 0,
        name: &[],
        arity: 0,
        is_function: 0,
    };
    match term {
        Term::Var(number) => Head {
            rank: 0,
            variable: *number,
            ..blank
        },
        Term::Int(value) => Head {
            rank: 1,
            integer: *value,
            ..blank
        },
        Term::Sym(name) => Head {
            name: name.bytes(),
            ..blank
        },
        Term::App(name, args) => Head {
            name: name.bytes(),
            arity: args.len(),
            is_function: 1,
            ..blank
        },
    }
}

fn order_heads(a: &Term, b: &Term) -> Ordering
    ensures { result ≡ head_cmp a.now b.now }
{
    let a = head_of(a);
    let b = head_of(b);
    a.rank
        .cmp(&b.rank)
        .then(a.variable.cmp(&b.variable))
        .then(a.integer.cmp(&b.integer))
        .then(a.name.cmp(b.name))
        .then(a.arity.cmp(&b.arity))
        .then(a.is_function.cmp(&b.is_function))
}

/// How two terms stand in order. A variable comes before an integer, and that before a constant or a function.
/// Variables compare by number and integers by value; constants and functions by the bytes of the name, then by how many
/// arguments they have, then by the first argument that differs.
#[cycle(order)]
pub fn order(a: &Term, b: &Term) -> Ordering
    ensures { result ≡ term_cmp a.now b.now }
{
    let heads = order_heads(a, b);
    match (a, b) {
        (Term::App(_, xs), Term::App(_, ys)) => {
            if heads == Ordering::Equal {
                order_all(xs.as_slice(), ys.as_slice())
            } else {
                heads
            }
        }
        _ => heads,
    }
}

#[cycle(order)]
fn order_all(xs: &[Term], ys: &[Term]) -> Ordering
    ensures { result ≡ slice_cmp term_cmp xs.now ys.now }
{
    for i in 0..xs.len().min(ys.len()) {
        let first = order(&xs[i], &ys[i]);
        if first != Ordering::Equal {
            return first;
        }
    }
    xs.len().cmp(&ys.len())
}

/// How two atoms stand in order: by the bytes of the name, then by how many arguments they have, then by the first
/// argument that differs.
pub fn order_atoms(a: &Atom, b: &Atom) -> Ordering
    ensures { result ≡ atom_cmp a.now b.now }
{
    a.name
        .cmp(&b.name)
        .then(a.args.len().cmp(&b.args.len()))
        .then(order_all(a.args.as_slice(), b.args.as_slice()))
}
