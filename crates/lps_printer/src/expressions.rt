ghost use Rattle.std.specs.Prelude.{◌≡◌, ◌++◌, ◌<◌, [], codes, OnOk, if◌then◌else◌};
ghost use Rattle.lps_printer.specs.Expressions.{built_text, expr_text, level_of as level_of_op, op_text, rel_text};

use crate::terms::{append_term, append_where};
use lps_terms::{Built, Expr, Name, Op, Rel};
use std::alloc::AllocError;

/// How tightly an operator binds: a sum at 0, a product at 1.
fn level_of(op: Op) -> u8
    ensures value { result ≡ level_of_op op }
    ensures small { result < 2 }
{
    match op {
        Op::Add => 0,
        Op::Sub => 0,
        Op::Mul => 1,
        Op::Div => 1,
        Op::Mod => 1,
    }
}

fn append_op(op: Op, out: &mut Vec<u8>) -> Result<(), AllocError>
    ensures { OnOk result (out.new.items ≡ out.old.items ++ op_text op) }
{
    match op {
        Op::Add => out.extend_from_slice(b" + "),
        Op::Sub => out.extend_from_slice(b" - "),
        Op::Mul => out.extend_from_slice(b" * "),
        Op::Div => out.extend_from_slice(b" div "),
        Op::Mod => out.extend_from_slice(b" mod "),
    }
}

/// The text of an expression where the operators round it bind at `level`.
fn append_expr(names: &[Name], level: u8, expr: &Expr, out: &mut Vec<u8>) -> Result<(), AllocError>
    ensures { OnOk result (out.new.items ≡ out.old.items ++ expr_text names.now level expr.now) }
{
    match expr {
        Expr::Leaf(term) => append_term(names, term, out),
        Expr::Apply(op, left, right) => {
            let inner = level_of(*op);
            let needed = inner < level;
            append_where(needed, b"(", out)?;
            append_expr(names, inner, left.get(), out)?;
            append_op(*op, out)?;
            append_expr(names, inner + 1, right.get(), out)?;
            append_where(needed, b")", out)
        }
    }
}

fn append_rel(rel: Rel, out: &mut Vec<u8>) -> Result<(), AllocError>
    ensures { OnOk result (out.new.items ≡ out.old.items ++ rel_text rel) }
{
    match rel {
        Rel::Less => out.extend_from_slice(b" < "),
        Rel::AtMost => out.extend_from_slice(b" =< "),
        Rel::Greater => out.extend_from_slice(b" > "),
        Rel::AtLeast => out.extend_from_slice(b" >= "),
    }
}

/// The text of a built-in.
pub fn append_built(names: &[Name], built: &Built, out: &mut Vec<u8>) -> Result<(), AllocError>
    ensures { OnOk result (out.new.items ≡ out.old.items ++ built_text names.now built.now) }
{
    match built {
        Built::Same(left, right) => {
            append_term(names, left, out)?;
            out.extend_from_slice(b" = ")?;
            append_term(names, right, out)
        }
        Built::Differ(left, right) => {
            append_term(names, left, out)?;
            out.extend_from_slice(b" \\= ")?;
            append_term(names, right, out)
        }
        Built::Is(left, right) => {
            append_term(names, left, out)?;
            out.extend_from_slice(b" is ")?;
            append_expr(names, 0, right, out)
        }
        Built::Compare(rel, left, right) => {
            append_expr(names, 0, left, out)?;
            append_rel(*rel, out)?;
            append_expr(names, 0, right, out)
        }
    }
}
