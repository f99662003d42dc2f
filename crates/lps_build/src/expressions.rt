ghost use Rattle.std.specs.Prelude.{◌≡◌, IfOk, MatchOption, Some, None};
ghost use Rattle.lps_terms.specs.declared.expr.Expr.TheVariants.{Apply};
ghost use Rattle.lps_build.specs.ReadExpressions.{add_op, close_in, expr_in, factors_in, mul_op, prod_in, summands_in, unit_in};

use crate::terms::leaf;
use lps_grammar::Tok;
use lps_terms::{Expr, Op};
use sqlite_items::Boxed;
use std::alloc::{AllocError, Global};

/// The operator of products that the token is.
fn mul_op(tok: &Tok) -> Option<Op>
    ensures { result ≡ mul_op tok.now }
{
    match tok {
        Tok::Star => Some(Op::Mul),
        Tok::Div => Some(Op::Div),
        Tok::Mod => Some(Op::Mod),
        _ => None,
    }
}

/// The operator of sums that the token is.
fn add_op(tok: &Tok) -> Option<Op>
    ensures { result ≡ add_op tok.now }
{
    match tok {
        Tok::Plus => Some(Op::Add),
        Tok::Minus => Some(Op::Sub),
        _ => None,
    }
}

fn apply(alloc: Global, op: Op, left: Expr, right: Expr) -> Result<Expr, AllocError>
    ensures { IfOk result (λ expr. expr ≡ Apply op left right) }
{
    let left = Boxed::new(alloc, left)?;
    let right = Boxed::new(alloc, right)?;
    Ok(Expr::Apply(op, left, right))
}

/// The expression, if its closing parenthesis follows.
fn closed(grouped: Expr, toks: &[Tok]) -> Option<(Expr, &[Tok])>
    ensures { MatchOption result (close_in grouped toks.now ≡ None) (λ p. close_in grouped toks.now ≡ Some (p.0, p.1.now)) }
{
    match toks {
        [Tok::Close, rest @ ..] => Some((grouped, rest)),
        _ => None,
    }
}

/// An expression, where at most `limit` tokens are left.
#[cycle(expressions)]
pub fn expr<'a>(
    alloc: Global,
    toks: &'a [Tok],
    limit: usize,
) -> Result<Option<(Expr, &'a [Tok])>, AllocError>
    ensures { IfOk result (λ found. MatchOption found (expr_in limit toks.now ≡ None) (λ p. expr_in limit toks.now ≡ Some (p.0, p.1.now))) }
{
    let Some((first, rest)) = prod(alloc, toks, limit)? else {
        return Ok(None);
    };
    summands(alloc, rest, first, limit)
}

/// A product.
#[cycle(expressions)]
fn prod<'a>(
    alloc: Global,
    toks: &'a [Tok],
    limit: usize,
) -> Result<Option<(Expr, &'a [Tok])>, AllocError>
    ensures { IfOk result (λ found. MatchOption found (prod_in limit toks.now ≡ None) (λ p. prod_in limit toks.now ≡ Some (p.0, p.1.now))) }
{
    let Some((first, rest)) = unit(alloc, toks, limit)? else {
        return Ok(None);
    };
    factors(alloc, rest, first, limit)
}

/// An expression in parentheses, a variable or an integer.
#[cycle(expressions)]
fn unit<'a>(
    alloc: Global,
    toks: &'a [Tok],
    limit: usize,
) -> Result<Option<(Expr, &'a [Tok])>, AllocError>
    ensures { IfOk result (λ found. MatchOption found (unit_in limit toks.now ≡ None) (λ p. unit_in limit toks.now ≡ Some (p.0, p.1.now))) }
{
    if limit == 0 {
        return Ok(None);
    }
    match toks {
        [Tok::Open, rest @ ..] => {
            let Some((grouped, left)) = expr(alloc, rest, limit - 1)? else {
                return Ok(None);
            };
            Ok(closed(grouped, left))
        }
        _ => match leaf(toks) {
            Some((term, rest)) => Ok(Some((Expr::Leaf(term), rest))),
            None => Ok(None),
        },
    }
}

/// What is before and the factors after it.
#[cycle(expressions)]
fn factors<'a>(
    alloc: Global,
    toks: &'a [Tok],
    before: Expr,
    limit: usize,
) -> Result<Option<(Expr, &'a [Tok])>, AllocError>
    ensures { IfOk result (λ found. MatchOption found (factors_in limit before toks.now ≡ None) (λ p. factors_in limit before toks.now ≡ Some (p.0, p.1.now))) }
{
    if limit == 0 {
        return Ok(Some((before, toks)));
    }
    let Some((tok, rest)) = toks.split_first() else {
        return Ok(Some((before, toks)));
    };
    let Some(op) = mul_op(tok) else {
        return Ok(Some((before, toks)));
    };
    let Some((factor, left)) = unit(alloc, rest, limit - 1)? else {
        return Ok(None);
    };
    let product = apply(alloc, op, before, factor)?;
    factors(alloc, left, product, limit - 1)
}

/// What is before and the summands after it.
#[cycle(expressions)]
fn summands<'a>(
    alloc: Global,
    toks: &'a [Tok],
    before: Expr,
    limit: usize,
) -> Result<Option<(Expr, &'a [Tok])>, AllocError>
    ensures { IfOk result (λ found. MatchOption found (summands_in limit before toks.now ≡ None) (λ p. summands_in limit before toks.now ≡ Some (p.0, p.1.now))) }
{
    if limit == 0 {
        return Ok(Some((before, toks)));
    }
    let Some((tok, rest)) = toks.split_first() else {
        return Ok(Some((before, toks)));
    };
    let Some(op) = add_op(tok) else {
        return Ok(Some((before, toks)));
    };
    let Some((summand, left)) = prod(alloc, rest, limit - 1)? else {
        return Ok(None);
    };
    let sum = apply(alloc, op, before, summand)?;
    summands(alloc, left, sum, limit - 1)
}
