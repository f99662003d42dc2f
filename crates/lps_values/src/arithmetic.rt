ghost use Rattle.std.specs.Prelude.{◌≡◌};
ghost use Rattle.lps_values.specs.Values.{applied, divided, left_over};
ghost use Rattle.lps_values.specs.Division.{is_opposite};

use lps_terms::Op;

/// `a div b`: the quotient, rounded toward negative infinity.
fn divide(a: i64, b: i64) -> Option<i64>
    ensures { result ≡ divided a b }
{
    if b == 0 {
        None
    } else if 0 < a && b < 0 {
        // One step toward 0 and one down, since `/` rounds toward 0.
        Some((a - 1) / b - 1)
    } else if a < 0 && 0 < b {
        Some((a + 1) / b - 1)
    } else {
        a.checked_div(b)
    }
}

/// Whether two integers lie on different sides of 0.
fn are_opposite(a: i64, b: i64) -> bool
    ensures { result ≡ is_opposite a b }
{
    (a < 0 && 0 < b) || (0 < a && b < 0)
}

/// `a mod b`: what this quotient leaves of `a`, also where it is no `i64` itself.
fn modulo(a: i64, b: i64) -> Option<i64>
    ensures { result ≡ left_over a b }
{
    if b == 0 {
        return None;
    }
    // The least number leaves 0 by -1, though it has no quotient.
    let rest = a.wrapping_rem(b);
    if are_opposite(rest, b) {
        Some(rest + b)
    } else {
        Some(rest)
    }
}

/// The value of an operation on two integers. It has none where the result is no `i64`, or the divisor is 0.
pub fn apply(op: Op, left: i64, right: i64) -> Option<i64>
    ensures { result ≡ applied op left right }
{
    match op {
        Op::Add => left.checked_add(right),
        Op::Sub => left.checked_sub(right),
        Op::Mul => left.checked_mul(right),
        Op::Div => divide(left, right),
        Op::Mod => modulo(left, right),
    }
}
