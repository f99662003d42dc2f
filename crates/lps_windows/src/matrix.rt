ghost use Rattle.std.specs.Prelude.{◌≡◌, ◌*◌, ◌/◌, ◌%◌, ◌<◌, ◌≤◌, ◌↔◌, All, IsTrue, length, IfOk, MatchOption};
ghost use Rattle.lps_windows.specs.Bounds.{IsBetween};
ghost use Rattle.lps_windows.specs.Matrices.{Breaks, HaveNoLowSolution, IsBounded, IsBroken, IsContradiction, IsFirst, IsImpossible, IsLesser, IsLowered, IsPassed, IsReady, IsStart, entry};

use crate::bound::Bound;
use std::alloc::{AllocError, Global};

/// No time of a row is taken to be later: later by far than all times that conditions can ask for.
const HORIZON: i64 = 1_000_000_000_000_000;

/// How much a row may be above another before any bound.
fn first_entry(row: usize, column: usize) -> i64
    ensures { IsFirst row column result }
{
    if row == column || row == 0 {
        0
    } else {
        HORIZON
    }
}

/// The matrix before any bound.
fn start(alloc: Global, size: usize) -> Result<Vec<i64>, AllocError>
    requires some { 0 < size }
    requires fits { size ≤ 1000001 }
    ensures { IfOk result (λ numbers. IsStart size numbers.items) }
{
    let mut numbers = Vec::with_capacity(alloc, size * size)?;
    for place in 0..size * size {
        numbers.push(first_entry(place / size, place % size))?;
    }
    Ok(numbers)
}

/// Makes a number no larger than `most`.
fn lower(numbers: &mut Vec<i64>, place: usize, most: i64)
    requires { place < length numbers.old.items }
    ensures lowered { IsLowered numbers.old.items place most numbers.new.items }
    ensures count { length numbers.new.items ≡ length numbers.old.items }
{
    if most < numbers[place] {
        numbers[place] = most;
    }
}

/// Whether a bound says that a time is below itself.
fn is_impossible(bound: Bound) -> bool
    ensures { IsTrue result ↔ IsImpossible bound }
{
    bound.row == bound.column && bound.most < 0
}

/// The matrix with each bound, where none is impossible by itself.
fn matrix(alloc: Global, bounds: &[Bound], size: usize) -> Result<Option<Vec<i64>>, AllocError>
    requires some { 0 < size }
    requires fits { size ≤ 1000001 }
    requires between { All (IsBetween size) bounds.now }
    ensures { IfOk result (λ found. MatchOption found (HaveNoLowSolution size bounds.now) (λ numbers. IsReady size bounds.now 0 numbers.items)) }
{
    let mut numbers = start(alloc, size)?;
    for bound in bounds {
        if is_impossible(*bound) {
            return Ok(None);
        }
        lower(&mut numbers, bound.row * size + bound.column, bound.most);
    }
    Ok(Some(numbers))
}

/// Whether no solution allows that a row is at most another and this number.
fn is_contradiction(through: i64, row: usize, column: usize) -> bool
    ensures { IsTrue result ↔ IsContradiction through row column }
{
    through < -HORIZON || (row == column && through < 0)
}

/// The lesser of the number at a place and the way through the row `k`, where that is no contradiction.
fn lesser(numbers: &[i64], size: usize, k: usize, place: usize) -> Option<i64>
    requires some { 0 < size }
    requires fits { size ≤ 1000001 }
    requires count { length numbers.now ≡ size * size }
    requires bounded { IsBounded size (entry size numbers.now) }
    requires through { k < size }
    requires place { place < size * size }
    ensures { MatchOption result (Breaks (entry size numbers.now) k (place / size) (place % size)) (λ number. IsLesser (entry size numbers.now) k (place / size) (place % size) number) }
{
    let row = place / size;
    let column = place % size;
    let through = numbers[row * size + k] + numbers[k * size + column];
    if is_contradiction(through, row, column) {
        return None;
    }
    let before = numbers[row * size + column];
    if through < before {
        Some(through)
    } else {
        Some(before)
    }
}

/// The matrix with the ways through the row `k`, where none is a contradiction.
fn pass(
    alloc: Global,
    numbers: &[i64],
    size: usize,
    k: usize,
) -> Result<Option<Vec<i64>>, AllocError>
    requires some { 0 < size }
    requires fits { size ≤ 1000001 }
    requires count { length numbers.now ≡ size * size }
    requires bounded { IsBounded size (entry size numbers.now) }
    requires through { k < size }
    ensures { IfOk result (λ found. MatchOption found (IsBroken size (entry size numbers.now) k) (λ next. IsPassed size (entry size numbers.now) k next.items)) }
{
    let mut next = Vec::with_capacity(alloc, size * size)?;
    for place in 0..size * size {
        match lesser(numbers, size, k, place) {
            None => return Ok(None),
            Some(number) => next.push(number)?,
        }
    }
    Ok(Some(next))
}

/// The closed matrix of the bounds, where they have a solution.
pub fn closed(alloc: Global, bounds: &[Bound], size: usize) -> Result<Option<Vec<i64>>, AllocError>
    requires some { 0 < size }
    requires fits { size ≤ 1000001 }
    requires between { All (IsBetween size) bounds.now }
    ensures { IfOk result (λ found. MatchOption found (HaveNoLowSolution size bounds.now) (λ numbers. IsReady size bounds.now size numbers.items)) }
{
    let mut numbers = match matrix(alloc, bounds, size)? {
        None => return Ok(None),
        Some(numbers) => numbers,
    };
    for k in 0..size {
        match pass(alloc, numbers.as_slice(), size, k)? {
            None => return Ok(None),
            Some(next) => numbers = next,
        }
    }
    Ok(Some(numbers))
}

/// The entry of a matrix.
pub fn at(numbers: &[i64], size: usize, row: usize, column: usize) -> i64
    requires fits { size ≤ 1000001 }
    requires count { length numbers.now ≡ size * size }
    requires row { row < size }
    requires column { column < size }
    ensures { result ≡ entry size numbers.now row column }
{
    numbers[row * size + column]
}
