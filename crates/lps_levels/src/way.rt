ghost use Rattle.std.specs.Prelude.{◌≡◌, ◌<◌, length, IfOk, MatchOption, Some};
ghost use Rattle.std.specs.Option.{ForSome};
ghost use Rattle.lps_model.specs.Levels.{IsLeastWay};
ghost use Rattle.lps_levels.specs.Graphs.{IsGraph, IsWithin, calls_by, name_at};
ghost use Rattle.lps_levels.specs.Distances.{AreDistances, HasNoCallee, IsCycleOf, IsLeastCallee, IsOnNoCycle, better as better_of, comes_before as comes_before_of, distance_at};

use crate::distances::{distances, is_at};
use crate::edge::Edge;
use lps_terms::Name;
use std::alloc::{AllocError, Global};
use std::cmp::Ordering;

/// The cycle of an edge with the least way back, where there is a way back.
pub fn cycle_of(
    alloc: Global,
    names: &[Name],
    edges: &[Edge],
    edge: Edge,
) -> Result<Option<Vec<Name>>, AllocError>
    requires graph { IsGraph names.now edges.now }
    requires in_names { IsWithin (length names.now) edge }
    ensures { IfOk result (λ found. MatchOption found (IsOnNoCycle names.now edges.now edge) (λ cycle. IsCycleOf names.now edges.now edge cycle.items)) }
{
    let distances = distances(alloc, names, edges, edge.caller)?;
    match distances[edge.callee] {
        None => Ok(None),
        Some(distance) => {
            let mut cycle = least_way(
                alloc,
                names,
                edges,
                distances.as_slice(),
                edge.caller,
                edge.callee,
                distance,
            )?;
            cycle.insert(0, names[edge.caller].copy(alloc)?)?;
            Ok(Some(cycle))
        }
    }
}

/// The least way from a name that is at this distance from the goal.
fn least_way(
    alloc: Global,
    names: &[Name],
    edges: &[Edge],
    distances: &[Option<usize>],
    goal: usize,
    start: usize,
    distance: usize,
) -> Result<Vec<Name>, AllocError>
    requires graph { IsGraph names.now edges.now }
    requires distances { AreDistances names.now edges.now goal distances.now }
    requires goal_in { goal < length names.now }
    requires start_in { start < length names.now }
    requires far { distance_at distances.now start ≡ Some distance }
    ensures { IfOk result (λ way. IsLeastWay (calls_by names.now edges.now) (name_at names.now start) (name_at names.now goal) way.items) }
{
    let mut way = Vec::new(alloc);
    let mut number = start;
    let mut left = distance;
    while left > 0 {
        left -= 1;
        let Some(next) = least_callee(names, edges, distances, number, left) else {
            return Ok(way);
        };
        way.push(names[number].copy(alloc)?)?;
        number = next;
    }
    Ok(way)
}

/// The callee of least name among those that a name calls at this distance.
fn least_callee(
    names: &[Name],
    edges: &[Edge],
    distances: &[Option<usize>],
    caller: usize,
    distance: usize,
) -> Option<usize>
    requires graph { IsGraph names.now edges.now }
    requires sized { length distances.now ≡ length names.now }
    ensures { MatchOption result (HasNoCallee edges.now distances.now caller distance) (IsLeastCallee names.now edges.now distances.now caller distance) }
{
    let mut least = None;
    for edge in edges {
        least = better(names, distances, caller, distance, least, *edge);
    }
    least
}

/// The callee of an edge, where it comes before the best one so far; else that.
fn better(
    names: &[Name],
    distances: &[Option<usize>],
    caller: usize,
    distance: usize,
    least: Option<usize>,
    edge: Edge,
) -> Option<usize>
    requires in_names { IsWithin (length names.now) edge }
    requires least_in { ForSome least (λ callee. callee < length names.now) }
    requires sized { length distances.now ≡ length names.now }
    ensures { result ≡ better_of names.now distances.now caller distance least edge }
{
    if edge.caller == caller
        && is_at(distances, edge.callee, distance)
        && comes_before(names, edge.callee, least)
    {
        Some(edge.callee)
    } else {
        least
    }
}

/// Whether a name comes before another in byte order, or there is no other.
fn comes_before(names: &[Name], number: usize, other: Option<usize>) -> bool
    requires in_names { number < length names.now }
    requires other_in { ForSome other (λ other. other < length names.now) }
    ensures { result ≡ comes_before_of names.now number other }
{
    match other {
        Some(other) => names[number].cmp(&names[other]) == Ordering::Less,
        None => true,
    }
}
