ghost use Rattle.std.specs.Prelude.{◌≡◌, ◌<◌, All, length, IfOk, MatchOption, true};
ghost use Rattle.std.specs.List.{list_all};
ghost use Rattle.lps_model.specs.Levels.{IsStrictCycle};
ghost use Rattle.lps_levels.specs.Graphs.{IsGraph, IsWithin, calls_by, is_lower, is_no_higher};
ghost use Rattle.lps_levels.specs.Distances.{AreRight, AreUnreached, HaveNoStrictCycle, IsOnNoCycle, IsRightAnswer, IsStrictCycleOf, NeverRise, missing};

use crate::distances::distances;
use crate::edge::Edge;
use crate::guess::guess;
use crate::way::cycle_of;
use lps_terms::Name;
use std::alloc::{AllocError, Global};

/// What is found of the calls between names.
#[derive(Drop)]
pub enum Answer {
    /// The levels of the names.
    Levelled(Vec<usize>),
    /// The cycle of the calls.
    Cyclic(Vec<Name>),
}

/// Levels of names, or the cycle of their calls that excludes them.
///
/// A guess is checked, so that good calls are judged at once. Where it does not serve, how many names have no way to each
/// name never rises along a call.
pub fn judge(alloc: Global, names: &[Name], edges: &[Edge]) -> Result<Answer, AllocError>
    requires { IsGraph names.now edges.now }
    ensures { IfOk result (IsRightAnswer names.now edges.now) }
{
    let levels = even_levels(alloc, names, edges)?;
    match first_cycle(alloc, names, edges, levels.as_slice())? {
        Some(cycle) => Ok(Answer::Cyclic(cycle)),
        None => Ok(Answer::Levelled(right_levels(alloc, names, edges, levels)?)),
    }
}

/// Levels that never rise along a call.
fn even_levels(alloc: Global, names: &[Name], edges: &[Edge]) -> Result<Vec<usize>, AllocError>
    requires { IsGraph names.now edges.now }
    ensures size { IfOk result (λ levels. length levels.items ≡ length names.now) }
    ensures no_higher { IfOk result (λ levels. NeverRise edges.now levels.items) }
{
    let levels = guess(alloc, names.len(), edges)?;
    if never_rise(edges, levels.as_slice()) {
        Ok(levels)
    } else {
        unreached(alloc, names, edges)
    }
}

/// Levels where no strict call lies on a cycle: these, which never rise, where they serve.
fn right_levels(
    alloc: Global,
    names: &[Name],
    edges: &[Edge],
    levels: Vec<usize>,
) -> Result<Vec<usize>, AllocError>
    requires graph { IsGraph names.now edges.now }
    requires sized { length levels.items ≡ length names.now }
    requires no_higher { NeverRise edges.now levels.items }
    requires no_cycle { HaveNoStrictCycle names.now edges.now edges.now }
    ensures { IfOk result (λ levels. AreRight names.now edges.now levels.items) }
{
    if are_lower(edges, levels.as_slice()) {
        Ok(levels)
    } else {
        unreached(alloc, names, edges)
    }
}

/// Whether each edge goes to no higher level.
fn never_rise(edges: &[Edge], levels: &[usize]) -> bool
    requires { All (λ edge. IsWithin (length levels.now) edge) edges.now }
    ensures { result ≡ list_all (is_no_higher levels.now) edges.now }
{
    for edge in edges {
        if levels[edge.callee] > levels[edge.caller] {
            return false;
        }
    }
    true
}

/// Whether each strict edge goes to a lower level.
fn are_lower(edges: &[Edge], levels: &[usize]) -> bool
    requires { All (λ edge. IsWithin (length levels.now) edge) edges.now }
    ensures { result ≡ list_all (is_lower levels.now) edges.now }
{
    for edge in edges {
        if edge.is_strict && levels[edge.callee] >= levels[edge.caller] {
            return false;
        }
    }
    true
}

/// The cycle of the first strict edge that lies on one, where calls go to no higher level.
fn first_cycle(
    alloc: Global,
    names: &[Name],
    edges: &[Edge],
    levels: &[usize],
) -> Result<Option<Vec<Name>>, AllocError>
    requires graph { IsGraph names.now edges.now }
    requires sized { length levels.now ≡ length names.now }
    requires no_higher { NeverRise edges.now levels.now }
    ensures { IfOk result (λ found. MatchOption found (HaveNoStrictCycle names.now edges.now edges.now) (λ cycle. IsStrictCycle (calls_by names.now edges.now) cycle.items)) }
{
    for edge in edges {
        if let Some(cycle) = strict_cycle_of(alloc, names, edges, levels, *edge)? {
            return Ok(Some(cycle));
        }
    }
    Ok(None)
}

/// The cycle of an edge that is strict and lies on one, where calls go to no higher level.
fn strict_cycle_of(
    alloc: Global,
    names: &[Name],
    edges: &[Edge],
    levels: &[usize],
    edge: Edge,
) -> Result<Option<Vec<Name>>, AllocError>
    requires graph { IsGraph names.now edges.now }
    requires sized { length levels.now ≡ length names.now }
    requires no_higher { NeverRise edges.now levels.now }
    requires in_names { IsWithin (length names.now) edge }
    ensures { IfOk result (λ found. MatchOption found (edge.is_strict ≡ true → IsOnNoCycle names.now edges.now edge) (λ cycle. IsStrictCycleOf names.now edges.now edge cycle.items)) }
{
    if !edge.is_strict {
        return Ok(None);
    }
    if levels[edge.callee] < levels[edge.caller] {
        return Ok(None);
    }
    cycle_of(alloc, names, edges, edge)
}

/// For each name how many names have no way to it.
fn unreached(alloc: Global, names: &[Name], edges: &[Edge]) -> Result<Vec<usize>, AllocError>
    requires { IsGraph names.now edges.now }
    ensures { IfOk result (λ levels. AreUnreached names.now edges.now levels.items) }
{
    let mut levels = Vec::new(alloc);
    for goal in 0..names.len() {
        let distances = distances(alloc, names, edges, goal)?;
        levels.push(count_missing(distances.as_slice()))?;
    }
    Ok(levels)
}

/// How many names have no distance.
fn count_missing(distances: &[Option<usize>]) -> usize
    ensures { result ≡ missing distances.now }
{
    distances
        .iter()
        .filter(|distance| distance.is_none())
        .count()
}
