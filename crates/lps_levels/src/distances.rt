ghost use Rattle.std.specs.Prelude.{◌≡◌, ◌+◌, ◌<◌, ◌≤◌, ℕ, suc, true, false, length, IfOk, Some};
ghost use Rattle.lps_levels.specs.Graphs.{IsGraph, IsWithin};
ghost use Rattle.lps_levels.specs.Distances.{AreDistances, AreDistancesTo, IsExtended, distance_at, is_at as is_at_of, missing};

use crate::edge::Edge;
use lps_terms::Name;
use std::alloc::{AllocError, Global};

/// How many calls the shortest way from each name to the goal has, where there is a way.
pub fn distances(
    alloc: Global,
    names: &[Name],
    edges: &[Edge],
    goal: usize,
) -> Result<Vec<Option<usize>>, AllocError>
    requires graph { IsGraph names.now edges.now }
    requires in_names { goal < length names.now }
    ensures { IfOk result (λ found. AreDistances names.now edges.now goal found.items) }
{
    let mut found = start(alloc, names, edges, goal)?;
    for depth in 0..names.len() {
        if !spread(names, edges, goal, depth, &mut found) {
            return Ok(found);
        }
    }
    Ok(found)
}

/// The distance of the goal alone.
fn start(
    alloc: Global,
    names: &[Name],
    edges: &[Edge],
    goal: usize,
) -> Result<Vec<Option<usize>>, AllocError>
    requires { goal < length names.now }
    ensures distances { IfOk result (λ found. AreDistancesTo 0 names.now edges.now goal found.items) }
    ensures count { IfOk result (λ found. missing found.items + 1 ≤ length names.now) }
{
    let mut found = vec![in alloc; None; names.len()]?;
    found[goal] = Some(0);
    Ok(found)
}

/// Gives each caller of a name at this depth the next one, where it has no distance, and says whether there is one.
fn spread(
    names: &[Name],
    edges: &[Edge],
    goal: usize,
    depth: usize,
    found: &mut Vec<Option<usize>>,
) -> bool
    requires graph { IsGraph names.now edges.now }
    requires before { AreDistancesTo depth names.now edges.now goal found.old.items }
    requires in_names { depth < length names.now }
    ensures after { AreDistancesTo (suc depth) names.now edges.now goal found.new.items }
    ensures more { result ≡ true → missing found.new.items < missing found.old.items }
    ensures done { result ≡ false → (number distance : ℕ) → distance_at found.new.items number ≡ Some distance → distance ≤ depth }
{
    let mut has_grown = false;
    for edge in edges {
        has_grown = extend(found, *edge, depth) || has_grown;
    }
    has_grown
}

/// Gives the caller of an edge the next distance, where it has none and the callee is at this depth, and says whether it did.
fn extend(found: &mut Vec<Option<usize>>, edge: Edge, depth: usize) -> bool
    requires in_names { IsWithin (length found.old.items) edge }
    requires fits { depth < length found.old.items }
    ensures { IsExtended depth edge found.old.items found.new.items result }
{
    if !is_at(found.as_slice(), edge.callee, depth) {
        return false;
    }
    if found[edge.caller].is_some() {
        return false;
    }
    found[edge.caller] = Some(depth + 1);
    true
}

/// Whether a name has this distance.
pub fn is_at(distances: &[Option<usize>], number: usize, distance: usize) -> bool
    requires { number < length distances.now }
    ensures { result ≡ is_at_of distances.now number distance }
{
    match distances[number] {
        Some(found) => found == distance,
        None => false,
    }
}
