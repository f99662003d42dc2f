//! A guess of levels: the names that call one another in cycles, in the order in which a depth-first search closes them.
//! Callees are closed before their callers. Nothing is proved of the guess; who uses it checks it.

ghost use Rattle.std.specs.Prelude.{◌≡◌, length, IfOk};

use crate::edge::Edge;
use std::alloc::{AllocError, Global};

/// A level for each of `count` names.
pub fn guess(alloc: Global, count: usize, edges: &[Edge]) -> Result<Vec<usize>, AllocError>
    ensures { IfOk result (λ levels. length levels.items ≡ count) }
{
    let mut search = Search::new(alloc, count, edges)?;
    let steps = count.saturating_mul(2).saturating_add(edges.len());
    for _ in 0..steps {
        search.step(edges)?;
    }
    let mut levels = Vec::new(alloc);
    for name in 0..count {
        levels.push(search.level(name))?;
    }
    Ok(levels)
}

/// What a search knows of a name.
#[derive(Clone, Copy)]
struct Visit {
    /// When it was first met, counted from 1; 0 where it was not.
    order: usize,
    /// The least order of a name that is open and is reached from here.
    low: usize,
    level: usize,
    /// The edge to follow next.
    next: Option<usize>,
}

const UNSEEN: Visit = Visit {
    order: 0,
    low: 0,
    level: 0,
    next: None,
};

/// A search from each name in turn, down the calls.
#[derive(Drop)]
struct Search {
    visits: Vec<Visit>,
    /// For each edge the next one with the same caller.
    following: Vec<Option<usize>>,
    /// The names on the way to where the search is.
    path: Vec<usize>,
    /// The names that were met and are not closed.
    open: Vec<usize>,
    root: usize,
    met: usize,
    closed: usize,
}

impl Search {
    fn new(alloc: Global, count: usize, edges: &[Edge]) -> Result<Search, AllocError> {
        let mut visits = vec![in alloc; UNSEEN; count]?;
        let mut following = Vec::new(alloc);
        for (number, edge) in edges.iter().enumerate() {
            let before = match visits.get_mut(edge.caller) {
                Some(visit) => visit.next.replace(number),
                None => None,
            };
            following.push(before)?;
        }
        Ok(Search {
            visits,
            following,
            path: Vec::new(alloc),
            open: Vec::new(alloc),
            root: 0,
            met: 0,
            closed: 0,
        })
    }

    fn visit(&self, name: usize) -> Visit {
        self.visits.get(name).copied().unwrap_or(UNSEEN)
    }

    fn level(&self, name: usize) -> usize {
        self.visit(name).level
    }

    /// Follows one edge, closes one name, or goes on to the next name.
    fn step(&mut self, edges: &[Edge]) -> Result<(), AllocError> {
        match self.path.last().copied() {
            None => {
                let root = self.root;
                self.root = root.saturating_add(1);
                self.meet(root)
            }
            Some(name) => match self.take_edge(name, edges) {
                Some(edge) => {
                    self.meet(edge.callee)?;
                    self.lower(name, edge.callee);
                    Ok(())
                }
                None => {
                    self.close(name);
                    Ok(())
                }
            },
        }
    }

    /// The next edge from a name.
    fn take_edge(&mut self, name: usize, edges: &[Edge]) -> Option<Edge> {
        let number = self.visit(name).next?;
        let next = self.following.get(number).copied().unwrap_or(None);
        if let Some(visit) = self.visits.get_mut(name) {
            visit.next = next;
        }
        edges.get(number).copied()
    }

    /// Opens a name that was not met before.
    fn meet(&mut self, name: usize) -> Result<(), AllocError> {
        if let Some(visit) = self.visits.get_mut(name) {
            if visit.order == 0 {
                self.met = self.met.saturating_add(1);
                visit.order = self.met;
                visit.low = self.met;
                self.path.push(name)?;
                self.open.push(name)?;
            }
        }
        Ok(())
    }

    /// Notes that a name reaches what another reaches.
    fn lower(&mut self, name: usize, other: usize) {
        let low = self.visit(other).low;
        if let Some(visit) = self.visits.get_mut(name) {
            visit.low = visit.low.min(low);
        }
    }

    /// Leaves a name all of whose edges were followed. Where it reaches no open name from before it, all names that were
    /// opened since have the same level.
    fn close(&mut self, name: usize) {
        self.path.pop();
        let visit = self.visit(name);
        if visit.low == visit.order {
            self.close_since(name);
        }
        if let Some(caller) = self.path.last().copied() {
            self.lower(caller, name);
        }
    }

    /// Closes the names that were opened since this one, and it.
    fn close_since(&mut self, name: usize) {
        for _ in 0..self.open.len() {
            let Some(other) = self.open.pop() else {
                break;
            };
            if let Some(visit) = self.visits.get_mut(other) {
                visit.level = self.closed;
                visit.low = usize::MAX;
            }
            if other == name {
                break;
            }
        }
        self.closed = self.closed.saturating_add(1);
    }
}
