//! The pending goals of a cycle that is being made, by number, and what they propose.
ghost use Rattle.std.specs.Prelude.{◌≡◌, ◌<◌, [], map, length, Contains, IfOk, MatchOption};
ghost use Rattle.std.specs.List.{HoldsAt};
ghost use Rattle.std.specs.List.Sorted.{IsStrictlySortedBy};
ghost use Rattle.std.specs.Ordering.{nat_cmp, on};
ghost use Rattle.lps_goaltrees.specs.Pursued.{AreReadyGoals};
ghost use Rattle.lps_cycle.specs.Candidates.{AreAsked, AreRising, groups_of, is_picked_among, number_of, numbers_of, proposers_of, unpicked, with_picks};

use lps_goaltrees::{Asked, Goals};
use lps_meaning::GoalId;
use lps_model::{Accepted, Group};
use sqlite_items::Items;
use std::alloc::{AllocError, Global};
use std::marker::Model;

/// A pending goal: what it proposes, and whether one of its proposals was picked.
#[derive(Drop)]
pub(crate) struct Candidate {
    pub goal: GoalId,
    pub proposals: Items<Group>,
    pub is_picked: bool,
}

/// The pending goals by rising number. Contracts see the candidates.
#[derive(Drop)]
pub(crate) struct Candidates {
    goals: Vec<GoalId>,
    candidates: Vec<Candidate>,
}

impl Model for Candidates {
    ghost use Rattle.lps_terms.specs.contracts.term.Term as term;
    ghost use Rattle.std.specs.Coded.{codes};
    ghost use Rattle.std.specs.Prelude.{◌≡◌, List, map};
    ghost use Rattle.lps_cycle.specs.declared.candidates.Candidate.{Candidate as Seen};
    ghost use Rattle.lps_cycle.specs.Candidates.{AreRising};

    ghost Value = { List Seen };

    ghost coded = { Prim.hlevel (codes, term.the_row.coded) };

    ghost view = { λ it. it.candidates.items };

    ghost invariant = { λ it. (it.goals.items ≡ map (λ candidate. candidate.goal) it.candidates.items) × AreRising it.candidates.items };
}

impl Candidates {
    /// No goal.
    pub(crate) fn new(alloc: Global) -> Candidates
        ensures { result ≡ [] }
    {
        Candidates {
            goals: Vec::new(alloc),
            candidates: Vec::new(alloc),
        }
    }

    /// Some goals, each of which is asked what it proposes at a time.
    pub(crate) fn ask(
        alloc: Global,
        text: &Accepted,
        time: u64,
        goals: &Goals,
    ) -> Result<Candidates, AllocError>
        requires ready { AreReadyGoals text.now goals.now.pursuit.goals }
        requires rising { IsStrictlySortedBy (on (λ goal. goal.goal.0) nat_cmp) goals.now.pursuit.goals }
        ensures { IfOk result (λ candidates. AreAsked text.now time goals.now.pursuit.goals candidates) }
    {
        let candidates = unpicked(alloc, goals.ask(alloc, text, time)?)?;
        let goals = goals_of(alloc, candidates.as_slice())?;
        Ok(Candidates { goals, candidates })
    }

    /// The goals.
    pub(crate) fn goals(&self) -> &[GoalId]
        ensures goals { map (λ goal. goal.0) result.now ≡ numbers_of self.now }
        ensures rising { AreRising self.now }
    {
        self.goals.as_slice()
    }

    /// What one of the goals proposes.
    pub(crate) fn proposals(&self, goal: GoalId) -> &[Group]
        requires { Contains (numbers_of self.now) goal.0 }
        ensures { result.now ≡ groups_of (proposers_of self.now) goal.0 }
    {
        match place_of(self.candidates.as_slice(), goal) {
            Some(place) => self.candidates[place].proposals.as_slice(),
            None => &[],
        }
    }

    /// Whether one of the goals has a pick.
    pub(crate) fn is_picked(&self, goal: GoalId) -> bool
        requires { Contains (numbers_of self.now) goal.0 }
        ensures { result ≡ is_picked_among self.now goal.0 }
    {
        match place_of(self.candidates.as_slice(), goal) {
            Some(place) => self.candidates[place].is_picked,
            None => false,
        }
    }

    /// Notes that one of the goals has a pick.
    pub(crate) fn pick(&mut self, goal: GoalId)
        requires { Contains (numbers_of self.old) goal.0 }
        ensures { self.new ≡ with_picks goal.0 self.old }
    {
        if let Some(place) = place_of(self.candidates.as_slice(), goal) {
            self.candidates[place].is_picked = true;
        }
    }

    /// No goal is left.
    pub(crate) fn clear(&mut self)
        ensures { self.new ≡ [] }
    {
        self.goals.truncate(0);
        self.candidates.truncate(0);
    }
}

/// Candidates of which nothing was picked yet.
fn unpicked(alloc: Global, asked: Vec<Asked>) -> Result<Vec<Candidate>, AllocError>
    ensures { IfOk result (λ candidates. candidates.items ≡ map unpicked asked.items) }
{
    let mut candidates = Vec::with_capacity(alloc, asked.len())?;
    for one in asked {
        candidates.push(Candidate {
            goal: one.goal,
            proposals: Items::from_vec(one.proposals),
            is_picked: false,
        })?;
    }
    Ok(candidates)
}

/// The goals of some candidates.
fn goals_of(alloc: Global, candidates: &[Candidate]) -> Result<Vec<GoalId>, AllocError>
    ensures { IfOk result (λ goals. goals.items ≡ map (λ candidate. candidate.goal) candidates.now) }
{
    candidates
        .iter()
        .map(|candidate| candidate.goal)
        .collect(alloc)
}

/// Where the candidate with a goal is.
fn place_of(candidates: &[Candidate], goal: GoalId) -> Option<usize>
    requires rising { AreRising candidates.now }
    ensures { MatchOption result (Contains (numbers_of candidates.now) goal.0 → ⊥) (λ place. (place < length candidates.now) × HoldsAt (λ candidate. number_of candidate ≡ goal.0) candidates.now place) }
{
    candidates
        .binary_search_by_key(&goal.0, |candidate| candidate.goal.0)
        .ok()
}
