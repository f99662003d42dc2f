ghost use Rattle.std.specs.Prelude.{◌≡◌, ◌≤◌, [], ℕ, suc, List, true, false, length, IfOk, MatchOption, OnErr, OnOk, Contains};
ghost use Rattle.std.specs.List.{AllZip, filter};
ghost use Rattle.lps_meaning.specs.Reports.{is_pending};
ghost use Rattle.lps_terms.specs.declared.atom.Atom.{Atom as Fluent};
ghost use Rattle.lps_terms.specs.declared.text.Text.{Text};
ghost use Rattle.lps_model.specs.declared.trace.Trace.{Trace};
ghost use Rattle.lps_facts.specs.Facts.{members};
ghost use Rattle.lps_solve.specs.Met.{AreGround};
ghost use Rattle.lps_sizes.specs.Sizes.{limited};
ghost use Rattle.lps_unify.specs.Bindings.{count_of};
ghost use Rattle.lps_goaltrees.specs.declared.goal.Goal.{Goal as Followed};
ghost use Rattle.lps_goaltrees.specs.Offers.{IsAskedOf};
ghost use Rattle.lps_goaltrees.specs.Followed.{AreCallFree, Closes, IsAdded, IsKeyOfGoal, IsLedOn, Pursues};
ghost use Rattle.lps_goaltrees.specs.Pursued.{AreReadyGoals, IsReadyPursued, closed_as, first_pursuit, goals_size, left_by_close};

use crate::asked::{Asked, ask_all};
use crate::following::{advanced, begun};
use crate::goal::Goal;
use crate::slot::{Slot, Which};
use crate::slots::{close_all, closings, count, goal_at, put_all, settle_all, sweep, tidy};
use crate::symbols::symbols;
use crate::table::{Table, find_all_by, find_by};
use lps_facts::Facts;
use lps_meaning::{Closed, GoalId, GoalKey};
use lps_model::Accepted;
use lps_seq::rest_law;
use lps_solve::Program;
use lps_statuses::status_law;
use lps_terms::Atom;
use lps_unify::Bindings;
use std::alloc::{AllocError, Global};
use std::collections::BTreeSet;
use std::marker::Model;
use std::mem::replace;

/// The goals that are pursued.
#[derive(Drop)]
pub struct Goals {
    slots: Vec<Slot>,
    /// Which goals a wake wakes.
    table: Table,
    /// The numbers of the goals that were changed since goals were closed last, or by the last cycle where none was.
    changed: BTreeSet<u64>,
    /// At this many slots those are dropped that have no goal.
    most: usize,
    /// The number of the next goal that is added.
    next: u64,
    /// What that was before these changes.
    before: u64,
    /// Whether nothing was changed since goals were closed last.
    is_settled: bool,
}

impl Model for Goals {
    ghost use Rattle.lps_terms.specs.contracts.term.Term as term;
    ghost use Rattle.lps_terms.specs.contracts.expr.Expr as expr;
    ghost use Rattle.std.specs.Coded.{codes};
    ghost use Rattle.std.specs.Prelude.{◌≡◌, true};
    ghost use Rattle.lps_goaltrees.specs.declared.slot.Which.TheVariants.{Before, Now};
    ghost use Rattle.lps_goaltrees.specs.Pursued.{Pursued};
    ghost use Rattle.lps_goaltrees.specs.Slots.{ArePending, IsStored, goals_of};

    ghost Value = { Pursued };

    ghost coded = { Prim.hlevel (codes, term.the_row.coded, expr.the_row.coded) };

    ghost view = { λ it. record {
      pursuit = record { goals = goals_of Now it.slots.items; next = it.next };
      before = record { goals = goals_of Before it.slots.items; next = it.before };
      is_settled = it.is_settled;
    } };

    ghost invariant = { λ it. IsStored Before it.before it.next it.table it.changed.keys it.slots.items × (it.is_settled ≡ true → ArePending it.slots.items) };
}

impl Goals {
    /// No goal yet; the first one that is added has number 1.
    pub fn new(alloc: Global) -> Goals
        ensures value { result ≡ record { pursuit = first_pursuit; before = first_pursuit; is_settled = true } }
        ensures ready { (text : Text) → IsReadyPursued text result }
        ensures pursues { (text : Text) (level : List ℕ → ℕ) (trace : Trace) (depth : ℕ) → Pursues text level trace depth 0 [] result.pursuit }
    {
        Goals {
            slots: Vec::new(alloc),
            table: Table::new(alloc),
            changed: BTreeSet::new(alloc),
            most: 64,
            next: 1,
            before: 1,
            is_settled: true,
        }
    }

    /// How many goals were not closed.
    pub fn count(&self) -> usize
        ensures { result ≡ length self.now.pursuit.goals }
    {
        count(self.slots.as_slice())
    }

    /// How many symbols the goals that were not closed have with their nodes. `u64::MAX` stands for that number and all above.
    pub fn symbols(&self) -> u64
        ensures { result ≡ limited (goals_size self.now.pursuit.goals) }
    {
        symbols(self.slots.as_slice())
    }

    /// The goal with a number, where it was not closed.
    pub fn goal(&self, goal: GoalId) -> Option<&Goal>
        ensures { MatchOption result ((g : Followed) → Contains self.now.pursuit.goals g → g.goal ≡ goal → ⊥) (λ g. Contains self.now.pursuit.goals g.now × (g.now.goal ≡ goal)) }
    {
        goal_at(self.slots.as_slice(), goal.0, Which::Now)
    }

    /// What each of the goals proposes at a time, by rising number. A goal with no action as a next step takes no memory for it.
    ///
    /// # Errors
    /// `AllocError` where memory runs out.
    pub fn ask(&self, alloc: Global, text: &Accepted, time: u64) -> Result<Vec<Asked>, AllocError>
        requires ready { AreReadyGoals text.now self.now.pursuit.goals }
        ensures { IfOk result (λ asked. AllZip (IsAskedOf text.now time) self.now.pursuit.goals asked.items) }
    {
        ask_all(alloc, text, self.slots.as_slice(), time)
    }

    /// Adds a new goal with the next number, and with what its alternatives are entered with. The facts are the state of the goal's
    /// time. The bindings have no variables, and are as before on every way out.
    ///
    /// # Errors
    /// `AllocError` where memory runs out, or no number is left.
    pub fn add(
        &mut self,
        alloc: Global,
        program: &Program,
        depth: u32,
        key: GoalKey,
        facts: &Facts,
        bindings: &mut Bindings,
    ) -> Result<GoalId, AllocError>
        requires depth { (1 ≤ depth) × (depth ≤ 1000) }
        requires text { AreCallFree program.now }
        requires key { IsKeyOfGoal program.now key }
        requires time { key.time ≤ 1000000 }
        requires ground { (a : Fluent) → Contains (members facts.now) a → AreGround a.args }
        requires none { count_of bindings.now ≡ 0 }
        requires ready { IsReadyPursued program.now self.old }
        ensures number { IfOk result (λ goal. goal.0 ≡ self.old.pursuit.next) }
        ensures next { OnOk result (self.new.pursuit.next ≡ suc self.old.pursuit.next) }
        ensures pursues { OnOk result (IsAdded program.now depth key (members facts.now) self.old.pursuit self.new.pursuit) }
        ensures err { OnErr result (self.new.pursuit ≡ self.old.pursuit) }
        ensures before { left_by_close self.new ≡ left_by_close self.old }
        ensures unsettled { self.old.is_settled ≡ false → self.new.is_settled ≡ false }
        ensures ready { IsReadyPursued program.now self.new }
        ensures same { bindings.new ≡ bindings.old }
    {
        program.lawful();
        let number = self.next;
        let next = number.checked_add(1).ok_or(AllocError)?;
        let goal = begun(alloc, program, depth, GoalId(number), key, facts, bindings)?;
        self.unsettle(alloc);
        find_by(alloc, &mut self.table, &goal)?;
        self.changed.insert(number)?;
        self.slots.push(Slot::new(goal))?;
        self.next = next;
        Ok(GoalId(number))
    }

    /// Advances the goals that were left by the cycle before to this time. The facts are the state at this time, and the events are
    /// those of the cycle that ends at it. The bindings have no variables, and are as before on every way out.
    ///
    /// # Errors
    /// `AllocError` where memory runs out, or no number is left for a variable.
    pub fn advance(
        &mut self,
        alloc: Global,
        program: &Program,
        depth: u32,
        time: u64,
        facts: &Facts,
        events: &[Atom],
        bindings: &mut Bindings,
    ) -> Result<(), AllocError>
        requires depth { (1 ≤ depth) × (depth ≤ 1000) }
        requires time { (1 ≤ time) × (time ≤ 1000000) }
        requires ground { (a : Fluent) → Contains (members facts.now) a → AreGround a.args }
        requires events { (a : Fluent) → Contains events.now a → AreGround a.args }
        requires none { count_of bindings.now ≡ 0 }
        requires ready { IsReadyPursued program.now self.old }
        requires settled { self.old.is_settled ≡ true }
        ensures led_on { OnOk result (IsLedOn program.now depth time (members facts.now) events.now self.old.pursuit self.new.pursuit) }
        ensures before { left_by_close self.new ≡ left_by_close self.old }
        ensures unsettled { OnOk result (self.new.is_settled ≡ false) }
        ensures err { OnErr result (self.new ≡ self.old) }
        ensures ready { IsReadyPursued program.now self.new }
        ensures same { bindings.new ≡ bindings.old }
    {
        program.lawful();
        rest_law();
        let touched = self.table.touched(alloc, time, events)?;
        let slots = self.slots.as_slice();
        let goals = advanced(
            alloc, program, depth, slots, &touched, time, facts, events, bindings,
        )?;
        find_all_by(alloc, &mut self.table, goals.as_slice())?;
        let changed = replace(&mut self.changed, touched);
        settle_all(&mut self.slots, &changed, Which::Now);
        put_all(&mut self.slots, goals);
        self.most = tidy(&mut self.slots, &mut self.table, &changed, self.most);
        self.before = self.next;
        self.is_settled = false;
        Ok(())
    }

    /// Gives the goals that are no longer pending, by number, and drops them.
    ///
    /// # Errors
    /// `AllocError` where memory runs out.
    pub fn close(&mut self, alloc: Global) -> Result<Vec<(GoalId, Closed)>, AllocError>
        ensures closes { IfOk result (λ closed. Closes self.old.pursuit self.new.pursuit closed.items) }
        ensures before { OnOk result (self.new.before ≡ left_by_close self.old) }
        ensures settled { OnOk result (self.new.is_settled ≡ true) }
        ensures err { OnErr result (self.new ≡ self.old) }
        ensures ready { (text : Text) → IsReadyPursued text self.old → IsReadyPursued text self.new }
    {
        status_law();
        let closed = closings(alloc, self.slots.as_slice(), &self.changed)?;
        self.keep_pending(alloc);
        Ok(closed)
    }

    /// Takes back what was changed since the last close, or the last cycle where nothing was. It takes no memory.
    pub fn undo(&mut self)
        ensures back { self.new.pursuit ≡ self.old.before }
        ensures settled { self.new.is_settled ≡ true }
        ensures ready { (text : Text) → IsReadyPursued text self.old → IsReadyPursued text self.new }
    {
        settle_all(&mut self.slots, &self.changed, Which::Before);
        self.most = tidy(&mut self.slots, &mut self.table, &self.changed, self.most);
        sweep(&mut self.slots);
        self.changed.clear();
        self.next = self.before;
        self.is_settled = true;
    }

    /// Drops the goals that are no longer pending. What the last close left is what `undo` leads back to from now on.
    fn keep_pending(&mut self, alloc: Global)
        ensures goals { self.new.pursuit.goals ≡ filter (λ goal. is_pending (closed_as goal)) self.old.pursuit.goals }
        ensures next { self.new.pursuit.next ≡ self.old.pursuit.next }
        ensures before { self.new.before ≡ left_by_close self.old }
        ensures settled { self.new.is_settled ≡ true }
        ensures ready { (text : Text) → IsReadyPursued text self.old → IsReadyPursued text self.new }
    {
        if self.is_settled {
            self.commit(alloc);
            return;
        }
        close_all(&mut self.slots, &self.changed);
        self.is_settled = true;
    }

    /// What the last close left is what `undo` leads back to from now on, before the first change after it.
    fn unsettle(&mut self, alloc: Global)
        ensures pursuit { self.new.pursuit ≡ self.old.pursuit }
        ensures before { self.new.before ≡ left_by_close self.old }
        ensures settled { self.new.is_settled ≡ false }
        ensures ready { (text : Text) → IsReadyPursued text self.old → IsReadyPursued text self.new }
    {
        if !self.is_settled {
            return;
        }
        self.commit(alloc);
        self.is_settled = false;
    }

    /// What the last close left is what `undo` leads back to from now on.
    fn commit(&mut self, alloc: Global)
        requires settled { self.old.is_settled ≡ true }
        ensures pursuit { self.new.pursuit ≡ self.old.pursuit }
        ensures before { self.new.before ≡ self.old.pursuit }
        ensures settled { self.new.is_settled ≡ true }
        ensures ready { (text : Text) → IsReadyPursued text self.old → IsReadyPursued text self.new }
    {
        let changed = replace(&mut self.changed, BTreeSet::new(alloc));
        settle_all(&mut self.slots, &changed, Which::Now);
        self.most = tidy(&mut self.slots, &mut self.table, &changed, self.most);
        self.before = self.next;
    }
}
