//! What is gathered for a cycle.
ghost use Rattle.std.specs.Prelude.{◌≡◌, [], IfOk, OnOk};
ghost use Rattle.std.specs.List.Sorted.{IsStrictlySortedBy};
ghost use Rattle.lps_meaning.specs.Cycles.{key_cmp};
ghost use Rattle.lps_antecedents.specs.Gathered.{Gains, IsKeyOf, IsLeftFor, key_of, numbers_in};

use crate::held::Held;
use crate::keyed::Keyed;
use lps_meaning::{Carry, GoalKey, Node, When};
use lps_seq::Stepped;
use sqlite_items::Items;
use std::alloc::{AllocError, Global};
use std::collections::BTreeSet;

/// What waits from now on, and the keys of the antecedents that come true, in order.
#[derive(Drop)]
pub(crate) struct Gathered {
    held: Vec<Held>,
    keys: BTreeSet<Keyed>,
}

impl Gathered {
    pub(crate) fn new(alloc: Global) -> Gathered
        ensures held { result.held.items ≡ [] }
        ensures keys { result.keys.keys ≡ [] }
    {
        Gathered {
            held: Vec::new(alloc),
            keys: BTreeSet::new(alloc),
        }
    }

    /// Adds what the antecedent of the rule of this number comes to at a time.
    pub(crate) fn add(
        &mut self,
        alloc: Global,
        rule: u32,
        time: u64,
        stepped: Stepped,
    ) -> Result<(), AllocError>
        ensures held { OnOk result (Gains self.old.held.items self.new.held.items (IsLeftFor rule stepped.nodes.items)) }
        ensures keys { OnOk result (Gains self.old.keys.keys self.new.keys.keys (IsKeyOf rule time stepped.ended.items)) }
    {
        let Stepped { nodes, ended, .. } = stepped;
        add_nodes(rule, nodes, &mut self.held)?;
        add_keys(alloc, rule, time, ended, &mut self.keys)
    }

    /// What waits, and the keys in order.
    pub(crate) fn into_parts(self, alloc: Global) -> Result<(Vec<Held>, Vec<GoalKey>), AllocError>
        ensures held { IfOk result (λ parts. parts.0.items ≡ self.held.items) }
        ensures keys { IfOk result (λ parts. parts.1.items ≡ self.keys.keys) }
        ensures sorted { IfOk result (λ parts. IsStrictlySortedBy key_cmp parts.1.items) }
    {
        let Gathered { held, keys } = self;
        let keys = in_order(alloc, keys)?;
        Ok((held, keys))
    }
}

fn add_nodes(rule: u32, nodes: Vec<Node>, held: &mut Vec<Held>) -> Result<(), AllocError>
    ensures { OnOk result (Gains held.old.items held.new.items (IsLeftFor rule nodes.items)) }
{
    for node in nodes {
        held.push(Held { rule, node })?;
    }
    Ok(())
}

fn add_keys(
    alloc: Global,
    rule: u32,
    time: u64,
    ended: Vec<Carry>,
    keys: &mut BTreeSet<Keyed>,
) -> Result<(), AllocError>
    ensures { OnOk result (Gains keys.old.keys keys.new.keys (IsKeyOf rule time ended.items)) }
{
    for carry in ended {
        add_key(alloc, rule, time, carry, keys)?;
    }
    Ok(())
}

fn add_key(
    alloc: Global,
    rule: u32,
    time: u64,
    carry: Carry,
    keys: &mut BTreeSet<Keyed>,
) -> Result<(), AllocError>
    ensures { OnOk result (Gains keys.old.keys keys.new.keys (λ k. k ≡ key_of rule time carry)) }
{
    let times = known_times(alloc, carry.times.as_slice())?;
    keys.insert(Keyed::new(GoalKey {
        rule,
        values: carry.values,
        times,
        time,
    }))?;
    Ok(())
}

/// The numbers of the times that are known: all those of an instance that ended.
fn known_times(alloc: Global, times: &[When]) -> Result<Items<u64>, AllocError>
    ensures { IfOk result (λ numbers. numbers ≡ numbers_in times.now) }
{
    let mut numbers = Items::new(alloc);
    for time in times {
        if let When::Known(number) = time {
            numbers.push(*number)?;
        }
    }
    Ok(numbers)
}

fn in_order(alloc: Global, keys: BTreeSet<Keyed>) -> Result<Vec<GoalKey>, AllocError>
    ensures all { IfOk result (λ list. list.items ≡ keys.keys) }
    ensures sorted { IfOk result (λ list. IsStrictlySortedBy key_cmp list.items) }
{
    let _count = keys.len();
    let mut list = Vec::new(alloc);
    for keyed in keys {
        list.push(keyed.into_key())?;
    }
    Ok(list)
}
