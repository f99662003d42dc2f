ghost use Rattle.std.specs.Prelude.{◌≡◌, ◌≤◌, ◌↔◌, ℕ, IfOk, OnOk, Contains, IsTrue};
ghost use Rattle.std.specs.List.{AllByRecursion};
ghost use Rattle.lps_residual.specs.Moments.{IsReady};
ghost use Rattle.lps_goaltrees.specs.Offers.{AddsGroup, AddsOffer, AreFirsts, AreOffers, AreProposed};
ghost use Rattle.lps_goaltrees.specs.Pursued.{AreReadyNodes};

use crate::goal::Goal;
use crate::offer::Offer;
use lps_meaning::Node;
use lps_model::{Accepted, Group};
use lps_residual::proposal;
use sqlite_items::Items;
use std::alloc::{AllocError, Global};
use std::cmp::Ordering;
use std::collections::BTreeSet;

/// What a goal proposes: the groups of actions that are the next step of one of its nodes with the most groups done, and may begin at
/// this time. They stand in the order in which they are preferred, by alternative, rank and group, each once at its first place. The
/// nodes are those that are left at this time.
///
/// # Errors
/// `AllocError` where memory runs out.
pub(crate) fn proposals(
    alloc: Global,
    text: &Accepted,
    goal: &Goal,
    time: u64,
) -> Result<Vec<Group>, AllocError>
    requires ready { AreReadyNodes text.now goal.now.nodes }
    ensures { IfOk result (λ groups. AreProposed text.now time goal.now.nodes groups.items) }
{
    let offers = offers(alloc, text, goal.nodes.as_slice(), time)?;
    firsts(alloc, offers)
}

/// What nodes propose.
fn offers(
    alloc: Global,
    text: &Accepted,
    nodes: &[Node],
    time: u64,
) -> Result<BTreeSet<Offer>, AllocError>
    requires ready { AreReadyNodes text.now nodes.now }
    ensures { IfOk result (λ offers. AreOffers text.now time nodes.now offers.keys) }
{
    let most = most_done(nodes);
    let mut offers = BTreeSet::new(alloc);
    for node in nodes {
        add_offer(alloc, text, node, most, time, &mut offers)?;
    }
    Ok(offers)
}

/// The greatest number of groups done.
fn most_done(nodes: &[Node]) -> u32
    ensures above { AllByRecursion (λ node. node.done ≤ result) nodes.now }
    ensures least { (bound : ℕ) → AllByRecursion (λ node. node.done ≤ bound) nodes.now → result ≤ bound }
{
    let mut most = 0u32;
    for node in nodes {
        most = most.max(node.done);
    }
    most
}

/// Adds what a node proposes, if it has so many groups done.
fn add_offer(
    alloc: Global,
    text: &Accepted,
    node: &Node,
    most: u32,
    time: u64,
    offers: &mut BTreeSet<Offer>,
) -> Result<(), AllocError>
    requires ready { IsReady text.now node.now }
    ensures { OnOk result (AddsOffer text.now time most node.now offers.old.keys offers.new.keys) }
{
    if node.done != most {
        return Ok(());
    }
    if let Some(group) = proposal(alloc, text, node, time)? {
        let rank = Items::from_slice(alloc, node.rank.as_slice())?;
        offers.insert(Offer::new(node.alternative, rank, group))?;
    }
    Ok(())
}

/// The groups of proposals in their order, each once at its first place.
fn firsts(alloc: Global, offers: BTreeSet<Offer>) -> Result<Vec<Group>, AllocError>
    ensures { IfOk result (λ groups. AreFirsts offers.keys groups.items) }
{
    let _count = offers.len();
    let mut groups = Vec::new(alloc);
    for offer in offers {
        add_group(offer.into_group(), &mut groups)?;
    }
    Ok(groups)
}

/// Adds a group where it is new.
fn add_group(group: Group, groups: &mut Vec<Group>) -> Result<(), AllocError>
    ensures { OnOk result (AddsGroup group groups.old.items groups.new.items) }
{
    if !has(groups.as_slice(), &group) {
        groups.push(group)?;
    }
    Ok(())
}

fn has(groups: &[Group], group: &Group) -> bool
    ensures { IsTrue result ↔ Contains groups.now group.now }
{
    for other in groups {
        if is_same(group, other) {
            return true;
        }
    }
    false
}

fn is_same(group: &Group, other: &Group) -> bool
    ensures { IsTrue result ↔ (group.now ≡ other.now) }
{
    match group.atoms.as_slice().cmp(other.atoms.as_slice()) {
        Ordering::Equal => true,
        Ordering::Less => false,
        Ordering::Greater => false,
    }
}
