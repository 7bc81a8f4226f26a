// The walk over nodes from a start.
ghost use Rattle.std.specs.Prelude.{◌≡◌, IfOk, OnOk, true, false, List, ◌&&◌, option_map, ◌++◌, ◌∷◌, IfSome, [], None, ◌||◌, length};
ghost use Rattle.std.specs.List.{All, list_any};
ghost use Rattle.dae_guard.specs.Moves.{next_nodes};
ghost use Rattle.dae_guard.specs.Nodes.{is_covered, is_final, same_counter, registers_within, side_within, covers};
ghost use Rattle.dae_guard.specs.Walk.{terms_of, walk_start, walk as walk_of};
ghost use Rattle.dae_guard.specs.Kept.{AreProper, HasRoom};
ghost use Rattle.dae_guard_walk.specs.Spots.{Holds, node_of, nodes_of, side_of};
ghost use Rattle.dae_guard_walk.specs.Steps.{AreFine, GoesOn, IsFine, entered_node, left_of, stepped};
ghost use Rattle.dae_guard_walk.specs.Answers.{AreKnown, BothHold, KnownHolds, walked_of};
ghost use Rattle.dae_encode.specs.declared.QueueUse.{QueueUse};
ghost use Rattle.dae_guard_walk.specs.Picks.{node_behind, nodes_after};
ghost use Rattle.dae_guard_walk.specs.Visits.{IsVisit, WentOn};

use crate::instructions::{Sure, Terms};
use crate::sides::{SideOutcome, SideSpot};
use dae_base::Side;
use dae_certificate::{CertificateNode, SideNode};
use dae_encode::QueueUse;
use dae_guard::RangeQueues;
use dae_ranges::{Range, within};
use std::alloc::{AllocError, Global};

/// So many nodes may be walked behind a start.
const MOST_WALKED: u32 = 9_999;

/// A node.
#[derive(Drop)]
pub struct NodeSpot {
    pub a: SideSpot,
    pub e: SideSpot,
    pub queues: RangeQueues,
}

/// How a walk ended.
#[derive(Clone, Copy, PartialEq, Eq)]
pub enum Walked {
    /// At final and covered nodes alone.
    Ends,
    /// At a node without a sure pick: its counters.
    Halts(Option<u32>, Option<u32>),
    /// Too many nodes.
    Passes,
}

impl NodeSpot {
    /// Both sides have halted, no store waits, and every slot is filled.
    pub fn is_final(&self) -> bool
        ensures { result ≡ is_final (node_of self.now) }
    {
        self.a.counter.is_none() && self.e.counter.is_none() && self.queues.are_settled()
    }

    /// The same node once more.
    fn try_clone(&self, alloc: Global) -> Result<NodeSpot, AllocError>
        requires { Holds self.now }
        ensures is { IfOk result (λ s. node_of s ≡ node_of self.now) }
        ensures room { IfOk result (λ s. (u : QueueUse) → HasRoom u self.now.queues
            → HasRoom u s.queues) }
        ensures holds { IfOk result Holds }
    {
        Ok(NodeSpot {
            a: self.a,
            e: self.e,
            queues: self.queues.try_clone(alloc)?,
        })
    }

    /// The node after an access of a side and what it leaves.
    fn after(
        self,
        side: Side,
        access: QueueUse,
        outcome: SideOutcome,
    ) -> Result<NodeSpot, AllocError>
        requires holds { Holds self }
        requires room { HasRoom access self.queues }
        requires fine { IsFine outcome }
        ensures is { IfOk result (λ s. node_of s
            ≡ entered_node side access (node_of self) (left_of outcome)) }
        ensures holds { IfOk result Holds }
    {
        let NodeSpot { a, e, mut queues } = self;
        queues.use_queue(access, outcome.pushed)?;
        Ok(match side {
            Side::A => NodeSpot {
                a: outcome.side,
                e,
                queues,
            },
            Side::E => NodeSpot {
                a,
                e: outcome.side,
                queues,
            },
        })
    }
}

/// Puts the nodes after the first sure pick of a node (one of memory, one of E, one of A) on the stack, the first one last,
/// and says whether there is one.
///
/// # Errors
///
/// Memory was wanting.
fn go_on(
    alloc: Global,
    terms: &Terms,
    spot: NodeSpot,
    ahead: &mut Vec<NodeSpot>,
) -> Result<bool, AllocError>
    requires spot { Holds spot }
    requires ahead { All Holds ahead.old.items }
    ensures is { IfOk result (λ sure. GoesOn sure
        (next_nodes (terms_of terms.now.image.now terms.now.depths) (node_of spot))
        (nodes_of ahead.old.items) (nodes_of ahead.new.items)) }
    ensures holds { OnOk result (All Holds ahead.new.items) }
{
    let NodeSpot { a, e, mut queues } = spot;
    if queues.serve() {
        ahead.push(NodeSpot { a, e, queues })?;
        return Ok(true);
    }
    let sure = step(alloc, terms, NodeSpot { a, e, queues }, ahead)?;
    Ok(sure)
}

/// Puts the nodes after a sure pick of E, or else of A, on the stack, and says whether there is one.
fn step(
    alloc: Global,
    terms: &Terms,
    spot: NodeSpot,
    ahead: &mut Vec<NodeSpot>,
) -> Result<bool, AllocError>
    requires spot { Holds spot }
    requires ahead { All Holds ahead.old.items }
    ensures is { IfOk result (λ sure. GoesOn sure
        (stepped (terms_of terms.now.image.now terms.now.depths) (node_of spot))
        (nodes_of ahead.old.items) (nodes_of ahead.new.items)) }
    ensures holds { OnOk result (All Holds ahead.new.items) }
{
    match first_sure(terms, &spot) {
        None => Ok(false),
        Some(sure) => {
            enter(alloc, spot, sure, ahead)?;
            Ok(true)
        }
    }
}

/// The instruction of E, or else that of A, that is sure.
fn first_sure(terms: &Terms, spot: &NodeSpot) -> Option<Sure>
    requires { Holds spot.now }
    ensures is { option_map (nodes_after (node_of spot.now)) result
        ≡ stepped (terms_of terms.now.image.now terms.now.depths) (node_of spot.now) }
    ensures room { IfSome result (λ s. HasRoom s.access spot.now.queues) }
    ensures fine { IfSome result (λ s. AreFine s.outcomes) }
{
    match terms.next_sure(&spot.queues, &spot.e, Side::E) {
        Some(sure) => Some(sure),
        None => terms.next_sure(&spot.queues, &spot.a, Side::A),
    }
}

/// Puts the nodes after a sure instruction of a side on the stack, the first one last.
fn enter(
    alloc: Global,
    spot: NodeSpot,
    sure: Sure,
    ahead: &mut Vec<NodeSpot>,
) -> Result<(), AllocError>
    requires spot { Holds spot }
    requires room { HasRoom sure.access spot.queues }
    requires fine { AreFine sure.outcomes }
    requires ahead { All Holds ahead.old.items }
    ensures is { OnOk result (nodes_of ahead.new.items
        ≡ nodes_after (node_of spot) sure ++ nodes_of ahead.old.items) }
    ensures holds { OnOk result (All Holds ahead.new.items) }
{
    match sure.outcomes.second {
        None => put(spot, sure, sure.outcomes.first, ahead),
        Some(second) => {
            let twin = spot.try_clone(alloc)?;
            put_both(spot, twin, sure, second, ahead)
        }
    }
}

/// Puts the nodes after both outcomes of a test on the stack, the first one last.
fn put_both(
    spot: NodeSpot,
    twin: NodeSpot,
    sure: Sure,
    second: SideOutcome,
    ahead: &mut Vec<NodeSpot>,
) -> Result<(), AllocError>
    requires spot { Holds spot }
    requires twin { Holds twin }
    requires same { node_of twin ≡ node_of spot }
    requires room { HasRoom sure.access spot.queues }
    requires room_twice { HasRoom sure.access twin.queues }
    requires fine { AreFine sure.outcomes }
    requires fine_too { IsFine second }
    requires ahead { All Holds ahead.old.items }
    ensures is { OnOk result (nodes_of ahead.new.items
        ≡ node_behind sure (node_of spot) sure.outcomes.first
        ∷ (node_behind sure (node_of spot) second ∷ nodes_of ahead.old.items)) }
    ensures holds { OnOk result (All Holds ahead.new.items) }
{
    put(twin, sure, second, ahead)?;
    put(spot, sure, sure.outcomes.first, ahead)?;
    Ok(())
}

/// Puts the node after an outcome of a sure instruction on the stack.
fn put(
    spot: NodeSpot,
    sure: Sure,
    outcome: SideOutcome,
    ahead: &mut Vec<NodeSpot>,
) -> Result<(), AllocError>
    requires spot { Holds spot }
    requires room { HasRoom sure.access spot.queues }
    requires fine { IsFine outcome }
    requires ahead { All Holds ahead.old.items }
    ensures is { OnOk result (nodes_of ahead.new.items
        ≡ node_behind sure (node_of spot) outcome ∷ nodes_of ahead.old.items) }
    ensures holds { OnOk result (All Holds ahead.new.items) }
{
    let next = spot.after(sure.side, sure.access, outcome)?;
    ahead.push(next)?;
    Ok(())
}

/// Walks from a start, which is not asked whether it is covered.
///
/// # Errors
///
/// Memory was wanting.
pub fn walk(
    alloc: Global,
    terms: &Terms,
    certificate: &[CertificateNode],
    start: NodeSpot,
) -> Result<Walked, AllocError>
    requires start { Holds start }
    requires known { AreKnown certificate.now }
    ensures { IfOk result (λ walked. walked_of walked
        ≡ walk_start (terms_of terms.now.image.now terms.now.depths) certificate.now
        (node_of start)) }
{
    if start.is_final() {
        return Ok(Walked::Ends);
    }
    let mut ahead = Vec::new(alloc);
    let left = leave(alloc, terms, start, &mut ahead)?;
    match left {
        Some(walked) => Ok(walked),
        None => {
            let walked = walk_on(alloc, terms, certificate, ahead)?;
            Ok(walked)
        }
    }
}

/// Walks the nodes on a stack, so many as may be walked behind a start.
fn walk_on(
    alloc: Global,
    terms: &Terms,
    certificate: &[CertificateNode],
    stack: Vec<NodeSpot>,
) -> Result<Walked, AllocError>
    requires stack { All Holds stack.items }
    requires known { AreKnown certificate.now }
    ensures { IfOk result (λ walked. walked_of walked
        ≡ walk_of (terms_of terms.now.image.now terms.now.depths) certificate.now 9999
        (nodes_of stack.items)) }
{
    let mut ahead = stack;
    for walked in 0..MOST_WALKED {
        let visited = visit(alloc, terms, certificate, &mut ahead)?;
        if let Some(end) = visited {
            return Ok(end);
        }
    }
    if ahead.is_empty() {
        Ok(Walked::Ends)
    } else {
        Ok(Walked::Passes)
    }
}

/// Visits the next node on a stack, and says how the walk ended, if it did.
fn visit(
    alloc: Global,
    terms: &Terms,
    certificate: &[CertificateNode],
    ahead: &mut Vec<NodeSpot>,
) -> Result<Option<Walked>, AllocError>
    requires ahead { All Holds ahead.old.items }
    requires known { AreKnown certificate.now }
    ensures is { IfOk result (λ visited.
        IsVisit (terms_of terms.now.image.now terms.now.depths) certificate.now visited
        (nodes_of ahead.old.items) (nodes_of ahead.new.items)) }
    ensures holds { OnOk result (All Holds ahead.new.items) }
{
    match take_next(ahead) {
        None => Ok(Some(Walked::Ends)),
        Some(spot) => {
            let visited = visit_node(alloc, terms, certificate, spot, ahead)?;
            Ok(visited)
        }
    }
}

/// Visits a node, and says how the walk ended, if it did.
fn visit_node(
    alloc: Global,
    terms: &Terms,
    certificate: &[CertificateNode],
    spot: NodeSpot,
    ahead: &mut Vec<NodeSpot>,
) -> Result<Option<Walked>, AllocError>
    requires spot { Holds spot }
    requires ahead { All Holds ahead.old.items }
    requires known { AreKnown certificate.now }
    ensures is { IfOk result (λ visited.
        IsVisit (terms_of terms.now.image.now terms.now.depths) certificate.now visited
        (node_of spot ∷ nodes_of ahead.old.items) (nodes_of ahead.new.items)) }
    ensures holds { OnOk result (All Holds ahead.new.items) }
{
    if ends(certificate, &spot) {
        return Ok(None);
    }
    let left = leave(alloc, terms, spot, ahead)?;
    Ok(left)
}

/// Puts the nodes behind a node on the stack, or says that the walk halts at it.
fn leave(
    alloc: Global,
    terms: &Terms,
    spot: NodeSpot,
    ahead: &mut Vec<NodeSpot>,
) -> Result<Option<Walked>, AllocError>
    requires spot { Holds spot }
    requires ahead { All Holds ahead.old.items }
    ensures is { IfOk result (λ left. WentOn left (node_of spot)
        (next_nodes (terms_of terms.now.image.now terms.now.depths) (node_of spot))
        (nodes_of ahead.old.items) (nodes_of ahead.new.items)) }
    ensures holds { OnOk result (All Holds ahead.new.items) }
{
    let halts = Walked::Halts(spot.a.counter, spot.e.counter);
    let sure = go_on(alloc, terms, spot, ahead)?;
    if sure { Ok(None) } else { Ok(Some(halts)) }
}

/// Takes the next node of a stack.
fn take_next(ahead: &mut Vec<NodeSpot>) -> Option<NodeSpot>
    requires { All Holds ahead.old.items }
    ensures some { IfSome result (λ s.
        (nodes_of ahead.old.items ≡ node_of s ∷ nodes_of ahead.new.items) × Holds s) }
    ensures none { result ≡ None → nodes_of ahead.old.items ≡ [] }
    ensures holds { All Holds ahead.new.items }
{
    ahead.pop()
}

/// Whether a branch of the walk ends at a node: it is final, or covered.
fn ends(certificate: &[CertificateNode], spot: &NodeSpot) -> bool
    requires known { AreKnown certificate.now }
    ensures { result
        ≡ (is_final (node_of spot.now) || is_covered certificate.now (node_of spot.now)) }
{
    spot.is_final() || is_covered(certificate, spot)
}

/// Whether nothing waits, and some node of the certificate has the same counters and ranges in which all registers lie.
fn is_covered(certificate: &[CertificateNode], spot: &NodeSpot) -> bool
    requires known { AreKnown certificate.now }
    ensures { result ≡ is_covered certificate.now (node_of spot.now) }
{
    spot.queues.are_empty() && any_covers(certificate, spot)
}

/// Whether some node of the certificate has the same counters and ranges in which all registers lie.
fn any_covers(certificate: &[CertificateNode], spot: &NodeSpot) -> bool
    requires known { AreKnown certificate.now }
    ensures { result ≡ list_any (covers (node_of spot.now)) certificate.now }
{
    for known in certificate {
        if covers(known, spot) {
            return true;
        }
    }
    false
}

/// Whether the node of a certificate has the same counters and ranges in which all registers lie.
fn covers(known: &CertificateNode, spot: &NodeSpot) -> bool
    requires { BothHold known.now }
    ensures { result ≡ covers (node_of spot.now) known.now }
{
    is_side_within(&known.a, &spot.a) && is_side_within(&known.e, &spot.e)
}

/// Whether a side has the counter of another and lies in its ranges.
fn is_side_within(outer: &SideNode, side: &SideSpot) -> bool
    requires { KnownHolds outer.now }
    ensures { result ≡ side_within outer.now (side_of side.now) }
{
    outer.counter == side.counter && are_within(outer.registers.as_slice(), side.ranges.as_slice())
}

/// Whether the ranges of the registers from x1 on lie in others.
fn are_within(outer: &[Range], ranges: &[Range]) -> bool
    requires proper { AreProper outer.now }
    requires outer { length outer.now ≡ 28 }
    requires ranges { length ranges.now ≡ 28 }
    ensures { result ≡ registers_within (length ranges.now) outer.now ranges.now }
{
    for register in 1..ranges.len() {
        if !within(outer[register], ranges[register]) {
            return false;
        }
    }
    true
}
