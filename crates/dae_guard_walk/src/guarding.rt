// The guard of a pair of codes.
ghost use Rattle.std.specs.Prelude.{◌≡◌, ◌≤◌, length, IfOk, None};
ghost use Rattle.dae_base.specs.Budgets.{depth, first_below};
ghost use Rattle.dae_guard.specs.Never.{NeverStuck};
ghost use Rattle.dae_guard.specs.Walk.{guarded, opened_side, opened_node, terms_of};
ghost use Rattle.dae_guard_walk.specs.Answers.{AreKnown, BothHold, Due, KnownHolds, says, told_of};
ghost use Rattle.dae_guard.specs.Kept.{AreProper};
ghost use Rattle.dae_guard_walk.specs.Spots.{Holds, node_of, side_of};
ghost use Rattle.dae_guard.specs.Nodes.{known_node};
ghost use Rattle.dae_guard_walk.specs.Visits.{IsAnswer, left};
ghost use Rattle.dae_guard_walk.specs.declared.guarding.GuardAnswer.TheVariants as answers;

use crate::instructions::Terms;
use crate::sides::SideSpot;
use crate::walking::{NodeSpot, Walked, walk};
use dae_base::{Depths, Queue};
use dae_certificate::{CertificateError, CertificateNode, SideNode, read};
use dae_guard::{RangeQueues, depth_of, walks_guard};
use dae_image::Image;
use dae_ranges::Range;
use std::alloc::{AllocError, Global};

/// What the guard says of a pair.
#[derive(Clone, Copy, PartialEq, Eq, Debug)]
pub enum GuardAnswer {
    /// No run is stuck, whatever common memory holds.
    Yes,
    /// A queue, what its depth has to be and what it is.
    Depth(Queue, u16, u16),
    /// The first line of the certificate, from 1 on, that may not stand there.
    BadLine(u32),
    /// A start, from 0 on, and the counters (None for a side that has halted) of a node without a sure pick.
    NoStep(u32, Option<u32>, Option<u32>),
    /// A start, from 0 on, from which more than 10,000 nodes would be walked.
    TooLong(u32),
    /// Memory was wanting.
    Memory,
}

/// Says of a pair of codes, queues of these depths and a certificate of its loops that no run of the machine is stuck,
/// whatever common memory holds, or the first rule of certificates that is broken.
pub fn guard(alloc: Global, image: &Image, depths: Depths, certificate: &[u8]) -> GuardAnswer
    requires short { length certificate.now ≤ 1048576 }
    ensures due { Due image.now depths certificate.now result }
    ensures guards { result ≡ answers.Yes → NeverStuck image.now depths }
{
    match depths.first_below(&image.budget) {
        Some(queue) => {
            GuardAnswer::Depth(
                queue,
                depth_of(&image.budget, queue),
                depth_of(&depths, queue),
            )
        }
        None => answer_by_text(alloc, image, depths, certificate),
    }
}

/// The same where each depth reaches the budget.
fn answer_by_text(alloc: Global, image: &Image, depths: Depths, certificate: &[u8]) -> GuardAnswer
    requires reaches { first_below depths image.now.budget ≡ None }
    requires short { length certificate.now ≤ 1048576 }
    ensures due { Due image.now depths certificate.now result }
    ensures guards { result ≡ answers.Yes → NeverStuck image.now depths }
{
    match read(alloc, certificate) {
        Ok(nodes) => answer_by_nodes(alloc, image, depths, nodes.as_slice()),
        Err(CertificateError::BadLine(line)) => GuardAnswer::BadLine(line),
        Err(CertificateError::Memory) => GuardAnswer::Memory,
    }
}

/// The same for the nodes of a certificate.
fn answer_by_nodes(
    alloc: Global,
    image: &Image,
    depths: Depths,
    certificate: &[CertificateNode],
) -> GuardAnswer
    requires known { AreKnown certificate.now }
    requires few { length certificate.now ≤ 64 }
    ensures is { IsAnswer result (guarded image.now depths certificate.now) }
    ensures guards { result ≡ answers.Yes → NeverStuck image.now depths }
{
    walks_guard();
    match walks(alloc, image, depths, certificate) {
        Ok(answer) => answer,
        Err(_) => GuardAnswer::Memory,
    }
}

/// What the walks from all starts come to: from the opened node, number 0, and then from the nodes of the certificate.
fn walks(
    alloc: Global,
    image: &Image,
    depths: Depths,
    certificate: &[CertificateNode],
) -> Result<GuardAnswer, AllocError>
    requires known { AreKnown certificate.now }
    requires few { length certificate.now ≤ 64 }
    ensures { IfOk result (λ answer. says answer (guarded image.now depths certificate.now)) }
{
    let terms = Terms { image, depths };
    let walked = walk(alloc, &terms, certificate, opened_spot(alloc, image))?;
    match answer_of(0, walked) {
        Some(answer) => Ok(answer),
        None => {
            let answer = walk_known(alloc, &terms, certificate)?;
            Ok(answer)
        }
    }
}

/// What the walks from the nodes of a certificate come to, which are numbered from 1 on.
fn walk_known(
    alloc: Global,
    terms: &Terms,
    certificate: &[CertificateNode],
) -> Result<GuardAnswer, AllocError>
    requires known { AreKnown certificate.now }
    requires few { length certificate.now ≤ 64 }
    ensures { IfOk result (λ answer. says answer
        (left (terms_of terms.now.image.now terms.now.depths) certificate.now 0)) }
{
    for (place, known) in certificate.iter().enumerate() {
        let walked = walk(alloc, terms, certificate, known_spot(alloc, known))?;
        if let Some(answer) = answer_of(place as u32 + 1, walked) {
            return Ok(answer);
        }
    }
    Ok(GuardAnswer::Yes)
}

/// The opened node: all registers are 0, and nothing waits.
fn opened_spot(alloc: Global, image: &Image) -> NodeSpot
    ensures is { node_of result ≡ opened_node image.now }
    ensures holds { Holds result }
{
    NodeSpot {
        a: opened_side(image.entry_a),
        e: opened_side(image.entry_e),
        queues: RangeQueues::new(alloc),
    }
}

/// A node of the certificate, where nothing waits.
fn known_spot(alloc: Global, known: &CertificateNode) -> NodeSpot
    requires { BothHold known.now }
    ensures is { node_of result ≡ known_node known.now }
    ensures holds { Holds result }
{
    NodeSpot {
        a: known_side(&known.a),
        e: known_side(&known.e),
        queues: RangeQueues::new(alloc),
    }
}

/// What the walk from a start says, where it doesn't end well.
fn answer_of(start: u32, walked: Walked) -> Option<GuardAnswer>
    ensures { result ≡ told_of start walked }
{
    match walked {
        Walked::Ends => None,
        Walked::Halts(a, e) => Some(GuardAnswer::NoStep(start, a, e)),
        Walked::Passes => Some(GuardAnswer::TooLong(start)),
    }
}

/// The side of the opened node.
fn opened_side(entry: u32) -> SideSpot
    ensures is { side_of result ≡ opened_side entry }
    ensures proper { AreProper result.ranges }
{
    SideSpot {
        counter: Some(entry),
        ranges: [Range::single(0); 28],
    }
}

/// A side of a node of the certificate.
fn known_side(side: &SideNode) -> SideSpot
    requires { KnownHolds side.now }
    ensures is { side_of result ≡ side.now }
    ensures proper { AreProper result.ranges }
{
    let mut ranges = [Range::any(); 28];
    ranges.copy_from_slice(side.registers.as_slice());
    SideSpot {
        counter: side.counter,
        ranges,
    }
}
