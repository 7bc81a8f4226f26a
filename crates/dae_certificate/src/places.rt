// Which line may stand behind the lines before it.
ghost use Rattle.std.specs.Prelude.{◌≡◌, reverse};
ghost use Rattle.dae_certificate.specs.Lines.{node_count, is_side, is_unnamed, may_follow};

use crate::lines::CertificateLine;
use dae_base::Side;

/// The most nodes of a certificate.
const MOST_NODES: usize = 64;

/// Whether a line may stand behind these: a 65th node may not, nor a register that a line behind the last node has named,
/// nor one before any node.
pub fn may_follow(before: &[CertificateLine], line: CertificateLine) -> bool
    ensures { result ≡ may_follow (reverse before.now) line }
{
    match line {
        CertificateLine::Node(_, _) => node_count(before) < MOST_NODES,
        CertificateLine::Register(named) => is_unnamed(before, named.side, named.register),
    }
}

/// How many of the lines begin a node.
fn node_count(lines: &[CertificateLine]) -> usize
    ensures { result ≡ node_count (reverse lines.now) }
{
    let mut count = 0;
    for line in lines {
        match line {
            CertificateLine::Node(_, _) => count += 1,
            CertificateLine::Register(_) => {}
        }
    }
    count
}

/// Whether there is a node, and no line behind the last one names the register.
fn is_unnamed(lines: &[CertificateLine], side: Side, register: u8) -> bool
    ensures { result ≡ is_unnamed side register (reverse lines.now) }
{
    match lines {
        [] => false,
        [before @ .., last] => match last {
            CertificateLine::Node(_, _) => true,
            CertificateLine::Register(named) => {
                !(is_side(named.side, side) && named.register == register)
                    && is_unnamed(before, side, register)
            }
        },
    }
}

/// Whether these are the same side.
fn is_side(side: Side, other: Side) -> bool
    ensures { result ≡ is_side side other }
{
    match (side, other) {
        (Side::A, Side::A) | (Side::E, Side::E) => true,
        (Side::A, Side::E) | (Side::E, Side::A) => false,
    }
}
