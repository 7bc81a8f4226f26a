// The nodes that lines make.
ghost use Rattle.std.specs.Prelude.{◌≡◌, IfOk, reverse};
ghost use Rattle.dae_certificate.specs.Certificates.{open_side, open_node, with_register, with_named, nodes_of};

use crate::lines::{CertificateLine, NamedRange};
use crate::{CertificateNode, SideNode};
use dae_base::{Items, Side};
use dae_ranges::Range;
use std::alloc::{AllocError, Global};

/// A side has ranges for x0 to x27.
const KEPT: usize = 28;

/// A side whose registers may hold any word, but for x0.
fn open_side(alloc: Global, counter: Option<u32>) -> Result<SideNode, AllocError>
    ensures { IfOk result (λ s. s ≡ open_side counter) }
{
    let mut registers = vec![in alloc; Range::any(); KEPT]?;
    registers[0] = Range::single(0);
    Ok(SideNode {
        counter,
        registers: Items::from_vec(registers),
    })
}

/// A node as its line begins it.
fn open_node(alloc: Global, a: Option<u32>, e: Option<u32>) -> Result<CertificateNode, AllocError>
    ensures { IfOk result (λ n. n ≡ open_node a e) }
{
    Ok(CertificateNode {
        a: open_side(alloc, a)?,
        e: open_side(alloc, e)?,
    })
}

/// The side with the range of a register.
fn with_register(side: SideNode, register: u8, range: Range) -> SideNode
    ensures { result ≡ with_register register range side }
{
    let SideNode { counter, registers } = side;
    let mut registers = registers.into_vec();
    if let Some(kept) = registers.get_mut(usize::from(register)) {
        *kept = range;
    }
    SideNode {
        counter,
        registers: Items::from_vec(registers),
    }
}

/// The node with a range that a line names.
fn with_named(node: CertificateNode, named: NamedRange) -> CertificateNode
    ensures { result ≡ with_named named node }
{
    let CertificateNode { a, e } = node;
    match named.side {
        Side::A => CertificateNode {
            a: with_register(a, named.register, named.range),
            e,
        },
        Side::E => CertificateNode {
            a,
            e: with_register(e, named.register, named.range),
        },
    }
}

/// The nodes of the lines, in their order.
pub fn nodes_of(
    alloc: Global,
    lines: &[CertificateLine],
) -> Result<Items<CertificateNode>, AllocError>
    ensures { IfOk result (λ nodes. nodes ≡ nodes_of (reverse lines.now)) }
{
    let mut nodes = Vec::new(alloc);
    for line in lines {
        match line {
            CertificateLine::Node(a, e) => nodes.push(open_node(alloc, *a, *e)?)?,
            CertificateLine::Register(named) => {
                if let Some(last) = nodes.pop() {
                    nodes.push(with_named(last, *named))?;
                }
            }
        }
    }
    Ok(Items::from_vec(nodes))
}
