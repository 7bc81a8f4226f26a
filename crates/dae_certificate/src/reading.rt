// The nodes of a certificate, read line by line.
ghost use Rattle.std.specs.Prelude.{◌≤◌, length, IfOk, IfErr};
ghost use Rattle.dae_certificate.specs.Certificates.{Certifies, IsCause};

use crate::lines::line_of;
use crate::nodes::nodes_of;
use crate::places::may_follow;
use crate::words::cut;
use crate::{CertificateError, CertificateNode};
use dae_base::Items;
use std::alloc::Global;

/// The nodes of a certificate, in their order. A text without a line has none.
///
/// # Errors
///
/// The first line, from 1 on, that is not of the form, names a register again for a side of its node, stands before any
/// node, or is a 65th node; or that memory was wanting.
#[tactic(auto, using(crate::proofs::Texts::none_read, crate::proofs::Texts::all_read))]
pub fn read(alloc: Global, text: &[u8]) -> Result<Items<CertificateNode>, CertificateError>
    requires short { length text.now ≤ 1048576 }
    ensures nodes { IfOk result (Certifies text.now) }
    ensures bad { IfErr result (IsCause text.now) }
{
    let mut lines = Items::new(alloc);
    let mut rest = text;
    while !rest.is_empty() {
        let (bytes, behind) = cut(rest, b'\n');
        match line_of(bytes) {
            Some(line) if may_follow(lines.as_slice(), line) => lines.push(line)?,
            _ => return Err(CertificateError::BadLine(lines.len() as u32 + 1)),
        }
        rest = behind.unwrap_or(&[]);
    }
    Ok(nodes_of(alloc, lines.as_slice())?)
}
