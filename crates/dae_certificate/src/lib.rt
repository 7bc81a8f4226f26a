// Certificates: the nodes from which a checker of pairs of codes walks, as a person writes them in lines. A text has its
// nodes, or a first line that may not stand there.
#![tactic(auto)]

pub use laws::a_text_has_one_answer;
pub use lines::{CertificateLine, NamedRange};
pub use reading::read;

mod laws;
mod lines;
mod nodes;
mod places;
mod reading;
mod words;

use dae_base::Items;
use dae_ranges::Range;
use std::alloc::AllocError;

/// A side: its counter, or None where it has halted, and what its registers may hold.
#[derive(Drop)]
pub struct SideNode {
    pub counter: Option<u32>,
    pub registers: Items<Range>,
}

/// A node of a certificate, where nothing waits.
#[derive(Drop)]
pub struct CertificateNode {
    pub a: SideNode,
    pub e: SideNode,
}

/// Why a certificate is not read.
#[derive(Clone, Copy, PartialEq, Eq, Debug)]
pub enum CertificateError {
    /// The first line, from 1 on, that may not stand there.
    BadLine(u32),
    /// Memory was wanting.
    Memory,
}

ghost use Rattle.dae_certificate.specs.declared.CertificateError.TheVariants as errors;
ghost use Rattle.std.specs.Prelude.{◌≡◌};

impl From<AllocError> for CertificateError {
    ghost from_gives = { λ _ e. e ≡ errors.Memory };

    fn from(_error: AllocError) -> CertificateError {
        CertificateError::Memory
    }
}
