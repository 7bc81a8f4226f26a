// What a machine begins with: depths that reach the budget, memory, and both processors.

ghost use Rattle.std.specs.Prelude.{◌≡◌, ◌≤◌, ◌+◌, ◌-◌, ◌++◌, length, replicate, IfOk, IfErr, None, ◌≢◌, ◌<◌, ◌^◌};
ghost use Rattle.dae_base.specs.Budgets.{depth, Reaches};
ghost use Rattle.dae_base.specs.declared.Side.TheVariants.{A, E};
ghost use Rattle.dae_core.specs.Held.{CanHold, fresh};
ghost use Rattle.dae_machine.specs.Answers.{Refuses};
ghost use Rattle.dae_machine.specs.Held.{DataFit};

use crate::OpenError;
use dae_base::{Depths, Queue, Side};
use dae_core::Core;
use dae_image::Image;
use std::alloc::{AllocError, Global};

/// How many items a queue can hold.
fn depth_of(depths: &Depths, queue: Queue) -> u16
    ensures { result ≡ depth queue depths.now }
{
    match queue {
        Queue::Ld => depths.ld,
        Queue::Al => depths.al,
        Queue::Sa => depths.sa,
        Queue::Sd => depths.sd,
        Queue::Ab => depths.ab,
        Queue::Eb => depths.eb,
        Queue::Cq => depths.cq,
    }
}

/// Refuses depths below the budget.
pub fn reaches(depths: &Depths, budget: &Depths) -> Result<(), OpenError>
    ensures ok { IfOk result (λ u. Reaches depths.now budget.now) }
    ensures err { IfErr result (λ e. (e ≢ OpenError.Memory) × Refuses e budget.now depths.now) }
{
    match depths.first_below(budget) {
        None => Ok(()),
        Some(queue) => Err(OpenError::DepthBelow(
            queue,
            depth_of(budget, queue),
            depth_of(depths, queue),
        )),
    }
}

#[tactic(auto, using(crate::proofs::Opening::memory_length))]
/// The common memory: 16 bytes of zero, the image's data, and zeros up to the size.
pub fn common_memory(alloc: Global, image: &Image) -> Result<Vec<u8>, AllocError>
    requires { DataFit image.now }
    ensures size { IfOk result (λ memory. length memory.items ≡ image.now.memory) }
    ensures small { IfOk result (λ memory. length memory.items < 2 ^ 32) }
    ensures bytes { IfOk result
        (λ memory. memory.items
        ≡ replicate 16 0
        ++ (image.now.content
        ++ replicate (image.now.memory - (16 + length image.now.content)) 0)) }
{
    let mut memory = vec![in alloc; 0; 16]?;
    memory.extend_from_slice(image.content.as_slice())?;
    memory.resize(image.memory as usize, 0)?;
    Ok(memory)
}

/// The access processor of an image before its first instruction.
pub fn core_a(alloc: Global, image: &Image, copies: bool) -> Result<Core, AllocError>
    ensures { IfOk result
        (λ core. core
        ≡ record {
          side = A;
          copies = copies;
          code = image.now.code_a;
          processor = fresh image.now.entry_a image.now.private_a;
        }) }
{
    let code = image.code_a.as_slice();
    Core::open(alloc, Side::A, image.entry_a, image.private_a, copies, code)
}

/// The execute processor of an image before its first instruction.
pub fn core_e(alloc: Global, image: &Image, copies: bool) -> Result<Core, AllocError>
    ensures { IfOk result
        (λ core. core
        ≡ record {
          side = E;
          copies = copies;
          code = image.now.code_e;
          processor = fresh image.now.entry_e image.now.private_e;
        }) }
{
    let code = image.code_e.as_slice();
    Core::open(alloc, Side::E, image.entry_e, image.private_e, copies, code)
}
