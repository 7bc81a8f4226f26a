// The variables that lead to a variable. Most have one or two, which take no memory of their own.

ghost use Rattle.std.specs.Prelude.{◌≡◌, ◌++◌, [], ◌∷◌, IfOk, OnOk};
ghost use Rattle.dae_slice.specs.SourceLists.{source_list};

use crate::graph::SliceNode;
use std::alloc::{AllocError, Global};
use std::mem;

/// Variables that lead to another, in the order in which they came. A value has two operands at most, so that only a variable that is
/// set more than once has more of them, and they stand in a vector then.
#[derive(Drop)]
pub enum SourceNodes {
    Nothing,
    One(SliceNode),
    Two(SliceNode, SliceNode),
    Many(Vec<SliceNode>),
}

// The same variables, and one behind them.
fn with_source(
    alloc: Global,
    sources: SourceNodes,
    node: SliceNode,
) -> Result<SourceNodes, AllocError>
    ensures { IfOk result (λ new. source_list new ≡ source_list sources ++ node ∷ []) }
{
    match sources {
        SourceNodes::Nothing => Ok(SourceNodes::One(node)),
        SourceNodes::One(first) => Ok(SourceNodes::Two(first, node)),
        SourceNodes::Two(first, second) => {
            let all = Vec::from_slice(alloc, &[first, second, node])?;
            Ok(SourceNodes::Many(all))
        }
        SourceNodes::Many(nodes) => {
            let mut all = nodes;
            all.push(node)?;
            Ok(SourceNodes::Many(all))
        }
    }
}

// Puts the variables behind others.
fn append_sources(work: &mut Vec<SliceNode>, sources: SourceNodes) -> Result<(), AllocError>
    ensures { OnOk result (work.new.items ≡ work.old.items ++ source_list sources) }
{
    match sources {
        SourceNodes::Nothing => Ok(()),
        SourceNodes::One(node) => {
            work.push(node)?;
            Ok(())
        }
        SourceNodes::Two(first, second) => work.extend_from_slice(&[first, second]),
        SourceNodes::Many(nodes) => work.extend_from_slice(nodes.as_slice()),
    }
}

impl SourceNodes {
    /// Adds a variable. Where memory is wanting none are left.
    pub fn add(&mut self, alloc: Global, node: SliceNode) -> Result<(), AllocError>
        ensures { OnOk result (source_list self.new ≡ source_list self.old ++ node ∷ []) }
    {
        let before = mem::replace(self, SourceNodes::Nothing);
        let after = with_source(alloc, before, node)?;
        *self = after;
        Ok(())
    }

    /// Hands the variables to the work, behind what it has.
    pub fn hand_to(&mut self, work: &mut Vec<SliceNode>) -> Result<(), AllocError>
        ensures taken { source_list self.new ≡ [] }
        ensures given { OnOk result (work.new.items ≡ work.old.items ++ source_list self.old) }
    {
        let sources = mem::replace(self, SourceNodes::Nothing);
        append_sources(work, sources)
    }
}
