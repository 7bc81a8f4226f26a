// A graph whose vertices are the variables of a program's functions.

ghost use Rattle.std.specs.Prelude.{◌≡◌, true, OnOk, IfOk, slice_get};
ghost use Rattle.dae_ir.specs.Classes.{has, has_test};
ghost use Rattle.dae_slice.specs.Graphs.{marked, is_needed, exists, Adds, Keeps, IsFresh, IsNewRow, IsSettled, Settles, IsLeastKept};

use crate::source_nodes::SourceNodes;
use dae_ir::{Function, Operand, Test};
use std::alloc::{AllocError, Global};

/// A variable of a function, by their numbers.
#[derive(Clone, Copy)]
pub struct SliceNode {
    pub function: usize,
    pub variable: usize,
}

/// Whether a variable is needed, and the variables that lead to it. Once it is needed, they have gone to the graph's
/// work.
#[derive(Drop)]
pub struct Vertex {
    pub needed: bool,
    pub sources: SourceNodes,
}

/// A vertex for each variable of each function, and the variables that are needed but not marked so yet.
#[derive(Drop)]
pub struct Graph {
    pub rows: Vec<Vec<Vertex>>,
    pub work: Vec<SliceNode>,
}

impl Graph {
    /// A vertex for each variable, and no links.
    pub fn new(alloc: Global, functions: &[Function]) -> Result<Graph, AllocError>
        ensures { IfOk result (λ g. IsFresh functions.now g) }
    {
        let mut rows = Vec::new(alloc);
        for function in functions {
            rows.push(new_row(alloc, function.variables)?)?;
        }
        Ok(Graph {
            rows,
            work: Vec::new(alloc),
        })
    }

    /// Whether a variable is marked as needed.
    pub fn needs(&self, node: SliceNode) -> bool
        ensures { result ≡ marked self.now node.function node.variable }
    {
        match self.rows.get(node.function) {
            Some(row) => is_needed(row, node.variable),
            None => false,
        }
    }

    /// Whether an operand is a number, or a variable of the function that is marked as needed.
    pub fn has(&self, function: usize, operand: Operand) -> bool
        ensures { result ≡ has (marked self.now function) operand }
    {
        match operand {
            Operand::Variable(variable) => {
                let variable = variable as usize;
                self.needs(SliceNode { function, variable })
            }
            Operand::Number(_) => true,
        }
    }

    /// Whether it has both operands of a condition.
    pub fn has_test(&self, function: usize, test: Test) -> bool
        ensures { result ≡ has_test (marked self.now function) test }
    {
        self.has(function, test.left) && self.has(function, test.right)
    }

    /// The variable is needed.
    pub fn seed(&mut self, node: SliceNode) -> Result<(), AllocError>
        ensures { OnOk result (Adds (λ c. c node.function node.variable ≡ true) self.old self.new) }
    {
        self.work.push(node)?;
        Ok(())
    }

    /// Where the second variable is needed, so is the first.
    pub fn link(&mut self, from: SliceNode, to: SliceNode) -> Result<(), AllocError>
        requires { exists self.old to.function to.variable ≡ true }
        ensures { OnOk result
            (Adds (λ c. c to.function to.variable ≡ true
            → c from.function from.variable ≡ true) self.old self.new) }
    {
        let alloc = *self.work.allocator();
        let row = &mut self.rows[to.function];
        let vertex = &mut row[to.variable];
        vertex.sources.add(alloc, from)?;
        Ok(())
    }

    // Marks a variable, and hands the variables that lead to it to the work.
    fn settle(&mut self, node: SliceNode) -> Result<(), AllocError>
        requires { exists self.old node.function node.variable ≡ true }
        ensures { OnOk result (Settles node self.old self.new) }
    {
        let row = &mut self.rows[node.function];
        let vertex = &mut row[node.variable];
        vertex.needed = true;
        vertex.sources.hand_to(&mut self.work)?;
        Ok(())
    }

    /// Marks each variable that is needed.
    pub fn spread(&mut self) -> Result<(), AllocError>
        requires range { Keeps self.old (exists self.old) }
        requires settled { IsSettled self.old }
        ensures { OnOk result (IsLeastKept self.old (marked self.new)) }
    {
        while let Some(node) = self.work.pop() {
            self.settle(node)?;
        }
        Ok(())
    }
}

fn new_row(alloc: Global, variables: u32) -> Result<Vec<Vertex>, AllocError>
    ensures { IfOk result (λ row. IsNewRow variables row.items) }
{
    let mut row = Vec::with_capacity(alloc, variables as usize)?;
    for _ in 0..variables {
        row.push(Vertex {
            needed: false,
            sources: SourceNodes::Nothing,
        })?;
    }
    Ok(row)
}

fn is_needed(row: &[Vertex], variable: usize) -> bool
    ensures { result ≡ is_needed (slice_get row.now variable) }
{
    match row.get(variable) {
        Some(vertex) => vertex.needed,
        None => false,
    }
}
