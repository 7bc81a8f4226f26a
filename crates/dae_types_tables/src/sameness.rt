// The same type within one file, and the composite of two same types (C90 6.1.2.6).

ghost use Rattle.std.specs.Prelude.{◌≡◌, Ok};
ghost use Rattle.dae_types_kinds.specs.Types.{same, same_within, counts_agree, composite};
ghost use Rattle.dae_types_rules.specs.Plan.{Gives};
ghost use Rattle.dae_types_tables.specs.Layers.{want_of, want_of_pair};
ghost use Rattle.dae_types_tables.specs.Questions.{question_of};
ghost use Rattle.dae_types_tables.specs.Seen.{tables, LeavesAnd};

use crate::Checker;
use dae_types_kinds::{CheckError, Shape};

/// Two types of at most so many shapes within one another.
#[derive(Clone, Copy)]
struct TypesToCompare {
    depth: usize,
    left: usize,
    right: usize,
}

/// What is still to be made of a composite, round the type that was made last.
#[derive(Clone, Copy)]
enum Layer {
    /// The composite of two types; what was made last is not needed.
    Composite(TypesToCompare),
    /// A pointer to what was made last.
    Pointer,
    /// An array of what was made last.
    Array(Option<u32>),
    /// A function that gives what was made last, with the composite of these parameters.
    FunctionWith(TypesToCompare),
    /// A function that gives this type, with the parameters that were made last.
    Function(usize),
    /// The parameters that were made last, and behind them one of the composite of these types.
    ParameterWith(TypesToCompare),
    /// These parameters, and behind them one of the type that was made last.
    Parameter(usize),
}

/// What a layer wants made.
#[derive(Clone, Copy)]
enum Want {
    /// First the composite of two types, and then this layer round it.
    Parts(Layer, TypesToCompare),
    /// A new type of this shape.
    Shape(Shape),
    /// This type.
    Type(usize),
}

/// When two types are the same, by their shapes.
#[derive(Clone, Copy)]
enum Question {
    /// They are, or they aren't.
    Settled(bool),
    /// Where these two types are the same.
    One(usize, usize),
    /// Where the first two types are the same, and the last two are.
    Both(usize, usize, usize, usize),
}

impl Checker {
    /// Whether two types are the same.
    #[tactic(auto, unfolding(dae_types_kinds::specs::Types::same))]
    pub fn same(&self, left: usize, right: usize) -> bool
        ensures { result ≡ same (tables self.now) left right }
    {
        self.same_within(self.shapes.len(), left, right)
    }

    /// Whether two types of at most so many shapes within one another are the same. Pointers, arrays
    /// and the parameters before the last are gone through in turn, so that the stack grows with how
    /// deep lists of parameters stand in one another, and not with how many parameters there are.
    fn same_within(&self, depth: usize, mut left: usize, mut right: usize) -> bool
        ensures { result ≡ same_within depth (tables self.now) left right }
    {
        let mut inner = depth;
        while inner > 0 {
            inner -= 1;
            match question_of(self.shape_of(left), self.shape_of(right)) {
                Question::Settled(same) => return same,
                Question::One(one, other) => {
                    left = one;
                    right = other;
                }
                Question::Both(one, other, first, second) => {
                    if !self.same_within(inner, first, second) {
                        return false;
                    }
                    left = one;
                    right = other;
                }
            }
        }
        false
    }

    /// The composite of two same types: each array has the size that one of them has. A list of
    /// what is still to be made stands in for calls within calls, so that the stack is the same for
    /// all types.
    #[tactic(auto, unfolding(dae_types_kinds::specs::Types::composite))]
    pub fn composite(&mut self, left: usize, right: usize) -> Result<usize, CheckError>
        ensures { LeavesAnd self.new result (composite (tables self.old) left right) }
    {
        let depth = self.shapes.len();
        let mut layers = Vec::new(*self.shapes.allocator());
        layers.push(Layer::Composite(TypesToCompare { depth, left, right }))?;
        let mut last = left;
        while let Some(layer) = layers.pop() {
            match self.want_of(layer, last) {
                Want::Parts(outer, first) => {
                    layers.push(outer)?;
                    layers.push(Layer::Composite(first))?;
                }
                Want::Shape(shape) => last = self.make(shape)?,
                Want::Type(id) => last = id,
            }
        }
        Ok(last)
    }

    /// What a layer round the type that was made last wants.
    fn want_of(&self, layer: Layer, last: usize) -> Want
        ensures { result ≡ want_of (tables self.now) last layer }
    {
        match layer {
            Layer::Composite(pair) => self.want_of_pair(pair.depth, pair.left, pair.right),
            Layer::Pointer => Want::Shape(Shape::Pointer(last)),
            Layer::Array(count) => Want::Shape(Shape::Array(last, count)),
            Layer::FunctionWith(parameters) => Want::Parts(Layer::Function(last), parameters),
            Layer::Function(result) => Want::Shape(Shape::Function(result, last)),
            Layer::ParameterWith(one) => Want::Parts(Layer::Parameter(last), one),
            Layer::Parameter(before) => Want::Shape(Shape::Parameter(before, last)),
        }
    }

    /// What the composite of two types of at most so many shapes within one another wants.
    fn want_of_pair(&self, depth: usize, left: usize, right: usize) -> Want
        ensures { result ≡ want_of_pair depth (tables self.now) left right }
    {
        if depth == 0 {
            return Want::Type(left);
        }
        let depth = depth - 1;
        match (self.shape_of(left), self.shape_of(right)) {
            (Shape::Pointer(left), Shape::Pointer(right)) => {
                Want::Parts(Layer::Pointer, TypesToCompare { depth, left, right })
            }
            (Shape::Array(left, count), Shape::Array(right, size)) => {
                Want::Parts(
                    Layer::Array(count.or(size)),
                    TypesToCompare { depth, left, right },
                )
            }
            (Shape::Function(one, left), Shape::Function(other, right)) => {
                let result = TypesToCompare {
                    depth,
                    left: one,
                    right: other,
                };
                Want::Parts(
                    Layer::FunctionWith(TypesToCompare { depth, left, right }),
                    result,
                )
            }
            (Shape::Parameter(one, left), Shape::Parameter(other, right)) => {
                let before = TypesToCompare {
                    depth,
                    left: one,
                    right: other,
                };
                Want::Parts(
                    Layer::ParameterWith(TypesToCompare { depth, left, right }),
                    before,
                )
            }
            _ => Want::Type(left),
        }
    }
}

/// When types of two shapes are the same.
fn question_of(shape: Shape, other: Shape) -> Question
    ensures { result ≡ question_of shape other }
{
    match (shape, other) {
        (Shape::Void, Shape::Void) => Question::Settled(true),
        (Shape::Char, Shape::Char) => Question::Settled(true),
        (Shape::SignedChar, Shape::SignedChar) => Question::Settled(true),
        (Shape::UnsignedChar, Shape::UnsignedChar) => Question::Settled(true),
        (Shape::Short, Shape::Short) => Question::Settled(true),
        (Shape::UnsignedShort, Shape::UnsignedShort) => Question::Settled(true),
        (Shape::Int, Shape::Int) => Question::Settled(true),
        (Shape::Unsigned, Shape::Unsigned) => Question::Settled(true),
        (Shape::NoParameters, Shape::NoParameters) => Question::Settled(true),
        (Shape::Struct(one), Shape::Struct(other)) => Question::Settled(one == other),
        (Shape::Pointer(one), Shape::Pointer(other)) => Question::One(one, other),
        (Shape::Array(one, count), Shape::Array(other, size)) => {
            if do_counts_agree(count, size) {
                Question::One(one, other)
            } else {
                Question::Settled(false)
            }
        }
        (Shape::Function(one, first), Shape::Function(other, second)) => {
            Question::Both(one, other, first, second)
        }
        (Shape::Parameter(first, one), Shape::Parameter(second, other)) => {
            Question::Both(first, second, one, other)
        }
        _ => Question::Settled(false),
    }
}

/// Whether two sizes of arrays are alike, or one of them isn't known.
fn do_counts_agree(count: Option<u32>, size: Option<u32>) -> bool
    ensures { result ≡ counts_agree count size }
{
    match (count, size) {
        (Some(count), Some(size)) => count == size,
        _ => true,
    }
}
