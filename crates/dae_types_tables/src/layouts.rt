// Bytes and alignment of types (C90 6.5.2.1). Sums and products stop at the greatest word.

ghost use Rattle.std.specs.Prelude.{◌≡◌};
ghost use Rattle.dae_types_kinds.specs.Types.{layout_at, layout_within, is_too_large, rounded, placed, finished, repeated};
ghost use Rattle.dae_types_tables.specs.Seen.{tables};

use crate::Checker;
use dae_types_kinds::{Layout, Shape};

/// The greatest size of an object in bytes.
pub const MOST_BYTES: u32 = 67_108_864;

impl Checker {
    /// The size and alignment of a type; of what has none, 0 and 1.
    #[tactic(auto, unfolding(dae_types_kinds::specs::Types::layout_at))]
    pub fn layout_at(&self, id: usize) -> Layout
        ensures { result ≡ layout_at (tables self.now) id }
    {
        self.layout_within(self.shapes.len(), id)
    }

    /// The layout of a type of at most so many shapes within one another.
    fn layout_within(&self, depth: usize, id: usize) -> Layout
        ensures { result ≡ layout_within depth (tables self.now) id }
    {
        if depth == 0 {
            return Layout { size: 0, align: 1 };
        }
        match self.shape_of(id) {
            Shape::Void => Layout { size: 0, align: 1 },
            Shape::Char | Shape::SignedChar | Shape::UnsignedChar => Layout { size: 1, align: 1 },
            Shape::Short | Shape::UnsignedShort => Layout { size: 2, align: 2 },
            Shape::Array(element, count) => repeat(count, self.layout_within(depth - 1, element)),
            Shape::Struct(structure) => match self.layout_of(structure) {
                Some(layout) => layout,
                None => Layout { size: 0, align: 1 },
            },
            _ => Layout { size: 4, align: 4 },
        }
    }

    /// Whether an array of so many elements is larger than an object may be.
    pub fn is_too_large(&self, element: usize, count: Option<u32>) -> bool
        ensures { result ≡ is_too_large (tables self.now) element count }
    {
        repeat(count, self.layout_at(element)).size > MOST_BYTES
    }
}

/// The layout of an array of so many elements.
fn repeat(count: Option<u32>, element: Layout) -> Layout
    ensures { result ≡ repeated count element }
{
    match count {
        Some(count) => Layout {
            size: element.size.saturating_mul(count),
            align: element.align,
        },
        None => Layout {
            size: 0,
            align: element.align,
        },
    }
}

/// The least multiple of a number that isn't 0 from an offset on.
pub fn round_up(offset: u32, to: u32) -> u32
    ensures { result ≡ rounded offset to }
{
    if to == 0 {
        offset
    } else {
        offset.saturating_add(to - 1) / to * to
    }
}

/// The layout of a structure with one member more, at the next place that suits it.
pub fn place_member(layout: Layout, member: Layout) -> Layout
    ensures { result ≡ placed layout member }
{
    Layout {
        size: round_up(layout.size, member.align).saturating_add(member.size),
        align: layout.align.max(member.align),
    }
}

/// The layout of a structure that ends: with room to where the next one in an array would begin.
pub fn finish_layout(layout: Layout) -> Layout
    ensures { result ≡ finished layout }
{
    Layout {
        size: round_up(layout.size, layout.align),
        align: layout.align,
    }
}
