// Lists that a vector holds (`Items`), and texts of bytes (`Text`).

ghost use Rattle.std.specs.Prelude.{◌≡◌, List, [], ◌∷◌, ◌++◌, length, vec_len, OnOk, OnErr, IfOk};
ghost use Rattle.std.specs.String.{string_bytes};

use std::alloc::{AllocError, Global};
use std::marker::Model;

/// A list of items that knows its allocator. Clauses see the list.
#[derive(Drop)]
pub struct Items<T> {
    items: Vec<T>,
}

impl<T> Model for Items<T> {
    ghost Value = { List T };

    ghost view = { λ list. list.items.items };
}

impl<T> Items<T> {
    /// The empty list. It takes no memory.
    pub fn new(alloc: Global) -> Items<T>
        ensures { result ≡ [] }
    {
        Items {
            items: Vec::new(alloc),
        }
    }

    /// The list of a vector's items.
    pub fn from_vec(items: Vec<T>) -> Items<T>
        ensures { result ≡ items.items }
    {
        Items { items }
    }

    /// The vector of the items.
    pub fn into_vec(self) -> Vec<T>
        ensures { result.items ≡ self }
    {
        let Items { items } = self;
        items
    }

    /// The items, in order.
    pub fn as_slice(&self) -> &[T]
        ensures { result.now ≡ self.now }
    {
        self.items.as_slice()
    }

    /// The number of items.
    pub fn len(&self) -> usize
        ensures { result ≡ length self.now }
    {
        self.items.len()
    }

    /// Whether there are none.
    pub fn is_empty(&self) -> bool
        ensures { result ≡ nat_eq (length self.now) 0 }
    {
        self.items.is_empty()
    }
}

ghost use Rattle.std.specs.Prelude.{nat_eq, IsUtf8};

impl<T: Drop> Items<T> {
    /// Appends an item. Where memory is wanting, the list stays as it was.
    pub fn push(&mut self, item: T) -> Result<(), AllocError>
        ensures ok { OnOk result (self.new ≡ self.old ++ item ∷ []) }
        ensures err { OnErr result (self.new ≡ self.old) }
    {
        self.items.push(item)?;
        Ok(())
    }
}

/// A text. Clauses see the list of its bytes, which are UTF-8.
#[derive(Drop)]
pub struct Text {
    text: String,
}

impl Model for Text {
    ghost Value = { List ℕ };

    ghost view = { λ t. string_bytes t.text };
}

ghost use Rattle.std.specs.Prelude.{ℕ};

impl Text {
    /// A copy of a text.
    pub fn from_str(alloc: Global, text: &str) -> Result<Text, AllocError>
        ensures { IfOk result (λ t. t ≡ text.now) }
    {
        let text = String::from_str(alloc, text)?;
        Ok(Text { text })
    }

    /// The text.
    pub fn as_str(&self) -> &str
        ensures { result.now ≡ self.now }
    {
        self.text.as_str()
    }
}
