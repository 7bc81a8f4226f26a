// A line in room that is taken before a run.
ghost use Rattle.std.specs.Prelude.{◌≡◌, ℕ, ◌+◌, ◌≤◌, List, [], ◌++◌, length, IfOk};

use std::alloc::{AllocError, Global};
use std::marker::Model;

/// A line that is made in room for 256 bytes. The room is taken before a run, so that its notes take no memory.
#[derive(Drop)]
pub struct NoteLine {
    bytes: Vec<u8>,
}

impl Model for NoteLine {
    ghost use Rattle.std.specs.Prelude.{ℕ, ◌≤◌, List};
    ghost use Rattle.std.specs.Vec.{vec_capacity};

    ghost Value = { List ℕ };

    ghost view = { λ line. line.bytes.items };

    ghost invariant = { λ line. 256 ≤ vec_capacity line.bytes };
}

impl NoteLine {
    /// The empty line.
    pub fn with_room(alloc: Global) -> Result<NoteLine, AllocError>
        ensures { IfOk result (λ line. line ≡ []) }
    {
        Ok(NoteLine {
            bytes: Vec::with_capacity(alloc, 256)?,
        })
    }

    /// Begins the line anew, with this text.
    pub fn begin(&mut self, text: &[u8])
        requires { length text.now ≤ 256 }
        ensures { self.new ≡ text.now }
    {
        self.bytes.clear();
        self.push(text);
    }

    /// Appends a text.
    pub fn push(&mut self, text: &[u8])
        requires { length self.old + length text.now ≤ 256 }
        ensures { self.new ≡ self.old ++ text.now }
    {
        if self.bytes.extend_from_slice(text).is_err() {
            unreachable!();
        }
    }

    /// The bytes of the line.
    pub fn as_slice(&self) -> &[u8]
        ensures { result.now ≡ self.now }
    {
        self.bytes.as_slice()
    }
}
