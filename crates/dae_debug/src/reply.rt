// The text of a reply in room that is taken before a session.
ghost use Rattle.std.specs.Prelude.{◌≡◌, ◌+◌, ◌≤◌, [], ◌++◌, length, IfOk};

use std::alloc::{AllocError, Global};
use std::marker::Model;

/// For how many bytes a reply has room: the longest has a line of eleven bytes for each waiting store.
const ROOM: usize = 720_896;

/// The text of a reply. The room for the longest is taken before a session, so that replies take no memory.
#[derive(Drop)]
pub struct Reply {
    bytes: Vec<u8>,
}

impl Model for Reply {
    ghost use Rattle.std.specs.Prelude.{ℕ, ◌≤◌, List};
    ghost use Rattle.std.specs.Vec.{vec_capacity};

    ghost Value = { List ℕ };

    ghost view = { λ reply. reply.bytes.items };

    ghost invariant = { λ reply. 720896 ≤ vec_capacity reply.bytes };
}

impl Reply {
    /// The empty text.
    pub fn with_room(alloc: Global) -> Result<Reply, AllocError>
        ensures { IfOk result (λ reply. reply ≡ []) }
    {
        Ok(Reply {
            bytes: Vec::with_capacity(alloc, ROOM)?,
        })
    }

    /// Begins the text anew, with this.
    pub fn begin(&mut self, text: &[u8])
        requires { length text.now ≤ 720896 }
        ensures { self.new ≡ text.now }
    {
        self.bytes.clear();
        self.push(text);
    }

    /// Appends a text.
    pub fn push(&mut self, text: &[u8])
        requires { length self.old + length text.now ≤ 720896 }
        ensures { self.new ≡ self.old ++ text.now }
    {
        if self.bytes.extend_from_slice(text).is_err() {
            unreachable!();
        }
    }

    /// The bytes of the text.
    pub fn as_slice(&self) -> &[u8]
        ensures { result.now ≡ self.now }
    {
        self.bytes.as_slice()
    }
}
