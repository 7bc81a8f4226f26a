// Named texts that are fetched and kept, and sinks for bytes: two traits, each with what it tells of its content and a
// count of its faults, and their forms in memory, without faults, and over real files and streams.
// A call fails only where the count of that object rose, and an answer carries bytes only where they are told so.
#![tactic(auto)]

pub use calm::{CalmShelf, CalmSink, NamedText};
pub use directory::DirShelf;
pub use failing::FailingCall;
pub use faults::{FailedCall, Faults, LastFault};
pub use given::{Given, PutCall};
pub use memory_shelf::{HeldText, MemShelf};
pub use memory_sink::MemSink;
pub use shelf::{FetchError, KeepFailed, Shelf};
pub use sink::{Sink, SinkFailed};
pub use standard::StdSink;

mod calm;
mod directory;
mod failing;
mod faults;
mod given;
mod memory_shelf;
mod memory_sink;
mod prefix;
mod shelf;
mod sink;
mod standard;
mod transfer;
