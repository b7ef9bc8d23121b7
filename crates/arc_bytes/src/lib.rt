//! The outside, as far as bytes go: where a script comes from and where a report goes.
//!
//! It stands on nothing of ours, and every crate that reads or writes stands on it.
//!
//! The law that it keeps: a failure is the outside's own. `Failed` is answered only where the count of faults of
//! the object that was handed in rose during the call, and code that is generic over the traits can't raise it.
//!
//! The bytes: a number of 16, 32 or 64 bits stands in 2, 4 or 8 bytes, the highest first. The `put_` calls add it at the
//! end, the `take_` calls read it at a place and tell the place after it.
//!
//! What the caller owes: the buffer of a read isn't empty, and a node of `Five` is below 5.
#![tactic(auto)]

mod all;
mod counts;
mod five;
mod memory_sink;
mod memory_source;
mod numbers;
mod outcome;
mod sink;
mod source;
mod stream;

pub use all::{ReadEnd, read_all, write_all};
pub use five::Five;
pub use memory_sink::MemorySink;
pub use memory_source::MemorySource;
pub use numbers::{Short, put_u16, put_u32, put_u64, take_u16, take_u32, take_u64};
pub use outcome::{Failed, Memory};
pub use sink::Sink;
pub use source::Source;
pub use stream::{StreamSink, StreamSource};
