//! What goes in and out, and what work may cost: shelves give named contents, sinks take bytes, and
//! a purse counts units of work up to its limit. A shelf and a sink count their faults, so that a
//! caller who reports a fault can show that there was one; a shelf counts its takes too, which shows
//! at which of them it was.
#![tactic(auto)]

mod calls;
mod file_shelf;
mod mem_shelf;
mod mem_sink;
mod purse;
mod shelf;
mod sink;
mod std_sink;
#[cfg(test)]
mod tests;

pub use file_shelf::FileShelf;
pub use mem_shelf::MemShelf;
pub use mem_sink::MemSink;
pub use purse::{Purse, Spent, Unit};
pub use shelf::{Shelf, ShelfError};
pub use sink::{Sink, SinkError, put_all};
pub use std_sink::StdSink;
