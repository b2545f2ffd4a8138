//! The outside of the program: streams that are read and written, a shelf of named byte strings, and
//! the gate at which a test may hold a worker.
//!
//! The public contracts are those of the traits, of the forms over memory and of `write_all`. A
//! `Source`, a `Sink` and a `Shelf` each have one ghost `state`: whether contracts know the bytes
//! (`told`), the bytes where they do, and how many calls failed, which never falls. A `Source` moves
//! bytes from what is left to a buffer, a `Sink` appends bytes to what was written, and a `Shelf` is a
//! map from names to bytes, of which a load changes nothing and a store one name. A failure is
//! returned only where the count rose in that call, so what never fails (its count is always 0)
//! never returns one. `write_all` appends all of its bytes, or after a failure a prefix of them.
//!
//! `MemSource`, `MemSink` and `MemShelf` work over memory and fail exactly at the calls that they are
//! told to; `WholeSource`, `WholeSink` and `WholeShelf` never fail. `FileShelf`, `StdIn`, `StdOut` and
//! `StdErr` are the four adapters over the system, of whose bytes contracts know nothing.
//!
//! Nothing is below but `std`.
#![tactic(auto)]

mod failed;
mod gate;
mod memory;
mod shelf;
mod sink;
mod source;
mod system;

pub use failed::Failed;
pub use gate::{Gate, OpenGate, Point};
pub use memory::{MemShelf, MemSink, MemSource, WholeShelf, WholeSink, WholeSource};
pub use shelf::{Load, Shelf, ShelfFault};
pub use sink::{Sink, write_all};
pub use source::Source;
pub use system::{FileShelf, StdErr, StdIn, StdOut};
