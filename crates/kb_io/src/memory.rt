//! The outside over memory: streams and shelves whose bytes contracts know.
//!
//! Those whose names begin with `Whole` never fail. The others fail exactly at the calls that they are
//! told to, and the streams among them move at most a stated number of bytes a call.

mod calls;
mod mem_shelf;
mod mem_sink;
mod mem_source;
mod whole_shelf;
mod whole_sink;
mod whole_source;

pub use mem_shelf::MemShelf;
pub use mem_sink::MemSink;
pub use mem_source::MemSource;
pub use whole_shelf::WholeShelf;
pub use whole_sink::WholeSink;
pub use whole_source::WholeSource;
