//! The outside of the system: files and the standard streams.
//!
//! No contract can say what a file or a terminal gives or takes, so contracts know none of the bytes of
//! these. They are what the program trusts at its edge, and are kept thin.

mod faults;
mod file_shelf;
mod retry;
mod std_in;
mod std_out;

pub use file_shelf::FileShelf;
pub use std_in::StdIn;
pub use std_out::{StdErr, StdOut};
