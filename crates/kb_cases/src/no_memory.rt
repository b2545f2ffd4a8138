//! What is told of want of memory. No case can want memory, so the program is asked here.

use kb_cli::{Status, report};
use kb_io::MemSink;
use std::alloc::Global;
use std::sync::Wait;

/// Whether the message on err is the one that stands in docs/commands.md.
pub(crate) fn is_told<R: Wait>(alloc: Global, rt: &R) -> bool {
    let mut err = MemSink::new(alloc, rt, 65_536, Vec::new(alloc));
    report(alloc, &Status::Memory, &mut err);
    err.written() == b"kb: no memory\n".as_slice()
}
