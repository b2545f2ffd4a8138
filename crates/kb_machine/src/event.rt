//! The events of a completion.

/// What happened to a book: an entry of its journal. Lines are named by their numbers, from 1 on. A journal has
/// some four events for each line, so they are to take little memory, 12 bytes: a worker's number has 8 bits, of which
/// at most 64 workers need no more, and the place of an overlap has 16, which places in left sides of at most 65,535
/// letters don't exceed.
#[derive(Clone, Copy, Debug, PartialEq, Eq)]
pub enum Event {
    /// A worker entered the overlap of two lines at a place of the first one's left side.
    Entered {
        worker: u8,
        place: u16,
        first: u32,
        second: u32,
    },
    /// The overlap of two lines at a place of the first one's left side became the first pending pair.
    Balanced {
        place: u16,
        first: u32,
        second: u32,
    },
    /// The first pending pair joined, and went.
    Dropped,
    /// A line with this number was made of the first pending pair.
    Made(u32),
    /// The completion halted.
    Halted,
    /// The line with this number was taken away, and its pair became pending.
    Killed(u32),
    /// A line was replaced by a new one with a lesser right side.
    Shortened {
        line: u32,
        new: u32,
    },
    /// The numbers of the live lines were published as a version.
    Published,
}
