//! The gate that workers pass.

/// The points of a worker's round at which it comes to the gate.
#[derive(Clone, Copy, Debug, PartialEq, Eq)]
pub enum Point {
    /// Before it draws a job.
    Draw,
    /// Before it reduces the two words of a critical pair.
    Sift,
    /// Before it enters a pair that has two normal forms.
    Enter,
}

/// Where workers pass, and where a test may hold one until another has come as far.
///
/// Nothing is stated of a gate, and no answer depends on one. Workers share it.
pub trait Gate: Sync {
    /// The worker has come to this point.
    fn at(&self, worker: u32, point: Point);
}

/// The gate of the program, which holds nobody.
#[derive(Clone, Copy, Debug, PartialEq, Eq)]
pub struct OpenGate;

impl Gate for OpenGate {
    fn at(&self, _worker: u32, _point: Point) {}
}
