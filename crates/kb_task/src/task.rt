//! The trait of a command.

/// A command of the program with its arguments. It runs once, by a method `run` of its own, whose
/// contract is that the run keeps what is promised here (`Keeps`). That method is none of the
/// trait's, since the methods of a trait can't start threads that rest on a bound of theirs.
pub trait Task: Drop {
    ghost use Rattle.kb_task.specs.Promises.{Promise, IsLawful};

    /// What it promises: what its statuses mean, what it may store and reads, when it has an answer.
    ghost promise: { Self → Promise Self };

    /// The laws of what it promises.
    ghost lawful: { (task : Self) → IsLawful promise (promise task) };
}
