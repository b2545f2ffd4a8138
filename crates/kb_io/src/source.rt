//! What is read: a stream of bytes, taken from its front.

ghost use Rattle.std.specs.Prelude.{◌≡◌, ◌↔◌, ◌<◌, ◌≤◌, ◌++◌, [], IsTrue, IfOk, OnErr, length, take};
ghost use Rattle.kb_io.specs.States.{SourceState, SourceGoesOn};

use crate::failed::Failed;

/// A stream of bytes that is read from its front to its end.
///
/// Its state is whether contracts know its bytes (`told`), the bytes that are still to be read where
/// they do (`left`), and how many reads have failed (`faults`), which never falls.
pub trait Source {
    ghost state: { Self → SourceState };

    /// Moves at least one byte from what is left to the front of the buffer, and answers how many;
    /// 0 exactly at the end of the input. After a failure what was left is still left.
    fn read(&mut self, buf: &mut [u8]) -> Result<usize, Failed>
        requires { 0 < length buf.old }
        ensures room { IfOk result (λ taken. taken ≤ length buf.old) }
        ensures moved { IsTrue (state self.old).told
            → IfOk result (λ taken.
            (state self.old).left ≡ take taken buf.new ++ (state self.new).left) }
        ensures end { IsTrue (state self.old).told
            → IfOk result (λ taken. (taken ≡ 0) ↔ ((state self.old).left ≡ [])) }
        ensures kept { IsTrue (state self.old).told
            → OnErr result ((state self.new).left ≡ (state self.old).left) }
        ensures goes_on { SourceGoesOn (state self.old) (state self.new) }
        ensures failed { OnErr result ((state self.old).faults < (state self.new).faults) };
}
