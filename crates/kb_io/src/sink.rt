//! What is written: a stream of bytes that grows at its end.

ghost use Rattle.std.specs.Prelude.{◌≡◌, ◌<◌, ◌≤◌, ◌++◌, IsTrue, IfOk, OnOk, OnErr, length, take};
ghost use Rattle.kb_io.specs.Bytes.{AppendsPrefix};
ghost use Rattle.kb_io.specs.States.{SinkState, SinkGoesOn};

use crate::failed::Failed;

/// A stream of bytes that is written at its end.
///
/// Its state is whether contracts know its bytes (`told`), all that was written where they do
/// (`written`), and how many writes have failed (`faults`), which never falls. To take nothing is a
/// failure.
pub trait Sink {
    ghost state: { Self → SinkState };

    /// Appends the first bytes, at least one, and answers how many. After a failure none was
    /// appended.
    fn write(&mut self, bytes: &[u8]) -> Result<usize, Failed>
        requires { 0 < length bytes.now }
        ensures some { IfOk result (λ taken. (0 < taken) × (taken ≤ length bytes.now)) }
        ensures appended { IsTrue (state self.old).told
            → IfOk result (λ taken.
            (state self.new).written ≡ (state self.old).written ++ take taken bytes.now) }
        ensures kept { IsTrue (state self.old).told
            → OnErr result ((state self.new).written ≡ (state self.old).written) }
        ensures goes_on { SinkGoesOn (state self.old) (state self.new) }
        ensures failed { OnErr result ((state self.old).faults < (state self.new).faults) };
}

/// Appends all the bytes. After a failure a prefix of them was appended.
pub fn write_all<S: Sink>(sink: &mut S, bytes: &[u8]) -> Result<(), Failed>
    ensures appended { IsTrue (S.state sink.old).told
        → OnOk result ((S.state sink.new).written ≡ (S.state sink.old).written ++ bytes.now) }
    ensures prefix { IsTrue (S.state sink.old).told
        → OnErr result
        (AppendsPrefix (S.state sink.old).written (S.state sink.new).written bytes.now) }
    ensures goes_on { SinkGoesOn (S.state sink.old) (S.state sink.new) }
    ensures failed { OnErr result ((S.state sink.old).faults < (S.state sink.new).faults) }
{
    let mut rest = bytes;
    while !rest.is_empty() {
        let taken = sink.write(rest)?;
        rest = &rest[taken..];
    }
    Ok(())
}
