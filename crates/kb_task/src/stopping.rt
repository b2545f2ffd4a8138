//! The status of a run that a stop ends.

ghost use Rattle.std.specs.Prelude.{◌≡◌};
ghost use Rattle.kb_task.specs.Stops.{stop_status};

use crate::status::{Refusal, Status, Which};
use kb_lines::Stop;

/// The status of a run that a stop ends.
pub fn status_of(stop: Stop) -> Status
    ensures { result ≡ stop_status stop }
{
    match stop {
        Stop::Refused { number, fault } => Status::Refused(Refusal::Line { number, fault }),
        Stop::TooLong => Status::Refused(Refusal::InputTooLong),
        Stop::Input => Status::Fault(Which::Input),
        Stop::Output => Status::Fault(Which::Output),
        Stop::Memory => Status::Memory,
    }
}
