//! Files from the shelf.

ghost use Rattle.std.specs.Prelude.{◌≡◌, ◌≤◌, length, IsTrue, IfOk, IfErr};
ghost use Rattle.kb_task.specs.Loads.{most_file, IsHeld, IsNoText, IsCause, OnlyLoads, LoadIsCounted, stopped_at};

use crate::status::{FileFault, Refusal, Status, Which};
use kb_io::{Load, Shelf, ShelfFault};
use kb_word::OwnedText;
use std::alloc::Global;

pub(crate) mod automata;
pub(crate) mod logs;
pub(crate) mod presentations;
pub(crate) mod subgroups;

/// A file has at most so many bytes.
const MOST_FILE: usize = 16_777_216;

/// Why a run stops at a file.
#[derive(Drop)]
pub enum LoadStop {
    /// The file is refused.
    Refused(FileFault),
    /// The load failed.
    Failed,
    /// Memory ran out.
    Memory,
}

impl LoadStop {
    /// The status of a run that stops at the file of this name.
    pub(crate) fn status(self, name: OwnedText) -> Status
        ensures { result ≡ stopped_at name self }
    {
        match self {
            LoadStop::Refused(fault) => Status::Refused(Refusal::File { name, fault }),
            LoadStop::Failed => Status::Fault(Which::Load(name)),
            LoadStop::Memory => Status::Memory,
        }
    }
}

/// The bytes of the file of this name. They are counted here, since a shelf whose bytes contracts don't know promises
/// nothing of their number.
pub fn load_text<F: Shelf>(alloc: Global, name: &str, shelf: &mut F) -> Result<Vec<u8>, LoadStop>
    ensures held { IsTrue (F.state shelf.old).told
        → IfOk result (λ bytes. IsHeld (F.state shelf.old).holds name.now bytes.items) }
    ensures short { IfOk result (λ bytes. length bytes.items ≤ most_file) }
    ensures stops { IsTrue (F.state shelf.old).told
        → IfErr result (IsCause (IsNoText (F.state shelf.old).holds name.now)) }
    ensures counted { IfErr result (LoadIsCounted (F.state shelf.old) (F.state shelf.new)) }
    ensures only_loads { OnlyLoads (F.state shelf.old) (F.state shelf.new) }
{
    match shelf.load(alloc, name, MOST_FILE) {
        Ok(Load::Text(bytes)) if bytes.len() <= MOST_FILE => Ok(bytes),
        Ok(Load::Text(_)) => Err(LoadStop::Refused(FileFault::TooLong)),
        Ok(Load::Missing) => Err(LoadStop::Refused(FileFault::Missing)),
        Ok(Load::TooLong) => Err(LoadStop::Refused(FileFault::TooLong)),
        Err(ShelfFault::Failed) => Err(LoadStop::Failed),
        Err(ShelfFault::Memory) => Err(LoadStop::Memory),
    }
}
