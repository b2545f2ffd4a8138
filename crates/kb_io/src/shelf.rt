//! What is kept: byte strings under names.

ghost use Rattle.std.specs.Prelude.{◌≡◌, ◌<◌, Some, Err, IsTrue, IfOk, OnOk};
ghost use Rattle.kb_io.specs.Loading.{LoadGives};
ghost use Rattle.kb_io.specs.States.{ShelfState, ShelfGoesOn, HoldsSame, HoldsSameBut};
ghost use Rattle.kb_io.specs.declared.shelf.ShelfFault.{ShelfFault};
ghost use Rattle.kb_io.specs.declared.shelf.ShelfFault.TheVariants.{Failed, Memory};

use crate::failed::Failed as StreamFailed;
use std::alloc::{AllocError, AllocFailed, Global};
use std::{fmt, io};

/// What a shelf holds under a name.
#[derive(Debug, Drop)]
pub enum Load {
    /// All its bytes.
    Text(Vec<u8>),
    /// There is no such name.
    Missing,
    /// It has more bytes than were asked for.
    TooLong,
}

/// Why a shelf did not answer.
#[derive(Clone, Copy, Debug, PartialEq, Eq)]
pub enum ShelfFault {
    /// The device failed.
    Failed,
    /// Memory ran out.
    Memory,
}

impl fmt::Display for ShelfFault {
    fn fmt<W: fmt::Write>(&self, f: &mut fmt::Formatter<W>) -> fmt::Result {
        match self {
            ShelfFault::Failed => write!(f, "a file failed"),
            ShelfFault::Memory => write!(f, "no memory"),
        }
    }
}

impl std::error::Error for ShelfFault {}

impl From<AllocError> for ShelfFault {
    ghost from_gives = { λ _ fault. fault ≡ Memory };

    fn from(_: AllocError) -> ShelfFault {
        ShelfFault::Memory
    }
}

impl<T: Drop> From<AllocFailed<T>> for ShelfFault {
    ghost from_gives = { λ _ fault. fault ≡ Memory };

    fn from(_: AllocFailed<T>) -> ShelfFault {
        ShelfFault::Memory
    }
}

impl From<StreamFailed> for ShelfFault {
    ghost from_gives = { λ _ fault. fault ≡ Failed };

    fn from(_: StreamFailed) -> ShelfFault {
        ShelfFault::Failed
    }
}

impl From<io::Error> for ShelfFault {
    ghost from_gives = { λ _ fault. fault ≡ Failed };

    fn from(_: io::Error) -> ShelfFault {
        ShelfFault::Failed
    }
}

/// Byte strings under names, each of which is loaded and stored as a whole.
///
/// Its state is whether contracts know its bytes (`told`), what is held under each name where they do
/// (`holds`), and how many loads and how many stores have failed (`load_faults`, `store_faults`);
/// neither count ever falls.
pub trait Shelf {
    ghost state: { Self → ShelfState };

    /// The bytes under the name, if it has at most so many.
    fn load(&mut self, alloc: Global, name: &str, max: usize) -> Result<Load, ShelfFault>
        ensures loaded { IsTrue (state self.old).told
            → IfOk result (LoadGives ((state self.old).holds name.now) max) }
        ensures unchanged { HoldsSame (state self.old) (state self.new) }
        ensures goes_on { ShelfGoesOn (state self.old) (state self.new) }
        ensures failed { result ≡ Err ShelfFault.Failed
            → (state self.old).load_faults < (state self.new).load_faults }
        ensures stores { (state self.new).store_faults ≡ (state self.old).store_faults };

    /// Puts the bytes under the name, in place of what was held there. After `Failed` the content under
    /// the name is unspecified. Where memory ran out nothing changed.
    fn store(&mut self, alloc: Global, name: &str, bytes: &[u8]) -> Result<(), ShelfFault>
        ensures stored { IsTrue (state self.old).told
            → OnOk result ((state self.new).holds name.now ≡ Some bytes.now) }
        ensures others { HoldsSameBut name.now (state self.old) (state self.new) }
        ensures unchanged { result ≡ Err ShelfFault.Memory
            → HoldsSame (state self.old) (state self.new) }
        ensures goes_on { ShelfGoesOn (state self.old) (state self.new) }
        ensures failed { result ≡ Err ShelfFault.Failed
            → (state self.old).store_faults < (state self.new).store_faults }
        ensures loads { (state self.new).load_faults ≡ (state self.old).load_faults };
}
