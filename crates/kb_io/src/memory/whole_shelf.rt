//! A shelf over memory that never fails.

ghost use Rattle.std.specs.Prelude.{◌≡◌, ℕ, List, Option, Some, None, OnOk, OnErr, option_map};
ghost use Rattle.kb_io.specs.States.{HoldsSame, HoldsSameBut};

use crate::shelf::{Load, Shelf, ShelfFault};
use std::alloc::{AllocError, Global};
use std::collections::BTreeMap;

/// Byte strings in memory, under names.
#[derive(Drop)]
pub struct WholeShelf {
    files: BTreeMap<String, Vec<u8>>,
}

impl WholeShelf {
    ghost use Rattle.kb_io.specs.Shelves.{whole_holds, whole_state};

    /// A shelf that holds nothing.
    pub fn new(alloc: Global) -> WholeShelf
        ensures { (name : List ℕ) → whole_holds result name ≡ None }
    {
        WholeShelf {
            files: BTreeMap::new(alloc),
        }
    }

    /// The bytes under the name.
    pub fn get(&self, name: &str) -> Option<&[u8]>
        ensures { option_map (λ bytes. bytes.now) result ≡ whole_holds self.now name.now }
    {
        self.files.get(name).map(|bytes| bytes.as_slice())
    }

    /// Puts the bytes under the name. Where memory runs out nothing changes.
    pub fn insert(&mut self, alloc: Global, name: &str, bytes: &[u8]) -> Result<(), AllocError>
        ensures put { OnOk result (whole_holds self.new name.now ≡ Some bytes.now) }
        ensures others { HoldsSameBut name.now (whole_state self.old) (whole_state self.new) }
        ensures err { OnErr result (HoldsSame (whole_state self.old) (whole_state self.new)) }
    {
        let key = String::from_str(alloc, name)?;
        let value = Vec::from_slice(alloc, bytes)?;
        self.files.insert(key, value)?;
        Ok(())
    }
}

impl Shelf for WholeShelf {
    ghost use Rattle.kb_io.specs.Shelves.{whole_holds, whole_state};

    ghost state = { whole_state };

    fn load(&mut self, alloc: Global, name: &str, max: usize) -> Result<Load, ShelfFault> {
        match self.get(name) {
            None => Ok(Load::Missing),
            Some(bytes) if bytes.len() > max => Ok(Load::TooLong),
            Some(bytes) => Ok(Load::Text(Vec::from_slice(alloc, bytes)?)),
        }
    }

    fn store(&mut self, alloc: Global, name: &str, bytes: &[u8]) -> Result<(), ShelfFault> {
        Ok(self.insert(alloc, name, bytes)?)
    }
}
