//! A shelf over memory that fails where it is told to.

ghost use Rattle.std.specs.Prelude.{◌≡◌, ℕ, List, Option, Some, None, IfOk, OnOk, OnErr, option_map};
ghost use Rattle.kb_io.specs.Calls.{CountsCall, no_calls};
ghost use Rattle.kb_io.specs.Loading.{LoadGives, has_failed};
ghost use Rattle.kb_io.specs.States.{HoldsSame, HoldsSameBut};

use super::calls::FailingCalls;
use super::whole_shelf::WholeShelf;
use crate::shelf::{Load, Shelf, ShelfFault};
use std::alloc::{AllocError, Global};

/// Byte strings in memory, under names. Contracts see the loads and the stores that were made, each
/// counted apart. A load or a store that fails changes nothing that is held.
#[derive(Drop)]
pub struct MemShelf {
    shelf: WholeShelf,
    loads: FailingCalls,
    stores: FailingCalls,
}

impl MemShelf {
    ghost use Rattle.kb_io.specs.Shelves.{mem_holds, mem_loads, mem_stores, mem_state};

    /// A shelf that holds nothing, whose loads and stores with these numbers, each counted from 1, are
    /// to fail.
    pub fn new(alloc: Global, failing_loads: Vec<u64>, failing_stores: Vec<u64>) -> MemShelf
        ensures empty { (name : List ℕ) → mem_holds result name ≡ None }
        ensures loads { mem_loads result ≡ no_calls failing_loads.items }
        ensures stores { mem_stores result ≡ no_calls failing_stores.items }
    {
        MemShelf {
            shelf: WholeShelf::new(alloc),
            loads: FailingCalls::new(failing_loads),
            stores: FailingCalls::new(failing_stores),
        }
    }

    /// The bytes under the name.
    pub fn get(&self, name: &str) -> Option<&[u8]>
        ensures { option_map (λ bytes. bytes.now) result ≡ mem_holds self.now name.now }
    {
        self.shelf.get(name)
    }

    /// Puts the bytes under the name, and counts as no load and no store. Where memory runs out nothing
    /// changes.
    pub fn insert(&mut self, alloc: Global, name: &str, bytes: &[u8]) -> Result<(), AllocError>
        ensures put { OnOk result (mem_holds self.new name.now ≡ Some bytes.now) }
        ensures others { HoldsSameBut name.now (mem_state self.old) (mem_state self.new) }
        ensures err { OnErr result (HoldsSame (mem_state self.old) (mem_state self.new)) }
        ensures loads { mem_loads self.new ≡ mem_loads self.old }
        ensures stores { mem_stores self.new ≡ mem_stores self.old }
    {
        self.shelf.insert(alloc, name, bytes)
    }
}

impl Shelf for MemShelf {
    ghost use Rattle.kb_io.specs.Shelves.{mem_holds, mem_loads, mem_stores, mem_state};

    ghost state = { mem_state };

    /// Answers `Failed` exactly where the number of the load is to fail.
    fn load(&mut self, alloc: Global, name: &str, max: usize) -> Result<Load, ShelfFault>
        ensures loaded { IfOk result (LoadGives (mem_holds self.old name.now) max) }
        ensures unchanged { HoldsSame (mem_state self.old) (mem_state self.new) }
        ensures loads { CountsCall (has_failed result) (mem_loads self.old) (mem_loads self.new) }
        ensures stores { mem_stores self.new ≡ mem_stores self.old }
    {
        if self.loads.next_fails() {
            return Err(ShelfFault::Failed);
        }
        self.shelf.load(alloc, name, max)
    }

    /// Answers `Failed` exactly where the number of the store is to fail. After either fault nothing
    /// that is held has changed.
    fn store(&mut self, alloc: Global, name: &str, bytes: &[u8]) -> Result<(), ShelfFault>
        ensures stored { OnOk result (mem_holds self.new name.now ≡ Some bytes.now) }
        ensures others { HoldsSameBut name.now (mem_state self.old) (mem_state self.new) }
        ensures err { OnErr result (HoldsSame (mem_state self.old) (mem_state self.new)) }
        ensures stores { CountsCall (has_failed result) (mem_stores self.old) (mem_stores self.new) }
        ensures loads { mem_loads self.new ≡ mem_loads self.old }
    {
        if self.stores.next_fails() {
            return Err(ShelfFault::Failed);
        }
        self.shelf.store(alloc, name, bytes)
    }
}
