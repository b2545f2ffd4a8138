//! A shelf that notes what is stored.

use kb_io::{Load, MemShelf, Shelf, ShelfFault};
use std::alloc::Global;

/// A shelf over memory, and the names under which something was to be stored. Contracts know none of its bytes.
#[derive(Drop)]
pub(crate) struct NotedShelf {
    shelf: MemShelf,
    names: Vec<String>,
}

impl NotedShelf {
    /// This shelf, on which nothing was stored.
    pub(crate) fn of(alloc: Global, shelf: MemShelf) -> NotedShelf {
        NotedShelf {
            shelf,
            names: Vec::new(alloc),
        }
    }

    /// The bytes under the name.
    pub(crate) fn get(&self, name: &str) -> Option<&[u8]> {
        self.shelf.get(name)
    }

    /// The names under which something was to be stored.
    pub(crate) fn names(&self) -> &[String] {
        self.names.as_slice()
    }
}

impl Shelf for NotedShelf {
    ghost use Rattle.std.specs.Prelude.{None, false};
    ghost use Rattle.kb_io.specs.Shelves.{mem_loads, mem_stores};

    ghost state = { λ it. record {
      told = false;
      holds = λ name. None;
      load_faults = (mem_loads it.shelf).faults;
      store_faults = (mem_stores it.shelf).faults;
    } };

    fn load(&mut self, alloc: Global, name: &str, max: usize) -> Result<Load, ShelfFault> {
        self.shelf.load(alloc, name, max)
    }

    fn store(&mut self, alloc: Global, name: &str, bytes: &[u8]) -> Result<(), ShelfFault> {
        self.names.push(String::from_str(alloc, name)?)?;
        self.shelf.store(alloc, name, bytes)
    }
}
