//! Notes of what was published, for contracts alone. A note has no bytes, and may go to any thread.

ghost use Rattle.std.specs.Prelude.{◌≡◌, [], ◌∷◌, ◌++◌};

use atomic_table::{Play, Seat, Split, Table, TableRule};
use kb_word::Memory;
use left_right::Absorb;
use std::alloc::Global;
use std::collections::LinkedList;
use std::marker::{Model, PhantomData};

/// A note has the states of the versions that were published when it was taken. In contracts a `LinkedList` is a list.
pub type Note<V, S> = Seat<V, LinkedList<S>>;

/// Any notes may stand side by side.
pub struct AnyNotes;

impl<V, S> TableRule<V, LinkedList<S>, ()> for AnyNotes {
    ghost use Rattle.std.specs.Prelude.{[]};

    ghost holds = { λ _ _. Unit {0} };

    ghost first = { λ _. [] };
}

/// A further version is noted, by its state.
struct Writes<O> {
    operations: PhantomData<O>,
}

impl<V: Absorb<O> + Drop, O: Drop> Play<V, LinkedList<V::State>> for Writes<O> {
    ghost use Rattle.kb_publish.specs.Notes.{writes};

    ghost then = { writes V.state };
}

/// A note is copied.
struct Copies;

impl<S> Split<LinkedList<S>> for Copies {
    ghost left = { λ v. v };

    ghost right = { λ v. v };
}

/// A book with a note of what is published. Contracts see it as the list of the states.
#[derive(Drop)]
pub struct NoteBook<V: Drop, S> {
    table: Table<V, LinkedList<S>, (), AnyNotes, Global>,
    note: Note<V, S>,
}

impl<V: Drop, S> Model for NoteBook<V, S> {
    ghost use Rattle.std.specs.Prelude.{◌≡◌, List, []};

    ghost Value = { List S };

    ghost view = { λ book. book.note.me.0 };

    ghost invariant = { λ book.
        (book.note.table_id ≡ book.table.shared.table_id)
        × (book.table.shared.table_id.words ≡ 1) × (book.note.me.1 ≡ []) };
}

impl<V: Drop, S> NoteBook<V, S> {
    ghost use Rattle.std.specs.Prelude.{IfOk};

    /// A book in which nothing is noted.
    pub fn new(alloc: Global) -> Result<NoteBook<V, S>, Memory>
        ensures { IfOk result (λ book. book ≡ []) }
    {
        let (table, note) = Table::of_words(alloc, &[0], &())?;
        Ok(NoteBook { table, note })
    }

    /// A note of all that was published.
    pub fn copied(&mut self) -> Note<V, S>
        ensures note { result.me.0 ≡ self.old }
        ensures same { self.new ≡ self.old }
    {
        let table = &self.table;
        let shared = &table.shared;
        shared.split_seat::<Copies>(&mut self.note)
    }
}

/// Notes a further version, by its state.
pub fn add<V: Absorb<O> + Drop, O: Drop>(book: &mut NoteBook<V, V::State>, version: &V)
    ensures { book.new ≡ book.old ++ V.state version.now ∷ [] }
{
    let table = &book.table;
    let shared = &table.shared;
    shared.compare_exchange_with::<Writes<O>>(&mut book.note, 0, 0, 0, version);
}
