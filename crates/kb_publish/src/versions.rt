//! What the two copies hold, what they are told, and the rule of the versions.

use atomic_table::{Join, Split};
use crossbeam_utils::rule::{Outcome, Protocol};
use left_right::Absorb;
use left_right::reader::{Reader, Reading};
use left_right::writer::Writer;
use std::alloc::AllocError;
use std::collections::LinkedList;
use std::marker::PhantomData;

/// What a copy holds: a version, and whether publishing has begun.
#[derive(Drop)]
pub struct Shown<V: Drop> {
    pub version: V,
    pub begun: bool,
}

/// What the copies are told.
#[derive(Drop)]
pub enum Entry<O> {
    /// Publishing begins.
    Begins,
    /// The version takes an operation.
    Operation(O),
}

impl<V: Absorb<O> + Drop, O: Drop> Absorb<Entry<O>> for Shown<V> {
    ghost use Rattle.kb_publish.specs.Entries.{stage, entered};

    type State = (bool, V::State);

    ghost state = { stage V.state };

    ghost applied = { entered V.applied };

    ghost never_fails = { V.never_fails };

    fn absorb_first(&mut self, operation: &Entry<O>, other: &Shown<V>) -> Result<(), AllocError> {
        match operation {
            Entry::Begins => {
                self.begun = true;
                Ok(())
            }
            Entry::Operation(told) => self.version.absorb_first(told, &other.version),
        }
    }

    fn absorb_second(&mut self, operation: Entry<O>, other: &Shown<V>) -> Result<(), Entry<O>> {
        match operation {
            Entry::Begins => {
                self.begun = true;
                Ok(())
            }
            Entry::Operation(told) => match self.version.absorb_second(told, &other.version) {
                Ok(()) => Ok(()),
                Err(told) => Err(Entry::Operation(told)),
            },
        }
    }
}

/// What a thread knows of the versions: the states of those that it has seen, in their order, and whether it publishes.
/// No value of it is made; in contracts a `LinkedList` is a list.
pub struct View<S> {
    pub publishes: bool,
    pub seen: LinkedList<S>,
}

/// The rule: there is one list of versions.
pub struct OneList<O> {
    operations: PhantomData<O>,
}

impl<V: Absorb<O> + Drop, O: Drop> Protocol<Shown<V>, View<V::State>> for OneList<O> {
    ghost use Rattle.kb_publish.specs.Versions.{IsOneList, newcomer};

    ghost holds = { IsOneList V.state };

    ghost first = { newcomer };
}

/// The publisher shows a further version.
pub struct Publishes<O> {
    operations: PhantomData<O>,
}

impl<V: Absorb<O> + Drop, O: Drop> Outcome<Shown<V>, View<V::State>> for Publishes<O> {
    ghost use Rattle.kb_publish.specs.Versions.{Publishes};

    ghost then = { Publishes V.state };
}

/// A reader sees what is shown.
pub struct Looks<O> {
    operations: PhantomData<O>,
}

impl<V: Absorb<O> + Drop, O: Drop> Outcome<Shown<V>, View<V::State>> for Looks<O> {
    ghost use Rattle.kb_publish.specs.Versions.{Looks};

    ghost then = { Looks V.state };
}

/// The publisher notes what it published, for a reader.
pub struct Tells;

impl<S> Split<View<S>> for Tells {
    ghost use Rattle.kb_publish.specs.Versions.{reader_of};

    ghost left = { λ v. v };

    ghost right = { λ v. reader_of v.seen };
}

/// A reader takes in such a note.
pub struct Learns;

impl<S> Join<View<S>> for Learns {
    ghost use Rattle.kb_publish.specs.Versions.{reader_of, newcomer};

    ghost both = { λ _ note. reader_of note.seen };

    ghost spent = { newcomer };
}

/// A place at which a thread may read.
pub type Place<V, S, O> = Reader<Shown<V>, View<S>, OneList<O>>;

/// A place at which a thread is reading.
pub type TakenPlace<V, S, O> = Reading<Shown<V>, View<S>, OneList<O>>;

/// What tells both copies, and shows one of them.
pub type Press<V, S, O> = Writer<Shown<V>, Entry<O>, View<S>, OneList<O>>;
