//! What publishes.

ghost use Rattle.std.specs.Prelude.{◌≡◌, ◌≤◌, true, false, [], ◌∷◌, ◌++◌, length, drop, fold, All};
ghost use Rattle.std.specs.Prelude.{IsOk, IfOk, IfSome, OnOk, OnErr, MatchResult};
ghost use Rattle.left_right.specs.Sides.{view};
ghost use Rattle.kb_publish.specs.Entries.{operations};
ghost use Rattle.kb_publish.specs.Versions.{MayPublish, newcomer, publisher_of};
ghost use Rattle.kb_publish.specs.Publishing.{Grows};

use crate::in_place::publish_in_place;
use crate::notes::{NoteBook, add};
use crate::versions::{Entry, Learns, Place, Press, Publishes, Shown, Tells};
use crate::{RuledGlass, VersionReader};
use kb_word::Memory;
use left_right::Absorb;
use left_right::writer::Writer;
use std::alloc::Global;
use std::marker::Model;
use std::sync::Wait;

/// Publishes versions, one after another: it is told operations, and publishes what they make of the version that was
/// published last. Contracts see it as the states of the versions that it has published, and the operations that it was
/// told since. It is not `Drop`: end it by `close`.
pub struct Publisher<V: Absorb<O> + Drop, O: Drop>
where
    Shown<V>: Absorb<Entry<O>, State = (bool, V::State)>,
{
    press: Press<V, V::State, O>,
    notes: NoteBook<V, V::State>,
}

impl<V: Absorb<O> + Drop, O: Drop> Model for Publisher<V, O>
where
    Shown<V>: Absorb<Entry<O>, State = (bool, V::State)>,
{
    ghost use Rattle.std.specs.Prelude.{◌≡◌, true, Some, drop};
    ghost use Rattle.kb_publish.specs.Publishing.{Publishing};

    ghost Value = { Publishing V.State O };

    ghost use Rattle.left_right.specs.Sides as sides;
    ghost use Rattle.kb_publish.specs.Entries.{operations};
    ghost use Rattle.kb_publish.specs.Versions.{last, publisher_of};

    ghost view = { λ publisher. record {
      published = publisher.notes;
      pending = operations (drop publisher.press.behind publisher.press.log.items);
    } };

    ghost invariant = { λ publisher.
        (sides.view publisher.press.desk.place ≡ publisher_of publisher.notes)
        × (last publisher.notes ≡ Some (V.state publisher.press.desk.shown.value.version))
        × (publisher.press.desk.shown.value.begun ≡ true) };
}

impl<V: Absorb<O> + Drop, O: Drop> Publisher<V, O> {
    ghost use Rattle.kb_publish.specs.Readers.{seen_through};

    /// Publishes a first version, and makes so many readers of it. Two copies are given, of which each takes the
    /// operations that are told.
    pub fn new<T: Wait>(
        rt: &T,
        alloc: Global,
        first: V,
        second: V,
        readers: u32,
    ) -> Result<(Publisher<V, O>, Vec<VersionReader<RuledGlass<V, O>>>), Memory>
        requires readers { (1 ≤ readers) × (readers ≤ 64) }
        requires alike { V.state first ≡ V.state second }
        ensures published { IfOk result (λ made.
            made.0 ≡ record { published = V.state first ∷ []; pending = [] }) }
        ensures readers { IfOk result (λ made.
            (length made.1.items ≡ readers)
            × All (λ reader. seen_through reader.glass ≡ V.state first ∷ []) made.1.items) }
    {
        let mut publisher = Publisher::opened(rt, alloc, first, second, readers)?;
        match publisher.readers(alloc, readers) {
            Ok(made) => Ok((publisher, made)),
            Err(memory) => {
                publisher.close(rt);
                Err(memory)
            }
        }
    }

    /// A publisher of a first version, with places for so many readers.
    fn opened<T: Wait>(
        rt: &T,
        alloc: Global,
        first: V,
        second: V,
        readers: u32,
    ) -> Result<Publisher<V, O>, Memory>
        requires readers { (1 ≤ readers) × (readers ≤ 64) }
        requires alike { V.state first ≡ V.state second }
        ensures { IfOk result (λ publisher.
            publisher ≡ record { published = V.state first ∷ []; pending = [] }) }
    {
        let mut notes = NoteBook::new(alloc)?;
        add::<V, O>(&mut notes, &first);
        let one = Shown {
            version: first,
            begun: false,
        };
        let other = Shown {
            version: second,
            begun: false,
        };
        let mut press: Press<V, V::State, O> = Writer::new(alloc, one, other, readers as usize)?;
        match begin(&mut press, rt) {
            Ok(()) => Ok(Publisher { press, notes }),
            Err(memory) => {
                press.take(rt);
                Err(memory)
            }
        }
    }

    /// Tells an operation. What is published stays the same. After want of memory nothing is told.
    pub fn append(&mut self, operation: O) -> Result<(), Memory>
        ensures told { OnOk result (self.new ≡ record {
          published = self.old.published;
          pending = self.old.pending ++ operation ∷ [];
        }) }
        ensures nothing { OnErr result (self.new ≡ self.old) }
    {
        match self.press.append(Entry::Operation(operation)) {
            Ok(()) => {}
            Err(_) => return Err(Memory),
        }
        Ok(())
    }

    /// Publishes what the operations make of the version that was published last: from now on a look shows it. Nothing
    /// is copied, and each operation is applied to both copies, to the second one by the publication after this. It may
    /// wait for readers that still look at the version before the last. After want of memory nothing is published, and
    /// what was told is still told.
    pub fn publish<T: Wait>(&mut self, rt: &T) -> Result<(), Memory>
        ensures publishes { OnOk result (Grows V.applied self.old self.new) }
        ensures nothing { OnErr result (self.new ≡ self.old) }
        ensures succeeds { V.never_fails → IsOk result }
    {
        show(&mut self.press, rt)?;
        add::<V, O>(&mut self.notes, &self.press.published().version);
        Ok(())
    }

    /// Makes known to a reader all that was published: its next look shows nothing older. It takes no memory and
    /// waits for nobody. The reader gets a place of this publisher; where none is free, it refuses each look until
    /// it is told again.
    pub fn tell(
        &mut self,
        reader: VersionReader<RuledGlass<V, O>>,
    ) -> VersionReader<RuledGlass<V, O>>
        ensures told { seen_through result.glass ≡ self.old.published }
        ensures refusals { result.glass.refusals ≡ reader.glass.refusals }
        ensures same { self.new ≡ self.old }
    {
        let refusals = reader.glass.refusals();
        drop(reader);
        let window = match self.place() {
            Some(place) => Ok(place),
            None => Err(self.notes.copied()),
        };
        VersionReader::new(RuledGlass::new(window, refusals))
    }

    /// A fresh place that knows all that was published, where one is free.
    fn place(&mut self) -> Option<Place<V, V::State, O>>
        ensures told { IfSome result (λ place. (view place.place).seen ≡ self.old.published) }
        ensures same { self.new ≡ self.old }
    {
        let mut place = self.press.factory().reader().ok()?;
        place.learn::<Learns>(self.press.tell::<Tells>());
        Some(place)
    }

    /// Readers that have seen all that was published.
    fn readers(
        &mut self,
        alloc: Global,
        readers: u32,
    ) -> Result<Vec<VersionReader<RuledGlass<V, O>>>, Memory>
        ensures count { IfOk result (λ made. length made.items ≡ readers) }
        ensures told { IfOk result (λ made.
            All (λ reader. seen_through reader.glass ≡ self.old.published) made.items) }
        ensures same { self.new ≡ self.old }
    {
        let mut made = Vec::new(alloc);
        for _ in 0..readers {
            // There are as many places as readers, and none is taken yet, so that none is wanting.
            let Some(place) = self.place() else {
                return Err(Memory);
            };
            made.push(VersionReader::new(RuledGlass::new(Ok(place), 0)))?;
        }
        Ok(made)
    }

    /// Ends publishing: from now on each look is refused. It waits for readers that still look. What is pending is
    /// dropped.
    pub fn close<T: Wait>(self, rt: &T) {
        let Publisher {
            press,
            notes: _notes,
        } = self;
        press.take(rt);
    }
}

/// Begins publishing: shows the first version.
fn begin<V: Absorb<O> + Drop, O: Drop, T: Wait>(
    press: &mut Press<V, V::State, O>,
    rt: &T,
) -> Result<(), Memory>
    requires unseen { view press.old.desk.place ≡ newcomer }
    requires unbegun { press.old.desk.shown.value.begun ≡ false }
    requires untold { drop press.old.behind press.old.log.items ≡ [] }
    ensures published { OnOk result (view press.new.desk.place
        ≡ publisher_of (V.state press.old.desk.shown.value.version ∷ [])) }
    ensures shown { OnOk result ((press.new.desk.shown.value.begun ≡ true)
        × (V.state press.new.desk.shown.value.version
        ≡ V.state press.old.desk.shown.value.version)) }
    ensures told { OnOk result (drop press.new.behind press.new.log.items ≡ []) }
{
    match press.append(Entry::Begins) {
        Ok(()) => show(press, rt),
        Err(_) => Err(Memory),
    }
}

/// Shows a further version from now on: what the entries that were told make of the one that was shown. After want of
/// memory what is shown is as it was, and so is what was told.
fn show<V: Absorb<O> + Drop, O: Drop, T: Wait>(
    press: &mut Press<V, V::State, O>,
    rt: &T,
) -> Result<(), Memory>
    requires { MayPublish (view press.old.desk.place) press.old.desk.shown.value
        (drop press.old.behind press.old.log.items) }
    ensures published { MatchResult result
        (λ _. view press.new.desk.place
        ≡ publisher_of ((view press.old.desk.place).seen
        ++ V.state press.new.desk.shown.value.version ∷ []))
        (λ _. view press.new.desk.place ≡ view press.old.desk.place) }
    ensures shown { MatchResult result
        (λ _. (press.new.desk.shown.value.begun ≡ true)
        × (V.state press.new.desk.shown.value.version
        ≡ fold V.applied (V.state press.old.desk.shown.value.version)
        (operations (drop press.old.behind press.old.log.items))))
        (λ _. press.new.desk.shown.value ≡ press.old.desk.shown.value) }
    ensures told { MatchResult result
        (λ _. drop press.new.behind press.new.log.items ≡ [])
        (λ _. drop press.new.behind press.new.log.items
        ≡ drop press.old.behind press.old.log.items) }
    ensures succeeds { V.never_fails → IsOk result }
{
    publish_in_place::<Publishes<O>, _, _, _, _, T>(press, rt)?;
    Ok(())
}
