//! The live lines are published as a version.

ghost use Rattle.std.specs.Prelude.{◌≡◌, ◌<◌, ◌≤◌, IsOk, OnOk};
ghost use Rattle.kb_book.specs.Answers.{PublishSays};

use crate::book::Book;
use crate::room::{add, make_publish_room};
use kb_machine::Event;
use kb_rules::Reducer;
use kb_word::Memory;

impl<R: Reducer> Book<R> {
    /// Publishes the live lines as a version, and returns its number, from 1 on. It takes no memory where the book has
    /// room for a publication.
    pub fn publish(&mut self) -> Result<u64, Memory>
        ensures says { PublishSays self.old.course self.new.course result }
        ensures room { 0 < self.old.publish_room → IsOk result }
    {
        make_publish_room(&mut self.journal, &self.versions)?;
        self.versions.publish();
        add(&mut self.journal, Event::Published);
        Ok(self.versions.len() as u64)
    }

    /// Makes room for a publication.
    pub fn reserve_publish(&mut self) -> Result<(), Memory>
        ensures ok { OnOk result (0 < self.new.publish_room) }
        ensures same { self.new.course ≡ self.old.course }
        ensures spare { self.old.spare ≤ self.new.spare }
    {
        make_publish_room(&mut self.journal, &self.versions)
    }
}
