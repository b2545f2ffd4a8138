//! Books.

ghost use Rattle.std.specs.Prelude.{◌≡◌, ◌≢◌, ◌+◌, ◌≤◌, ◌<◌, [], Err, IfOk, OnOk};
ghost use Rattle.std.specs.Option.{option_copied};
ghost use Rattle.kb_book.specs.Answers.{ShortenSays};
ghost use Rattle.kb_machine.specs.Course.{IsCourse};
ghost use Rattle.kb_machine.specs.States.{start, live_rules};

use crate::answers::Shorten;
use crate::limits::Limits;
use crate::versions::Versions;
use kb_machine::{Event, Halt, Line, Origin};
use kb_overlap::PairWorkspace;
use kb_rules::Reducer;
use kb_word::{Memory, Word, WordOrder};
use std::alloc::Global;
use std::collections::VecDeque;
use std::marker::Model;

/// A completion within limits, with the events that led to its state.
#[derive(Drop)]
pub struct Book<R: Reducer> {
    pub(crate) order: WordOrder,
    pub(crate) relations: Vec<(Word, Word)>,
    pub(crate) most_lines: u32,
    pub(crate) most_letters: u32,
    pub(crate) lines: Vec<Line>,
    pub(crate) live: Vec<u32>,
    pub(crate) pending: VecDeque<Origin>,
    pub(crate) versions: Versions,
    pub(crate) halt: Option<Halt>,
    pub(crate) journal: Vec<Event>,
    /// By the live rules, in line order.
    pub(crate) reducer: R,
    /// The pair that is looked at, kept to save memory; what it holds between calls counts for nothing.
    pub(crate) pair: PairWorkspace,
}

impl<R: Reducer> Model for Book<R> {
    ghost use Rattle.std.specs.Prelude.{◌≡◌, ◌≤◌, ◌-◌, vec_len, vec_capacity, min};
    ghost use Rattle.std.specs.VecDeque.{deque_len, deque_capacity};
    ghost use Rattle.kb_book.specs.Books.{BookParts, IsBook};

    ghost Value = { BookParts };

    ghost view = { λ book. record {
      course = record {
        problem = record {
          order = book.order;
          relations = book.relations.items;
          most_lines = book.most_lines;
          most_letters = book.most_letters;
        };
        state = record {
          lines = book.lines.items;
          live = book.live.items;
          pending = book.pending.items;
          versions = book.versions.published;
          halt = book.halt;
        };
        journal = book.journal.items;
      };
      spare = min (vec_capacity book.journal - vec_len book.journal)
          (deque_capacity book.pending - deque_len book.pending);
      publish_room = min (vec_capacity book.journal - vec_len book.journal) book.versions.more;
    } };

    ghost invariant = { λ book. IsBook
        (record {
          problem = record {
            order = book.order;
            relations = book.relations.items;
            most_lines = book.most_lines;
            most_letters = book.most_letters;
          };
          state = record {
            lines = book.lines.items;
            live = book.live.items;
            pending = book.pending.items;
            versions = book.versions.published;
            halt = book.halt;
          };
          journal = book.journal.items;
        })
        (R.rules book.reducer) (R.order book.reducer) book.versions };
}

impl<R: Reducer> Book<R> {
    /// All lines that were made; line k stands at place k - 1.
    pub fn lines(&self) -> &[Line]
        ensures { result.now ≡ self.now.course.state.lines }
    {
        &self.lines
    }

    /// The numbers of the live lines, ascending.
    pub fn live(&self) -> &[u32]
        ensures { result.now ≡ self.now.course.state.live }
    {
        &self.live
    }

    /// The origins of the pairs that are still to be looked at, the next one first.
    pub fn pending(&self) -> &VecDeque<Origin>
        ensures { result.now.items ≡ self.now.course.state.pending }
    {
        &self.pending
    }

    /// The versions that were published, of each of which they know the numbers of its live lines.
    pub fn versions(&self) -> &Versions
        ensures { result.now.published ≡ self.now.course.state.versions }
    {
        &self.versions
    }

    /// Why the completion halted, if it did.
    pub fn halt(&self) -> Option<&Halt>
        ensures { option_copied result ≡ self.now.course.state.halt }
    {
        self.halt.as_ref()
    }

    /// All events, the first one first.
    pub fn journal(&self) -> &[Event]
        ensures events { result.now ≡ self.now.course.journal }
        ensures course { IsCourse self.now.course }
    {
        &self.journal
    }

    /// The order by which lines decrease.
    pub fn order(&self) -> &WordOrder
        ensures { result.now ≡ self.now.course.problem.order }
    {
        &self.order
    }

    /// The relations that are completed.
    pub fn relations(&self) -> &[(Word, Word)]
        ensures { result.now ≡ self.now.course.problem.relations }
    {
        &self.relations
    }

    /// How many lines there may be, and how many letters a left side may have.
    pub fn limits(&self) -> (u32, u32)
        ensures { result
            ≡ (self.now.course.problem.most_lines, self.now.course.problem.most_letters) }
    {
        (self.most_lines, self.most_letters)
    }

    /// The reducer by the live rules, in line order.
    pub fn reducer(&self) -> &R
        ensures rules { R.rules result.now ≡ live_rules self.now.course.state }
        ensures order { R.order result.now ≡ self.now.course.problem.order }
    {
        &self.reducer
    }

    /// Makes the reducer ready for much reading, before a pass. After want of memory too the book is as it was.
    pub fn tidy(&mut self, alloc: Global) -> Result<(), Memory>
        ensures { self.new ≡ self.old }
    {
        self.reducer.tidy(alloc)
    }

    /// The lines, and why the completion halted, if it did; given back without taking memory.
    pub fn into_log(self) -> (Vec<Line>, Option<Halt>)
        ensures lines { result.0.items ≡ self.course.state.lines }
        ensures halt { result.1 ≡ self.course.state.halt }
    {
        (self.lines, self.halt)
    }
}
