//! Books at the start.

ghost use Rattle.std.specs.Prelude.{◌≡◌, ◌+◌, [], IfOk, IfSome};
ghost use Rattle.kb_word.specs.Presentations.{parts_of};
ghost use Rattle.kb_machine.specs.States.{relation_origins, start};
ghost use Rattle.kb_book.specs.Problems.{problem_of};

use crate::book::Book;
use crate::limits::Limits;
use crate::versions::Versions;
use kb_machine::Origin;
use kb_overlap::PairWorkspace;
use kb_rules::{Reducer, Rules};
use kb_word::{Memory, Presentation, Word, WordOrder};
use std::alloc::Global;
use std::collections::VecDeque;

impl<R: Reducer> Book<R> {
    /// The book at the start: all relations are pending.
    pub fn new(
        alloc: Global,
        presentation: &Presentation,
        limits: &Limits,
    ) -> Result<Book<R>, Memory>
        ensures problem { IfOk result (λ book. book.course.problem
            ≡ problem_of (parts_of presentation.now) limits.now.rules limits.now.len) }
        ensures state { IfOk result (λ book. book.course.state ≡ start book.course.problem) }
        ensures journal { IfOk result (λ book. book.course.journal ≡ []) }
    {
        let order = presentation.order.copy(alloc)?;
        let relations = presentation.relations(alloc)?;
        let pending = origins_of(alloc, &relations)?;
        let reducer = without_rules(alloc, &order)?;
        Ok(Book {
            order,
            relations,
            most_lines: limits.rules,
            most_letters: limits.len,
            lines: Vec::new(alloc),
            live: Vec::new(alloc),
            pending,
            versions: Versions::new(alloc),
            halt: None,
            journal: Vec::new(alloc),
            reducer,
            pair: PairWorkspace::new(alloc),
        })
    }
}

/// The reducer by no rules, which is to have rules that decrease along an order.
fn without_rules<R: Reducer>(alloc: Global, order: &WordOrder) -> Result<R, Memory>
    ensures rules { IfOk result (λ reducer. R.rules reducer ≡ []) }
    ensures order { IfOk result (λ reducer. R.order reducer ≡ order.now) }
{
    let rules = Rules::new(alloc, order.copy(alloc)?);
    R::of(alloc, &rules)
}

/// The origins of the relations, in order. More relations than a `u32` can number take more memory than there is.
fn origins_of(alloc: Global, relations: &[(Word, Word)]) -> Result<VecDeque<Origin>, Memory>
    ensures { IfOk result (λ origins. origins.items ≡ relation_origins 1 relations.now) }
{
    let mut origins = VecDeque::new(alloc);
    for (place, _) in relations.iter().enumerate() {
        let number = number_at(place).ok_or(Memory)?;
        origins.push_back(Origin::Relation(number))?;
    }
    Ok(origins)
}

/// The number of what stands at a place.
fn number_at(place: usize) -> Option<u32>
    ensures { IfSome result (λ number. number ≡ 1 + place) }
{
    u32::try_from(place.checked_add(1)?).ok()
}
