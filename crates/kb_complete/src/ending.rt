//! What follows a pass: the live rules are confluent, or a line is made of the first overlap that was entered.

ghost use Rattle.std.specs.Prelude.{◌≡◌, IfOk, IfNone, IfSome};
ghost use Rattle.kb_word.specs.Overlap.{IsConfluent};
ghost use Rattle.kb_machine.specs.States.{live_rules as rules_that_live};
ghost use Rattle.kb_machine.specs.Course.{Takes};
ghost use Rattle.kb_machine.specs.declared.event.Event.TheVariants.{Made};
ghost use Rattle.kb_share.specs.Finding.{Knows};
ghost use Rattle.kb_share.specs.declared.finding.Finder.{Finder as FinderParts};
ghost use Rattle.kb_complete.specs.Completing.{Continues, GrowSays, IsHalted, KnowsGrown};
ghost use Rattle.kb_complete.specs.Working.{FirstIsApart, IsSettled};

use crate::answers::Grown;
use crate::publishing::{Standing, settle_and_publish};
use kb_book::{Book, Make};
use kb_draw::Crew;
use kb_index::HasAutomaton;
use kb_io::Gate;
use kb_reduced::{
    reduced_by_the_same_congruence, reduced_complete, rules_that_cover_are_confluent,
};
use kb_rules::Reducer;
use kb_share::{Finder, Watch, book_is_sound, line_made};
use kb_word::Memory;
use std::alloc::Global;
use std::sync::Wait;
use std::thread::Threads;

/// The end, where the live rules are confluent.
pub(crate) fn completed<R: Reducer>(alloc: Global, book: Book<R>) -> Result<Grown<R>, Memory>
    requires settled { IsSettled book.course }
    requires confluent { IsConfluent (rules_that_live book.course.state) }
    ensures says { IfOk result (GrowSays book.course) }
    ensures known { (finder : FinderParts) → Knows finder book.course.state
        → IfOk result (KnowsGrown finder) }
{
    book_is_sound(&book);
    let reducer = book.reducer();
    let rules = reducer.list();
    let reduced = reduced_complete(alloc, rules, reducer)?;
    reduced_by_the_same_congruence();
    rules_that_cover_are_confluent();
    Ok(Grown::Confluent(reduced, book))
}

/// Makes a line of the first pending pair, whose words have different normal forms, and settles the book, or halts.
pub(crate) fn grow_by_first<
    R: HasAutomaton + Send + Sync,
    G: Gate,
    W: Watch,
    T: Threads + Wait + Sync,
>(
    rt: &T,
    alloc: Global,
    mut book: Book<R>,
    finder: &mut Finder,
    crew: &Crew<'_, G>,
    watch: &mut W,
) -> Result<Grown<R>, Memory>
    requires apart { FirstIsApart book.course }
    requires known { Knows finder.old book.course.state }
    ensures says { IfOk result (GrowSays book.course) }
    ensures known { IfOk result (KnowsGrown finder.new) }
{
    let Some(k) = make_line(alloc, &mut book)? else {
        return Ok(Grown::Halted(book));
    };
    line_made(alloc, &mut book, k, finder, watch)?;
    let (settled, standing) = settle_and_publish(rt, alloc, book, finder, crew, watch)?;
    match standing {
        Standing::Published => Ok(Grown::More(settled)),
        Standing::Halted => Ok(Grown::Halted(settled)),
    }
}

/// Makes a line of the first pending pair, whose words have different normal forms, unless the book halts.
fn make_line<R: Reducer>(alloc: Global, book: &mut Book<R>) -> Result<Option<u32>, Memory>
    requires { FirstIsApart book.old.course }
    ensures made { IfOk result
        (λ made. IfSome made (λ k. Takes (Made k) book.old.course book.new.course)) }
    ensures halted { IfOk result (λ made. IfNone made
        (Continues book.old.course book.new.course × IsHalted book.new.course)) }
    ensures known { (finder : FinderParts) → Knows finder book.old.course.state
        → Knows finder book.new.course.state }
{
    match book.make(alloc)? {
        Make::Made(k) => Ok(Some(k)),
        Make::Halted(_) => Ok(None),
        Make::Dropped => unreachable!(),
        Make::Idle => unreachable!(),
    }
}
