//! Completions that came to their end, and their word acceptors.

ghost use Rattle.std.specs.Prelude.{◌≡◌, Ok, None, IfOk, IfSome};
ghost use Rattle.kb_word.specs.Presentations.{parts_of};
ghost use Rattle.kb_complete.specs.Completing.{IsCompleted};
ghost use Rattle.kb_wa.specs.Prefixes.{CountedPrefixes};
ghost use Rattle.kb_system.specs.Completed.{IsReducedSystem, IsWordAcceptor};
ghost use Rattle.kb_system.specs.Problems.{limits_of, problem_of};
ghost use Rattle.kb_system.specs.Ended.{EndsAs};

use crate::ending::Ending;
use kb_book::{Book, Limits};
use kb_explore::Det;
use kb_fsa::Fsa;
use kb_fsamin::canonical;
use kb_reduced::{reduced_complete_systems_are_complete, reduced_left_sides_keep_the_letters};
use kb_rules::{Reducer, Rules};
use kb_share::book_is_sound;
use kb_wa::{acceptor_of_rules, has_few_states};
use kb_word::{Memory, Presentation};
use std::alloc::Global;

/// The end of a completion that came to the reduced complete system: with the word acceptor, or with the log where that
/// has too many states.
pub(crate) fn completed<R: Reducer>(
    alloc: Global,
    presentation: &Presentation,
    limits: &Limits,
    rules: Rules,
    book: Book<R>,
) -> Result<Ending, Memory>
    requires problem { book.course.problem
        ≡ problem_of (limits_of limits.now) (parts_of presentation.now) }
    requires completed { IsCompleted book.course rules }
    ensures { IfOk result (EndsAs (limits_of limits.now) (parts_of presentation.now)) }
{
    book_is_sound(&book);
    // The log alone may still be asked for: the rest of the book gives its memory to the acceptor.
    let (lines, _) = book.into_log();
    if has_few_states(alloc, &rules, limits.states)? {
        // Then it isn't, and gives its memory to the acceptor too.
        drop(lines);
        return accepted(alloc, presentation, rules, limits);
    }
    match word_acceptor(alloc, presentation, &rules, limits.states)? {
        Some(acceptor) => Ok(Ending::Completed { rules, acceptor }),
        None => Ok(Ending::TooLarge { lines, rules }),
    }
}

/// The end of a completion whose reduced complete system has a word acceptor of no more states than there may be.
fn accepted(
    alloc: Global,
    presentation: &Presentation,
    rules: Rules,
    limits: &Limits,
) -> Result<Ending, Memory>
    requires order { rules.order ≡ (parts_of presentation.now).order }
    requires system { IsReducedSystem (parts_of presentation.now) rules.rules }
    requires few { ¬ CountedPrefixes rules.rules limits.now.states }
    ensures { IfOk result (EndsAs (limits_of limits.now) (parts_of presentation.now)) }
{
    let most_states = limits.states;
    match word_acceptor(alloc, presentation, &rules, most_states)? {
        Some(acceptor) => Ok(Ending::Completed { rules, acceptor }),
        None => unreachable!(),
    }
}

/// The word acceptor of a presentation, made of its reduced complete system; none where more words than there may be
/// states begin left sides.
pub fn word_acceptor(
    alloc: Global,
    presentation: &Presentation,
    rules: &Rules,
    most_states: u32,
) -> Result<Option<Fsa>, Memory>
    requires { IsReducedSystem (parts_of presentation.now) rules.now.rules }
    ensures found { IfOk result
        (λ found. IfSome found (IsWordAcceptor (parts_of presentation.now))) }
    ensures few { IfOk result
        (λ found. IfSome found (λ acceptor. ¬ CountedPrefixes rules.now.rules most_states)) }
    ensures none { result ≡ Ok None → CountedPrefixes rules.now.rules most_states }
{
    reduced_complete_systems_are_complete();
    reduced_left_sides_keep_the_letters();
    let _most = presentation.names.len();
    match acceptor_of_rules(alloc, presentation.n, rules, most_states) {
        Ok(fsa) => {
            let acceptor = canonical(alloc, &fsa)?;
            let _alphabet = acceptor.alphabet();
            Ok(Some(acceptor))
        }
        Err(Det::TooManyStates { .. }) => Ok(None),
        Err(Det::Memory) => Err(Memory),
    }
}
