//! The live rules of a completion are rules of the group.

ghost use Rattle.std.specs.Prelude.{◌≡◌, []};
ghost use Rattle.kb_word.specs.Congruence.{SameCongruence};
ghost use Rattle.kb_word.specs.Relations.{relations_of};
ghost use Rattle.kb_diff.specs.Groups.{AreRulesOver};
ghost use Rattle.kb_machine.specs.States.{live_rules};
ghost use Rattle.kb_labels.specs.Labels.{AreEqualSides};
ghost use Rattle.kb_system.specs.Evidence.{AreLiveRules};

use kb_book::Book;
use kb_machine::courses_bring_no_letters;
use kb_rules::Reducer;
use kb_share::book_is_sound;
use kb_word::Presentation;

/// The live rules of a completion of the presentation are words over its generators, both sides of each are the same
/// element, and they are those of the log; where nothing is pending they generate the congruence. It does nothing when
/// it runs.
pub(crate) fn live_rules_are_of_the_group<R: Reducer>(presentation: &Presentation, book: &Book<R>)
    requires { book.now.course.problem.relations
        ≡ relations_of presentation.now.inv presentation.now.eqs }
    ensures letters { AreRulesOver presentation.now.n (live_rules book.now.course.state) }
    ensures sides { AreEqualSides (relations_of presentation.now.inv presentation.now.eqs)
        (live_rules book.now.course.state) }
    ensures live { AreLiveRules book.now.course.state.lines (live_rules book.now.course.state) }
    ensures same { book.now.course.state.pending ≡ []
        → SameCongruence (relations_of presentation.now.inv presentation.now.eqs)
        (live_rules book.now.course.state) }
{
    courses_bring_no_letters();
    book_is_sound(book);
    let _journal = book.journal();
}
