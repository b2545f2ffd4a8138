//! Laws: a file that doesn't hold what is needed is refused for one reason only.

ghost use Rattle.std.specs.Prelude.{◌≡◌, ℕ, List};
ghost use Rattle.kb_fsa.specs.declared.alphabet.Alphabet.{Alphabet};
ghost use Rattle.kb_task.specs.Automata.{IsAutomatonFault, IsSecondFault};
ghost use Rattle.kb_proof.specs.Printable.{AreReadableNames};
ghost use Rattle.kb_task.specs.Loads.{Files};
ghost use Rattle.kb_task.specs.Logs.{IsDerivationsFault};
ghost use Rattle.kb_task.specs.OneReason.{HaveOneReason};
ghost use Rattle.kb_task.specs.Presentations.{IsGroupFault, IsPresentationFault};
ghost use Rattle.kb_task.specs.declared.loading.automata.Kind.{Kind};
ghost use Rattle.kb_task.specs.declared.status.FileFault.{FileFault};

use kb_fsafile::{
    a_text_says_one_automaton, an_automaton_file_has_no_fault, an_automaton_file_has_one_fault,
};
use kb_presfile::{
    a_presentation_file_has_no_fault, a_presentation_file_has_one_fault,
    a_text_says_one_presentation,
};
use kb_presprint::a_presentation_that_is_read_can_be_written;
use kb_proof::{a_printed_log_has_no_fault, bytes_have_one_log_fault};
use kb_subfile::{a_subgroup_file_has_no_fault, a_subgroup_file_has_one_fault};

/// A file is refused for one reason at most where a presentation is needed.
pub fn a_presentation_is_refused_for_one_reason()
    ensures { (files : Files) (name : List ℕ) (one other : FileFault)
        → IsPresentationFault files name one → IsPresentationFault files name other
        → one ≡ other }
{
    a_presentation_file_has_one_fault();
}

/// A file is refused for one reason at most where a group by shortlex is needed.
pub fn a_group_is_refused_for_one_reason()
    ensures { (files : Files) (name : List ℕ) (one other : FileFault)
        → IsGroupFault files name one → IsGroupFault files name other → one ≡ other }
{
    a_presentation_file_has_one_fault();
    a_presentation_file_has_no_fault();
    a_text_says_one_presentation();
}

/// A file is refused for one reason at most where an automaton of a kind is needed.
pub fn an_automaton_is_refused_for_one_reason()
    ensures { (kind : Kind) (files : Files) (name : List ℕ) (one other : FileFault)
        → IsAutomatonFault kind files name one → IsAutomatonFault kind files name other
        → one ≡ other }
{
    an_automaton_file_has_one_fault();
    an_automaton_file_has_no_fault();
}

/// A file is refused for one reason at most where an automaton of a kind over the alphabet of a first one is needed.
pub fn a_second_automaton_is_refused_for_one_reason()
    ensures { (kind : Kind) (names : List (List ℕ)) (alphabet : Alphabet) (files : Files)
        (name : List ℕ) (one other : FileFault)
        → IsSecondFault kind names alphabet files name one
        → IsSecondFault kind names alphabet files name other → one ≡ other }
{
    an_automaton_file_has_one_fault();
    an_automaton_file_has_no_fault();
    a_text_says_one_automaton();
}

/// A file is refused for one reason at most where a log with derivations is needed.
pub fn a_log_is_refused_for_one_reason()
    ensures { (names : List (List ℕ)) (files : Files) (name : List ℕ) (one other : FileFault)
        → AreReadableNames names
        → IsDerivationsFault names files name one
        → IsDerivationsFault names files name other → one ≡ other }
{
    bytes_have_one_log_fault();
    a_printed_log_has_no_fault();
}

/// A file is refused for one reason at most, whatever it has to hold, and for none where it holds that.
pub fn files_are_refused_for_one_reason()
    ensures { HaveOneReason }
{
    a_presentation_file_has_one_fault();
    a_presentation_file_has_no_fault();
    a_text_says_one_presentation();
    a_presentation_that_is_read_can_be_written();
    a_subgroup_file_has_one_fault();
    a_subgroup_file_has_no_fault();
    an_automaton_file_has_one_fault();
    an_automaton_file_has_no_fault();
    a_text_says_one_automaton();
    bytes_have_one_log_fault();
    a_printed_log_has_no_fault();
}
