//! Laws: no line is both answered and refused, and the answers are one.

ghost use Rattle.std.specs.Prelude.{◌≡◌, ◌<◌, ℕ, List, length, take};
ghost use Rattle.kb_record.specs.declared.error.WordError.{WordError};
ghost use Rattle.kb_lines.specs.WordLines.{most_input, IsFunction, LineGives, LineHasFault, LinesGive, IsFirstRefused};
ghost use Rattle.kb_lines.specs.Streams.{Streams, Sends};
ghost use Rattle.kb_lines.specs.Answered.{AllAnswered, EndedAnswered};

use crate::answerer::Answerer;

/// No line both gives something and is refused.
pub fn no_line_is_answered_and_refused<A: Answerer>(_answerer: &A)
    ensures { (line given : List ℕ) (fault : WordError)
        → LineGives (A.parts _answerer.now) (A.answers _answerer.now) line given
        → ¬ LineHasFault (A.parts _answerer.now) line fault }
{}

/// An input whose lines were all answered has no line that is refused.
pub fn an_answered_input_has_no_refused_line<A: Answerer>(_answerer: &A)
    ensures { (before after : Streams) (number : ℕ) (fault : WordError)
        → AllAnswered (A.parts _answerer.now) (A.answers _answerer.now) before after
        → ¬ IsFirstRefused (A.parts _answerer.now) (A.answers _answerer.now) before.input.left
        number fault }
{}

/// Nor has one that is too long, where all lines were answered that end in the bytes that may be read.
pub fn a_too_long_input_that_was_answered_has_no_refused_line<A: Answerer>(_answerer: &A)
    ensures { (before after : Streams) (number : ℕ) (fault : WordError)
        → most_input < length before.input.left
        → EndedAnswered (A.parts _answerer.now) (A.answers _answerer.now)
        (take most_input before.input.left) before after
        → ¬ IsFirstRefused (A.parts _answerer.now) (A.answers _answerer.now) before.input.left
        number fault }
{}

/// Where each word has one answer, lines give one text.
pub fn lines_give_one_text<A: Answerer>(_answerer: &A)
    ensures { (lines : List (List ℕ)) (given other : List ℕ) → IsFunction (A.answers _answerer.now)
        → LinesGive (A.parts _answerer.now) (A.answers _answerer.now) lines given
        → LinesGive (A.parts _answerer.now) (A.answers _answerer.now) lines other → given ≡ other }
{}

/// Where each word has one answer, the answers to one input are the same bytes.
pub fn an_input_has_one_text_of_answers<A: Answerer>(_answerer: &A)
    ensures { (a b c d : Streams) → IsFunction (A.answers _answerer.now)
        → AllAnswered (A.parts _answerer.now) (A.answers _answerer.now) a b
        → AllAnswered (A.parts _answerer.now) (A.answers _answerer.now) c d
        → a.input.left ≡ c.input.left → (bytes : List ℕ) × Sends bytes a b × Sends bytes c d }
{}
