//! What the lines of a justified log have to do with the relations.

ghost use Rattle.kb_word.specs.Congruence.{Congruent, SameCongruence};
ghost use Rattle.kb_word.specs.Presentations.{PresentationParts};
ghost use Rattle.kb_word.specs.Words.{OneOf, Pair};
ghost use Rattle.kb_proof.specs.declared.log.Log.{Log};
ghost use Rattle.kb_bylog.specs.LogLines.{AreJoined, IsJustifiedBy, lines_of, relations};

/// Both sides of each line of a justified log are congruent by the relations.
pub fn the_lines_of_a_justified_log_follow()
    ensures { (parts : PresentationParts) (log : Log) (pair : Pair) → IsJustifiedBy parts log
        → OneOf (lines_of log) pair → Congruent (OneOf (relations parts)) pair.0 pair.1 }
{}

/// The lines of a justified log generate the congruence of the relations, if both sides of each relation have one
/// normal form by them.
pub fn lines_that_settle_generate_the_congruence()
    ensures { (parts : PresentationParts) (log : Log) → IsJustifiedBy parts log
        → AreJoined (lines_of log) (relations parts)
        → SameCongruence (relations parts) (lines_of log) }
{}
