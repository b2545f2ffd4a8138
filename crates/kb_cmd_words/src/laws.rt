//! Laws: confluent and not confluent exclude each other, and what the lines of a log have to do with least words.

ghost use Rattle.std.specs.Prelude.{◌≡◌, ℕ, List, Option};
ghost use Rattle.kb_word.specs.Congruence.{SameCongruence};
ghost use Rattle.kb_word.specs.Presentations.{PresentationParts};
ghost use Rattle.kb_word.specs.Rewriting.{NormalForm};
ghost use Rattle.kb_proof.specs.Same.{AreSameLogs};
ghost use Rattle.kb_proof.specs.declared.log.Log.{Log};
ghost use Rattle.kb_cmd_words.specs.Confluence.{IsLeastIn, OrientedAreConfluent, OrientedAreNotConfluent, relations};
ghost use Rattle.kb_cmd_words.specs.LogLineLaws.{IsFound};
ghost use Rattle.kb_bylog.specs.LogLines.{AreJoined, IsJustifiedBy, lines_of};
ghost use Rattle.kb_cmd_words.specs.LogLines.{Decides};
ghost use Rattle.kb_cmd_words.specs.declared.objection.Objection.{Objection};

/// No presentation's oriented relations are confluent and not.
pub fn no_presentation_is_confluent_and_not()
    ensures { (parts : PresentationParts) (u v : List ℕ) → OrientedAreConfluent parts
        → ¬ OrientedAreNotConfluent parts u v }
{}

/// The lines of a justified log generate the congruence of the relations, if both sides of each relation have one
/// normal form by them: each line follows from the relations, and each relation from the lines.
pub fn lines_generate_the_congruence()
    ensures { (parts : PresentationParts) (log : Log) → IsJustifiedBy parts log
        → AreJoined (lines_of log) (relations parts)
        → SameCongruence (lines_of log) (relations parts) }
{}

/// Where the lines of a log decide, the normal form of a word by them is the least word of the presentation that is
/// congruent to it.
pub fn lines_that_decide_give_least_words()
    ensures { (parts : PresentationParts) (log : Log) (w m : List ℕ) → Decides parts log
        → NormalForm (lines_of log) w m → IsLeastIn parts w m }
{}

/// Logs that say the same have one answer: their lines decide, or one objection stands against them.
pub fn the_lines_of_a_log_have_one_answer()
    ensures { (parts : PresentationParts) (log same : Log) (one other : Option Objection)
        → AreSameLogs log same → IsFound parts log one → IsFound parts same other → one ≡ other }
{}
