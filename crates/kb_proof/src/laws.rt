//! What printing and reading have to do with each other, and that a log has one answer.

ghost use Rattle.std.specs.Prelude.{◌≡◌, ◌≢◌, ℕ, ◌<◌, ◌≤◌, ◌^◌, List, length};
ghost use Rattle.kb_word.specs.Names.{AreApart};
ghost use Rattle.kb_word.specs.Presentations.{PresentationParts};
ghost use Rattle.kb_word.specs.WordOrders.{Below};
ghost use Rattle.kb_word.specs.Words.{Pair};
ghost use Rattle.kb_word.specs.declared.word_order.WordOrder.{WordOrder as SomeOrder};
ghost use Rattle.kb_proof.specs.Completions.{AreShortParts, IsOfCompletion, IsReadAgain};
ghost use Rattle.kb_proof.specs.Faults.{HasLogFault};
ghost use Rattle.kb_proof.specs.Printable.{AreReadableNames, IsPrintable};
ghost use Rattle.kb_proof.specs.Printed.{text_of_log};
ghost use Rattle.kb_proof.specs.Same.{AreSameLogs};
ghost use Rattle.kb_proof.specs.declared.error.LogError.{LogError as SomeError};
ghost use Rattle.kb_proof.specs.declared.error.LogError.TheVariants as errors;
ghost use Rattle.kb_proof.specs.Verifying.{VerifiedSays};
ghost use Rattle.kb_proof.specs.declared.log.Log.{Log as SomeLog};
ghost use Rattle.kb_proof.specs.declared.verified.Verified.{Verified as Answer};

/// Over names that differ two logs with one text are the same, if they can be read again. So what
/// [`read_log`](crate::read_log) returns of a printed log is that log.
pub fn a_text_is_of_one_log()
    ensures { (names : List (List ℕ)) (one other : SomeLog) → AreReadableNames names
        → AreApart names
        → IsPrintable names one → IsPrintable names other
        → text_of_log names one ≡ text_of_log names other → AreSameLogs one other }
{}

/// A printed log that can be read again has no fault. So [`read_log`](crate::read_log) refuses it for want of memory
/// only, and refuses bytes exactly where they have a fault.
pub fn a_printed_log_has_no_fault()
    ensures { (names : List (List ℕ)) (log : SomeLog) (error : SomeError) → AreReadableNames names
        → IsPrintable names log → HasLogFault names (text_of_log names log) error
        → error ≡ errors.Memory }
{}

/// Bytes have one fault at most, want of memory aside. So where [`read_log`](crate::read_log) refuses them, it names
/// the one line, or the version, that there is to name.
pub fn bytes_have_one_log_fault()
    ensures { (names : List (List ℕ)) (bytes : List ℕ) (one other : SomeError) → AreReadableNames names
        → length bytes < 2 ^ 64 → one ≢ errors.Memory → other ≢ errors.Memory
        → HasLogFault names bytes one → HasLogFault names bytes other → one ≡ other }
{}

/// The log of a completion can be read again, as that log, where its text has at most 16,777,216 bytes: no line has
/// letters without a name, and all numbers fit.
pub fn logs_of_completions_are_read_again()
    ensures { (parts : PresentationParts) (log : SomeLog) → AreReadableNames parts.names
        → AreApart parts.names → AreShortParts parts → IsOfCompletion parts log
        → length (text_of_log parts.names log) ≤ 2 ^ 24 → IsReadAgain parts.names log }
{}

/// A log has one answer: what `Yes` says of it excludes what any `No` says, and what is said by two different answers
/// `No` isn't both true. So [`verify`](crate::verify) answers `Yes` of each log of which what `Yes` says is true.
pub fn a_log_is_verified_in_one_way()
    ensures { (order : SomeOrder) (relations : List Pair) (log : SomeLog) (one other : Answer)
        → VerifiedSays (Below order) relations log one
        → VerifiedSays (Below order) relations log other → one ≡ other }
{}

/// Logs that say the same have one answer. So bytes that are read twice as a log are verified in one way.
pub fn logs_that_say_the_same_have_one_answer()
    ensures { (order : SomeOrder) (relations : List Pair) (log same : SomeLog) (one other : Answer)
        → AreSameLogs log same
        → VerifiedSays (Below order) relations log one
        → VerifiedSays (Below order) relations same other → one ≡ other }
{}
