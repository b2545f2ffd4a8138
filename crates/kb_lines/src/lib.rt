//! Word lines: a stream of bytes is cut at its newlines, and each line that is a word is answered.
//!
//! The public contract is that of [`answer_lines`]: each line that is a word is answered with a word
//! by an [`Answerer`], in order; or why that stopped, what was taken of the input, and which answers
//! were sent. By the laws no line is both answered and refused, and the answers to one input are one
//! text where each word has one answer.
//!
//! A line is answered, and its answer sent, before a byte past those that have come is needed. What
//! is held is the line that has begun, one buffer of input, the answers that aren't sent yet, and
//! the memory that one line is answered in, which serves for all lines: the word that is read becomes
//! its answer. A line that lies in the buffer as a whole is read where it lies.
//!
//! [`answer_in_batches`] has the same contract. It takes lines until there are as many as [`Batches`] say, or none is
//! to come, and then several workers answer those it took. A worker draws a block of lines that stand one behind the
//! other, and reads, answers and prints them one by one, in memory that serves for the whole block. How many lines a
//! block has is a matter of speed alone. The answers are sent in the order of the lines, up to
//! the first line that is refused. So what is held is a batch of lines, and the answers to them. By batches of one
//! line it is `answer_lines`, and no thread is started.
//!
//! - `answerer` is what answers a word, with the reader of words, and `stop` why the lines aren't answered to the end.
//! - `line` is one line and the memory for it, `progress` what is held between two reads, and `lines` the reading.
//! - `batches` is how many lines a batch has and who answers them, `together` the blocks of a batch and their answers,
//!   `batch` what is held between two reads where lines wait for their batch, `ending` how the reading ends then, and
//!   `batched` the reading.
//!
//! In `specs/Batches.antt` a batch goes on as `Progress` does, behind bytes that are held.
//!
//! Below are `kb_word`, `kb_record`, `kb_wordreader`, `kb_io`, and `kb_draw`, by which workers share the blocks of a
//! batch.
#![tactic(auto)]

mod answerer;
mod batch;
mod batched;
mod batches;
mod ending;
mod laws;
mod line;
mod lines;
mod progress;
mod stop;
mod together;

pub use answerer::Answerer;
pub use batched::answer_in_batches;
pub use batches::Batches;
pub use laws::{
    a_too_long_input_that_was_answered_has_no_refused_line, an_answered_input_has_no_refused_line,
    an_input_has_one_text_of_answers, lines_give_one_text, no_line_is_answered_and_refused,
};
pub use lines::answer_lines;
pub use stop::Stop;
