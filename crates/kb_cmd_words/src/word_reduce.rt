//! The command `wordreduce FILE`.

use kb_word::OwnedText;
use std::marker::Model;

/// `wordreduce FILE`: prints the least words of word lines, by a presentation whose oriented
/// relations are confluent, or by the lines of its log. Contracts see what the command line gives it; there are 1 to 64
/// workers.
#[derive(Drop)]
pub struct WordReduce {
    /// The name of the file with the presentation.
    pub file: OwnedText,
    /// How many threads may work side by side.
    pub workers: u32,
    /// How many words are answered together.
    pub batch: u32,
    /// Whether the lines of the presentation's log answer in place of its relations.
    pub by_log: bool,
}

impl Model for WordReduce {
    ghost use Rattle.std.specs.Prelude.{◌≤◌};
    ghost use Rattle.kb_cmd_words.specs.Given.{Given};

    ghost Value = { Given };

    ghost view = { λ task. record {
      file = task.file;
      workers = task.workers;
      batch = task.batch;
      by_log = task.by_log;
    } };

    ghost invariant = { λ task. (1 ≤ task.workers) × (task.workers ≤ 64) };
}
