//! A run of the command, and the answers by the presentation's relations.

ghost use Rattle.std.specs.Prelude.{◌≡◌, ◌≤◌, ◌^◌, IfOk, length};
ghost use Rattle.kb_io.specs.Outside.{outside};
ghost use Rattle.kb_io.specs.States.{ShelfState, SourceState};
ghost use Rattle.kb_word.specs.WordOrders.{Below};
ghost use Rattle.kb_word.specs.Overlap.{IsConfluent};
ghost use Rattle.kb_word.specs.Presentations.{parts_of};
ghost use Rattle.kb_word.specs.Relations.{AreOriented};
ghost use Rattle.kb_presfile.specs.Holds.{most_equations};
ghost use Rattle.kb_task.specs.Runs.{IsRun};
ghost use Rattle.kb_cmd_words.specs.Confluence.{relations, OrientedAreNotConfluent, no_line};
ghost use Rattle.kb_cmd_words.specs.ByRelations.{AnswersMean, ByRelationsMean, StoresNothing};

use crate::by_log::run_by_log;
use crate::orienting::{oriented, oriented_relations_keep_the_congruence, oriented_rules_decrease};
use crate::word_reduce::WordReduce;
use kb_confluence::{
    Verdict, check, least_by_the_same_congruence, normal_forms_by_confluent_rules_are_least,
};
use kb_draw::Crew;
use kb_index::Index;
use kb_io::{Gate, Shelf, Sink, Source};
use kb_lines::{Batches, answer_in_batches};
use kb_reduce::NormalForms;
use kb_rules::{Reducer, Rules};
use kb_task::{Cert, Status, Task, load_presentation, print_line, status_of};
use kb_word::{Memory, Names, Presentation, Word, print_word};
use kb_wordreader::WordReader;
use std::alloc::Global;
use std::sync::Wait;
use std::thread::Threads;

impl Task for WordReduce {
    ghost use Rattle.kb_cmd_words.specs.WordReduce.{wordreduce_promise};
    ghost use Rattle.kb_cmd_words.specs.WordReduceLaws.{wordreduce_lawful};

    ghost promise = { wordreduce_promise };

    ghost lawful = { wordreduce_lawful };
}

impl WordReduce {
    ghost use Rattle.kb_task.specs.Promises.{Keeps};
    ghost use Rattle.kb_cmd_words.specs.WordReduce.{wordreduce_promise};

    /// Runs the command. What it writes to `err` only shows that it lives. Workers are threads of `rt`, and pass the
    /// gate where they answer words.
    pub fn run<T: Threads + Wait + Sync, G: Gate, F: Shelf, I: Source, O: Sink, E: Sink>(
        self,
        rt: &T,
        alloc: Global,
        gate: &G,
        shelf: &mut F,
        input: &mut I,
        out: &mut O,
        err: &mut E,
    ) -> Status
        ensures { Keeps (wordreduce_promise self)
            (outside (F.state shelf.old) (I.state input.old) (O.state out.old))
            (outside (F.state shelf.new) (I.state input.new) (O.state out.new)) result }
    {
        let _ = err;
        let by_log = self.by_log;
        let batches = Batches::of(self.batch, Crew::new(self.workers, gate));
        if by_log {
            run_by_log(rt, alloc, self, &batches, shelf, input, out)
        } else {
            run_by_relations(rt, alloc, self, &batches, shelf, input, out)
        }
    }
}

/// Loads the presentation, and answers the word lines by its relations, in batches of as many lines as were asked for.
fn run_by_relations<T: Threads + Wait + Sync, G: Gate, F: Shelf, I: Source, O: Sink>(
    rt: &T,
    alloc: Global,
    task: WordReduce,
    batches: &Batches<'_, G>,
    shelf: &mut F,
    input: &mut I,
    out: &mut O,
) -> Status
    requires { batches.now.size ≡ task.batch }
    ensures { IsRun (ByRelationsMean task.file) StoresNothing
        (outside (F.state shelf.old) (I.state input.old) (O.state out.old))
        (outside (F.state shelf.new) (I.state input.new) (O.state out.new)) result }
{
    match load_presentation(alloc, task.file, shelf) {
        Ok(presentation) => answer_by(rt, alloc, presentation, batches, input, out),
        Err(status) => status,
    }
}

/// Checks the oriented relations, and answers the word lines by them.
fn answer_by<T: Threads + Wait + Sync, G: Gate, I: Source, O: Sink>(
    rt: &T,
    alloc: Global,
    presentation: Presentation,
    batches: &Batches<'_, G>,
    input: &mut I,
    out: &mut O,
) -> Status
    requires few { length presentation.eqs ≤ most_equations }
    ensures { (shelf : ShelfState) → IsRun (AnswersMean (parts_of presentation)) StoresNothing
        (outside shelf (I.state input.old) (O.state out.old))
        (outside shelf (I.state input.new) (O.state out.new)) result }
{
    let rules = match oriented(alloc, &presentation) {
        Ok(rules) => rules,
        Err(Memory) => return Status::Memory,
    };
    let index = match Index::of(alloc, &rules) {
        Ok(index) => index,
        Err(Memory) => return Status::Memory,
    };
    rules_are_few(&presentation, &rules);
    match check(rt, alloc, &rules, &index, batches.crew()) {
        Ok(Verdict::Yes) => {
            answer_all(rt, alloc, presentation, &rules, index, batches, input, out)
        }
        Ok(Verdict::No { u, v, .. }) => print_no(alloc, &presentation, u, v, out),
        Err(Memory) => Status::Memory,
    }
}

/// The oriented relations of a file are not more than a check can number. It does nothing when it runs.
fn rules_are_few(presentation: &Presentation, rules: &Rules)
    requires few { length presentation.now.eqs ≤ most_equations }
    requires oriented { AreOriented (Below presentation.now.order)
        (relations (parts_of presentation.now)) rules.now.rules }
    ensures { length rules.now.rules ≤ 2 ^ 31 }
{
    // The range of the number of generators bounds the number of rules.
    let _generators = presentation.n;
}

/// Answers the word lines by rules that are confluent, in batches.
fn answer_all<T: Threads + Wait + Sync, G: Gate, I: Source, O: Sink>(
    rt: &T,
    alloc: Global,
    presentation: Presentation,
    rules: &Rules,
    index: Index,
    batches: &Batches<'_, G>,
    input: &mut I,
    out: &mut O,
) -> Status
    requires oriented { AreOriented (Below presentation.order)
        (relations (parts_of presentation)) rules.now.rules }
    requires confluent { IsConfluent rules.now.rules }
    requires index { index.rules ≡ rules.now.rules }
    ensures { (shelf : ShelfState) → IsRun (AnswersMean (parts_of presentation)) StoresNothing
        (outside shelf (I.state input.old) (O.state out.old))
        (outside shelf (I.state input.new) (O.state out.new)) result }
{
    oriented_rules_decrease();
    oriented_relations_keep_the_congruence();
    normal_forms_by_confluent_rules_are_least();
    least_by_the_same_congruence();
    let Ok(reader) = WordReader::new(alloc, presentation) else {
        return Status::Memory;
    };
    let normal_forms = NormalForms { reader, index };
    match answer_in_batches(rt, alloc, &normal_forms, batches, input, out) {
        Ok(()) => Status::Yes,
        Err(stop) => status_of(stop),
    }
}

/// Prints the line that shows why the rules aren't confluent.
fn print_no<O: Sink>(
    alloc: Global,
    presentation: &Presentation,
    u: Word,
    v: Word,
    out: &mut O,
) -> Status
    requires { OrientedAreNotConfluent (parts_of presentation.now) u v }
    ensures { (shelf : ShelfState) (input : SourceState)
        → IsRun (AnswersMean (parts_of presentation.now)) StoresNothing
        (outside shelf input (O.state out.old)) (outside shelf input (O.state out.new)) result }
{
    match line_of_no(alloc, &presentation.names, &u, &v) {
        Ok(line) => print_line(&line, Status::No(Cert::NotConfluent { u, v }), out),
        Err(Memory) => Status::Memory,
    }
}

/// `no confluent U V` and a newline.
pub(crate) fn line_of_no(
    alloc: Global,
    names: &Names,
    u: &Word,
    v: &Word,
) -> Result<Vec<u8>, Memory>
    ensures { IfOk result (λ line. line.items ≡ no_line names.now u.now v.now) }
{
    let mut line = Vec::from_slice(alloc, b"no confluent ")?;
    print_word(names, u, &mut line)?;
    line.push(b' ')?;
    print_word(names, v, &mut line)?;
    line.push(b'\n')?;
    Ok(line)
}
