//! Blocks of lines that are answered together, by several workers.

ghost use Rattle.std.specs.Prelude.{◌≡◌, ◌^◌, ◌≤◌, IfOk, length};
ghost use Rattle.kb_lines.specs.Batches.{AreBlockAnswers, IsBlockAnswer};

use crate::answerer::Answerer;
use crate::batches::Batches;
use crate::line::{LineWorkspace, answer_line, split_line};
use kb_draw::{Making, make_all};
use kb_io::Gate;
use kb_record::WordError;
use kb_word::{Memory, Word};
use std::alloc::Global;
use std::marker::Model;
use std::sync::Wait;
use std::thread::Threads;

/// Lines that stand one behind the other, each with its newline. Contracts see their bytes.
#[derive(Drop)]
pub(crate) struct Block {
    bytes: Vec<u8>,
}

impl Model for Block {
    ghost use Rattle.std.specs.Prelude.{ℕ, List};

    ghost Value = { List ℕ };

    ghost view = { λ block. block.bytes.items };
}

impl Block {
    /// The block of these bytes.
    pub(crate) fn of(bytes: Vec<u8>) -> Block
        ensures { result ≡ bytes.items }
    {
        Block { bytes }
    }

    /// Its bytes.
    pub(crate) fn bytes(&self) -> &[u8]
        ensures { result.now ≡ self.now }
    {
        &self.bytes
    }
}

/// The answer to a block.
#[derive(Drop)]
pub(crate) enum BlockAnswer {
    /// So many lines, which are all, give this text.
    Given {
        count: usize,
        text: Vec<u8>,
    },
    /// So many lines give this text, and the line behind them is refused for this fault.
    Faulty {
        count: usize,
        text: Vec<u8>,
        fault: WordError,
    },
}

/// Blocks of lines, and what answers the words on them.
#[derive(Drop)]
struct Blocks<'a, A: Answerer> {
    answerer: &'a A,
    blocks: &'a [Block],
}

/// A place is a block's.
impl<'a, A: Answerer> Making for Blocks<'a, A> {
    ghost use Rattle.std.specs.Prelude.{[], length, get_or};
    ghost use Rattle.kb_lines.specs.Batches.{IsBlockAnswer};

    type Made = BlockAnswer;

    ghost places = { λ it. length it.blocks.now };

    ghost is = { λ it place. IsBlockAnswer (A.parts it.answerer.now) (A.answers it.answerer.now)
        (get_or it.blocks.now place []) };

    fn places(&self) -> u64 {
        self.blocks.len() as u64
    }

    fn make(&self, alloc: Global, place: u64) -> Result<BlockAnswer, Memory> {
        let block = &self.blocks[place as usize];
        answer_block(alloc, self.answerer, block.bytes())
    }
}

/// The answers to blocks, in their order, by workers. A worker comes to the gate before it draws a block.
pub(crate) fn answers_to<A: Answerer + Sync, G: Gate, T: Threads + Wait + Sync>(
    rt: &T,
    alloc: Global,
    answerer: &A,
    batches: &Batches<'_, G>,
    blocks: &[Block],
) -> Result<Vec<BlockAnswer>, Memory>
where
    A::Workspace: Send,
    requires { length blocks.now ≤ 2 ^ 62 }
    ensures { IfOk result (λ answers. AreBlockAnswers (A.parts answerer.now)
        (A.answers answerer.now) blocks.now answers.items) }
{
    make_all(rt, alloc, &Blocks { answerer, blocks }, batches.crew())
}

/// The answer to the lines that end in these bytes. One workspace and one text serve for all of them.
fn answer_block<A: Answerer>(
    alloc: Global,
    answerer: &A,
    bytes: &[u8],
) -> Result<BlockAnswer, Memory>
    ensures { IfOk result
        (IsBlockAnswer (A.parts answerer.now) (A.answers answerer.now) bytes.now) }
{
    let mut work = LineWorkspace {
        word: Word::new(alloc),
        workspace: answerer.workspace(alloc),
    };
    let mut text = Vec::new(alloc);
    let mut count = 0;
    let mut rest = bytes;
    while let Some((line, behind)) = split_line(rest) {
        match answer_line(alloc, answerer, &mut work, line, &mut text) {
            Ok(()) => count += 1,
            Err(WordError::Memory) => return Err(Memory),
            Err(fault) => return Ok(BlockAnswer::Faulty { count, text, fault }),
        }
        rest = behind;
    }
    Ok(BlockAnswer::Given { count, text })
}
