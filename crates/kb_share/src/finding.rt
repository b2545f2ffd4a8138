//! The lines that a new line concerns.

ghost use Rattle.std.specs.Prelude.{◌≡◌, ◌≢◌, ◌↔◌, ◌∷◌, ◌++◌, ◌+◌, ◌^◌, ◌<◌, ◌≤◌, ℕ, List, [], length, IsTrue, IfSome, IfNone, None, OnOk, Some, slice_get};
ghost use Rattle.std.specs.List.{AllPairs, Contains};
ghost use Rattle.kb_word.specs.Words.{Pair, IsFactor};
ghost use Rattle.kb_machine.specs.Lines.{numbered as rule_with_number, rule_of, rules_of};
ghost use Rattle.kb_machine.specs.States.{State};
ghost use Rattle.kb_share.specs.declared.finding.Side.TheVariants as side;
ghost use Rattle.kb_share.specs.Finding.{AgreesWith, FindsAll, HasAt, FindsLines, HasFactorAt, Knows, KnowsLines, PicksAll, row_of, side_of};
ghost use Rattle.kb_share.specs.Signatures.{HasMarks, IsSignature, AreWithin};

use crate::balancing::Inverses;
use crate::signature::Signature;
use crate::sound::book_is_sound;
use crate::waiting::Waiting;
use kb_book::Book;
use kb_machine::Line;
use kb_rules::Reducer;
use kb_word::{Memory, Word, factor_at};
use std::alloc::Global;

/// Finds the live lines that have a new line's left side as a factor. It keeps the signatures of
/// the live lines, and of some that were live, so that few lines are read letter by letter. A new finder
/// knows any book, and one that serves a book goes on to know it, as lines are made and go and while it is
/// published or overlaps are entered (`Knows` of `specs/Finding.antt`).
#[derive(Drop)]
pub struct Finder {
    /// How many lines of the book were met.
    met: u32,
    kept: Kept,
    /// The numbers of the lines that were found last.
    found: Vec<u32>,
    /// The numbers of those among which they were found.
    likely: Vec<u32>,
    /// The overlaps that wait to be entered, which a finder keeps beside, since it serves a book as long as it lives.
    pub waiting: Waiting,
    /// The lines of inverses, by which new lines are balanced where that is wanted.
    pub inverses: Inverses,
}

/// The lines that are kept. The signatures of one side stand in a row, which is searched in one
/// short loop.
#[derive(Drop)]
struct Kept {
    /// Their numbers.
    numbers: Vec<u32>,
    lefts: Vec<Signature>,
    rights: Vec<Signature>,
}

/// A side of a line.
#[derive(Clone, Copy)]
enum Side {
    Left,
    Right,
}

impl Finder {
    /// A finder that has taken no memory yet.
    pub fn new(alloc: Global) -> Finder
        ensures { (state : State) → Knows result state }
    {
        Finder {
            met: 0,
            kept: Kept::new(alloc),
            found: Vec::new(alloc),
            likely: Vec::new(alloc),
            waiting: Waiting::new(alloc),
            inverses: Inverses::new(alloc),
        }
    }

    /// The numbers of the lines that were found last.
    pub(crate) fn found(&self) -> &[u32]
        ensures { result.now ≡ self.now.found.items }
    {
        &self.found
    }

    /// Finds the live lines other than line k whose left sides have that of line k as a factor.
    pub(crate) fn find_longer<R: Reducer>(&mut self, book: &Book<R>, k: u32) -> Result<(), Memory>
        requires { Knows self.old book.now.course.state }
        ensures known { OnOk result (Knows self.new book.now.course.state) }
        ensures all { OnOk result (FindsAll side.Left book.now.course.state k self.new.found.items) }
    {
        self.find(book, k, Side::Left)
    }

    /// Finds the live lines other than line k whose right sides have the left side of line k as a factor.
    pub(crate) fn find_reducible<R: Reducer>(
        &mut self,
        book: &Book<R>,
        k: u32,
    ) -> Result<(), Memory>
        requires { Knows self.old book.now.course.state }
        ensures known { OnOk result (Knows self.new book.now.course.state) }
        ensures all { OnOk result (FindsAll side.Right book.now.course.state k self.new.found.items) }
    {
        self.find(book, k, Side::Right)
    }

    /// Finds the live lines other than line k that have its left side as a factor on this side.
    fn find<R: Reducer>(&mut self, book: &Book<R>, k: u32, side: Side) -> Result<(), Memory>
        requires { Knows self.old book.now.course.state }
        ensures known { OnOk result (Knows self.new book.now.course.state) }
        ensures all { OnOk result (FindsAll side book.now.course.state k self.new.found.items) }
    {
        book_is_sound(book);
        // A use of the limits brings that 32 bits number the lines.
        let _limits = book.limits();
        self.meet(book.lines(), book.live())?;
        self.renew(book.lines(), book.live())?;
        self.search(book.lines(), book.live(), k, side)
    }

    /// Keeps the live ones of the lines that came since.
    fn meet(&mut self, lines: &[Line], live: &[u32]) -> Result<(), Memory>
        requires ascending { AllPairs (λ one other. one < other) live.now }
        requires known { KnowsLines self.old lines.now live.now }
        requires few { length lines.now < 2 ^ 32 }
        ensures known { OnOk result (KnowsLines self.new lines.now live.now) }
        ensures all { OnOk result (length lines.now ≤ self.new.met) }
    {
        while let Some(line) = lines.get(self.met as usize) {
            self.meet_line(line, live)?;
        }
        Ok(())
    }

    /// Where some of the lines that are kept are no longer live, more than an eighth of the live ones, they go.
    fn renew(&mut self, lines: &[Line], live: &[u32]) -> Result<(), Memory>
        requires { KnowsLines self.old lines.now live.now }
        ensures known { OnOk result (KnowsLines self.new lines.now live.now) }
        ensures met { self.new.met ≡ self.old.met }
    {
        let gone = self.kept.numbers.len().saturating_sub(live.len());
        if gone > live.len() / 8 + 16 {
            self.kept.renew(lines, live)?;
        }
        Ok(())
    }

    /// Keeps the next line, if it is live.
    fn meet_line(&mut self, line: &Line, live: &[u32]) -> Result<(), Memory>
        requires ascending { AllPairs (λ one other. one < other) live.now }
        requires number { self.old.met + 1 < 2 ^ 32 }
        ensures known { (lines : List Line) → slice_get lines self.old.met ≡ Some line.now
            → KnowsLines self.old lines live.now → OnOk result (KnowsLines self.new lines live.now) }
        ensures met { OnOk result (self.new.met ≡ self.old.met + 1) }
    {
        let number = self.met + 1;
        self.kept.add_live(number, line, live)?;
        self.met = number;
        Ok(())
    }

    /// Finds, among the lines that are kept, the live lines other than line k that have its left side as a factor on
    /// this side.
    fn search(&mut self, lines: &[Line], live: &[u32], k: u32, side: Side) -> Result<(), Memory>
        requires ascending { AllPairs (λ one other. one < other) live.now }
        requires known { KnowsLines self.old lines.now live.now }
        requires all { length lines.now ≤ self.old.met }
        ensures known { OnOk result (KnowsLines self.new lines.now live.now) }
        ensures all { OnOk result (FindsLines side lines.now live.now k self.new.found.items) }
    {
        self.found.clear();
        self.likely.clear();
        let Some(new) = numbered(lines, k) else {
            return Ok(());
        };
        self.kept
            .pick(side, Signature::of(&new.left), &mut self.likely)?;
        look_at_each(
            lines,
            live,
            k,
            side,
            &new.left,
            &self.likely,
            &mut self.found,
        )
    }
}

impl Kept {
    /// No lines.
    fn new(alloc: Global) -> Kept
        ensures { (rules : List Pair) → AgreesWith rules result }
    {
        Kept {
            numbers: Vec::new(alloc),
            lefts: Vec::new(alloc),
            rights: Vec::new(alloc),
        }
    }

    /// Keeps a line more.
    fn add(&mut self, number: u32, line: &Line) -> Result<(), Memory>
        ensures agrees { (rules : List Pair) → rule_with_number rules number ≡ Some (rule_of line.now)
            → AgreesWith rules self.old → OnOk result (AgreesWith rules self.new) }
        ensures numbers { OnOk result (self.new.numbers.items ≡ self.old.numbers.items ++ number ∷ []) }
    {
        self.make_room()?;
        self.numbers.reserve(1)?;
        self.lefts.reserve(1)?;
        self.rights.push(Signature::of(&line.right))?;
        self.lefts.push(Signature::of(&line.left))?;
        self.numbers.push(number)?;
        Ok(())
    }

    /// Where there is no room, makes room for a sixteenth more lines, so that little of the memory is never used.
    fn make_room(&mut self) -> Result<(), Memory>
        ensures numbers { self.new.numbers.items ≡ self.old.numbers.items }
        ensures lefts { self.new.lefts.items ≡ self.old.lefts.items }
        ensures rights { self.new.rights.items ≡ self.old.rights.items }
    {
        if self.numbers.len() == self.numbers.capacity() {
            let more = self.numbers.len() / 16 + 4;
            self.numbers.reserve_exact(more)?;
            self.lefts.reserve_exact(more)?;
            self.rights.reserve_exact(more)?;
        }
        Ok(())
    }

    /// Keeps a line more, if it is live.
    fn add_live(&mut self, number: u32, line: &Line, live: &[u32]) -> Result<(), Memory>
        requires { AllPairs (λ one other. one < other) live.now }
        ensures agrees { (rules : List Pair) → rule_with_number rules number ≡ Some (rule_of line.now)
            → AgreesWith rules self.old → OnOk result (AgreesWith rules self.new) }
        ensures kept { (other : ℕ) → Contains self.old.numbers.items other
            → OnOk result (Contains self.new.numbers.items other) }
        ensures own { Contains live.now number
            → OnOk result (Contains self.new.numbers.items number) }
    {
        if is_live(live, number) {
            self.add(number, line)
        } else {
            Ok(())
        }
    }

    /// Keeps the live lines, and those alone.
    fn renew(&mut self, lines: &[Line], live: &[u32]) -> Result<(), Memory>
        ensures agrees { OnOk result (AgreesWith (rules_of lines.now) self.new) }
        ensures all { OnOk result ((number : ℕ) → Contains live.now number → 0 < number
            → number ≤ length lines.now → Contains self.new.numbers.items number) }
    {
        self.numbers.clear();
        self.lefts.clear();
        self.rights.clear();
        for k in live {
            if let Some(line) = numbered(lines, *k) {
                self.add(*k, line)?;
            }
        }
        Ok(())
    }

    /// Picks the lines that may have a factor with this signature on this side.
    fn pick(&self, side: Side, factor: Signature, picked: &mut Vec<u32>) -> Result<(), Memory>
        ensures { OnOk result (PicksAll self.now side factor.bits picked.new.items) }
    {
        for (place, signature) in self.row(side).iter().enumerate() {
            if signature.may_have(factor)
                && let Some(number) = self.numbers.get(place)
            {
                picked.push(*number)?;
            }
        }
        Ok(())
    }

    /// The signatures of this side.
    fn row(&self, side: Side) -> &[Signature]
        ensures { result.now ≡ row_of self.now side }
    {
        match side {
            Side::Left => &self.lefts,
            Side::Right => &self.rights,
        }
    }
}

/// Finds those of the likely lines, other than line k, that are live and have the factor on this side.
fn look_at_each(
    lines: &[Line],
    live: &[u32],
    k: u32,
    side: Side,
    factor: &Word,
    likely: &[u32],
    found: &mut Vec<u32>,
) -> Result<(), Memory>
    requires { AllPairs (λ one other. one < other) live.now }
    ensures { OnOk result ((number : ℕ) → Contains likely.now number → number ≢ k
        → HasFactorAt side lines.now live.now factor.now number → Contains found.new.items number) }
{
    for other in likely {
        if is_concerned(lines, live, k, *other, side, factor) {
            found.push(*other)?;
        }
    }
    Ok(())
}

/// Whether another line than line k is live and has the factor on this side.
fn is_concerned(lines: &[Line], live: &[u32], k: u32, other: u32, side: Side, factor: &Word) -> bool
    requires { AllPairs (λ one other. one < other) live.now }
    ensures { other ≢ k → HasFactorAt side lines.now live.now factor.now other → IsTrue result }
{
    other != k && is_live(live, other) && has_factor(lines, other, side, factor)
}

/// Whether line k is one of the live lines, which ascend.
fn is_live(live: &[u32], k: u32) -> bool
    requires { AllPairs (λ one other. one < other) live.now }
    ensures { IsTrue result ↔ Contains live.now k }
{
    live.binary_search(&k).is_ok()
}

/// Whether line k has the factor on this side.
fn has_factor(lines: &[Line], k: u32, side: Side, factor: &Word) -> bool
    ensures { (rule : Pair) → rule_with_number (rules_of lines.now) k ≡ Some rule
        → IsFactor (side_of side rule) factor.now → IsTrue result }
{
    match (numbered(lines, k), side) {
        (Some(line), Side::Left) => factor_at(&line.left, factor).is_some(),
        (Some(line), Side::Right) => factor_at(&line.right, factor).is_some(),
        (None, _) => false,
    }
}

/// The line with number k, numbered from 1 on.
fn numbered(lines: &[Line], k: u32) -> Option<&Line>
    ensures some { IfSome result
        (λ line. rule_with_number (rules_of lines.now) k ≡ Some (rule_of line.now)) }
    ensures none { IfNone result (rule_with_number (rules_of lines.now) k ≡ None) }
{
    let index = k.checked_sub(1)?;
    lines.get(index as usize)
}
