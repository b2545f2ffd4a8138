//! Names that stand twice in a record, found in one pass over the tokens of a place.

ghost use Rattle.std.specs.Prelude.{◌≡◌, ◌<◌, ◌≤◌, ◌++◌, [], ◌∷◌, ℕ, List, length, IfOk, IfSome, IfNone, MatchOption};
ghost use Rattle.std.specs.Bool.{MatchBool};
ghost use Rattle.kb_lexing.specs.Token.{name, rec_word};
ghost use Rattle.kb_lexing.proofs.FrontTokens.{tokens_of};
ghost use Rattle.kb_record.specs.Nesting.{deepest};
ghost use Rattle.kb_record.specs.Reading.{remaining, read_value, IsRead};
ghost use Rattle.kb_record.specs.View.{first_place_in, written_place};
ghost use Rattle.kb_record.specs.Repeats.{HasFieldTwiceAt, IsFirstRepeatedAt, IsFirst, NoneIs};
ghost use Rattle.kb_record.specs.NamesMet.{Bracket, Names, opened, opening, closed, behind_name, names_met, stepped, IsBracket, AreOpen, Continues};

use crate::cursor::{Cursor, Mark, Stop};
use crate::parser::DEEPEST;
use crate::records::value;
use crate::tree::PlaceText;
use kb_lexing::Token;
use kb_word::Memory;
use std::alloc::Global;
use std::collections::BTreeSet;
use std::mem::replace;

/// A step of a pass over tokens.
enum Step<'a> {
    /// A bracket that opens, behind `rec` or not.
    Opens(bool),
    /// A bracket that closes.
    Closes,
    /// A field's name and the `:=` behind it.
    Names(&'a str),
    /// Any other token.
    Other,
}

/// How a pass goes on behind a step.
enum Pass<'a> {
    /// More may come.
    On,
    /// The first bracket was closed.
    Ended,
    /// The name stands in its record before.
    Repeated(&'a str),
}

/// The brackets that are open: of each that is a record's, the names of its fields that were passed.
#[derive(Drop)]
struct Open<'a> {
    /// The innermost.
    inner: Option<BTreeSet<&'a str>>,
    /// Those around it, the innermost last.
    outer: Vec<Option<BTreeSet<&'a str>>>,
}

/// A bracket that was just opened, a record's or another.
fn bracket<'a>(alloc: Global, of_record: bool) -> Option<BTreeSet<&'a str>>
    ensures { IsBracket result (opened of_record) }
{
    if of_record {
        Some(BTreeSet::new(alloc))
    } else {
        None
    }
}

impl<'a> Open<'a> {
    /// One bracket that was just opened.
    fn new(alloc: Global, of_record: bool) -> Open<'a>
        ensures { AreOpen result (opened of_record) [] }
    {
        Open {
            inner: bracket(alloc, of_record),
            outer: Vec::new(alloc),
        }
    }

    /// Goes on behind a step.
    fn pass(&mut self, alloc: Global, step: Step<'a>) -> Result<Pass<'a>, Memory>
        ensures { IfOk result (λ pass. (next : Names) (f : Bracket) (fs : List Bracket)
            → AreOpen self.old f fs → Continues pass self.new (stepped step.entry next f fs) next) }
    {
        match step {
            Step::Opens(of_record) => self.push(alloc, of_record),
            Step::Closes => Ok(self.pop()),
            Step::Names(name) => self.name(name),
            Step::Other => Ok(Pass::On),
        }
    }

    /// Opens a bracket.
    fn push(&mut self, alloc: Global, of_record: bool) -> Result<Pass<'a>, Memory>
        ensures { IfOk result (λ pass. (next : Names) (f : Bracket) (fs : List Bracket)
            → AreOpen self.old f fs
            → Continues pass self.new (next (opened of_record) (f ∷ fs)) next) }
    {
        let around = replace(&mut self.inner, bracket(alloc, of_record));
        self.outer.push(around)?;
        Ok(Pass::On)
    }

    /// Closes the innermost bracket.
    fn pop(&mut self) -> Pass<'a>
        ensures { (next : Names) (f : Bracket) (fs : List Bracket)
            → AreOpen self.old f fs → Continues result self.new (closed next fs) next }
    {
        let Some(inner) = self.outer.pop() else {
            return Pass::Ended;
        };
        self.inner = inner;
        Pass::On
    }

    /// Adds a field's name to those of its record.
    fn name(&mut self, name: &'a str) -> Result<Pass<'a>, Memory>
        ensures { IfOk result (λ pass. (next : Names) (f : Bracket) (fs : List Bracket)
            → AreOpen self.old f fs
            → Continues pass self.new (behind_name name.now next f fs) next) }
    {
        let Some(names) = &mut self.inner else {
            return Ok(Pass::On);
        };
        if names.insert(name)? {
            Ok(Pass::On)
        } else {
            Ok(Pass::Repeated(name))
        }
    }
}

/// Passes the next step, if a token is left.
fn next_step<'a>(tokens: &mut Cursor<'a>) -> Option<Step<'a>>
    ensures step { MatchOption result (remaining tokens.old ≡ []) (λ step. (f : Bracket)
        (fs : List Bracket) → names_met (remaining tokens.old) f fs
        ≡ stepped step (names_met (remaining tokens.new)) f fs) }
    ensures shorter { IfSome result
        (λ _. length (remaining tokens.new) < length (remaining tokens.old)) }
{
    let token = tokens.peek()?;
    tokens.advance();
    match token {
        Token::Rec => Some(behind_rec(tokens)),
        Token::Name(name) => Some(behind_a_name(tokens, name)),
        Token::OpenRound | Token::OpenSquare => Some(Step::Opens(false)),
        Token::CloseRound | Token::CloseSquare => Some(Step::Closes),
        _ => Some(Step::Other),
    }
}

/// The step that `rec` begins, which was passed.
fn behind_rec<'a>(tokens: &mut Cursor<'a>) -> Step<'a>
    ensures step { (f : Bracket) (fs : List Bracket)
        → names_met (rec_word ∷ remaining tokens.old) f fs
        ≡ stepped result (names_met (remaining tokens.new)) f fs }
    ensures shorter { length (remaining tokens.new) ≤ length (remaining tokens.old) }
{
    if tokens.take(Mark::OpenRound) {
        Step::Opens(true)
    } else {
        Step::Other
    }
}

/// The step that a name begins, which was passed.
fn behind_a_name<'a>(tokens: &mut Cursor<'a>, text: &'a str) -> Step<'a>
    ensures step { (f : Bracket) (fs : List Bracket)
        → names_met (name text.now ∷ remaining tokens.old) f fs
        ≡ stepped result (names_met (remaining tokens.new)) f fs }
    ensures shorter { length (remaining tokens.new) ≤ length (remaining tokens.old) }
{
    if tokens.take(Mark::Assign) {
        Step::Names(text)
    } else {
        Step::Other
    }
}

/// Of the names of fields from here on, up to the end of the bracket that was just opened, the first that stands in its
/// record before.
fn first_repeated<'a>(
    alloc: Global,
    tokens: &mut Cursor<'a>,
    of_record: bool,
) -> Result<Option<&'a str>, Memory>
    ensures some { IfOk result (λ found. IfSome found (λ name.
        IsFirst (names_met (remaining tokens.old) (opened of_record) []) name.now)) }
    ensures none { IfOk result (λ found. IfNone found
        (NoneIs (names_met (remaining tokens.old) (opened of_record) []))) }
{
    let mut open = Open::new(alloc, of_record);
    while let Some(step) = next_step(tokens) {
        match open.pass(alloc, step)? {
            Pass::On => {}
            Pass::Ended => return Ok(None),
            Pass::Repeated(name) => return Ok(Some(name)),
        }
    }
    Ok(None)
}

/// Passes what opens a record or a list, if it comes next, and answers whether it is a record.
fn opens(tokens: &mut Cursor<'_>) -> Option<bool>
    ensures opened { IfSome result (λ of_record. remaining tokens.old
        ≡ opening of_record ++ remaining tokens.new) }
    ensures neither { IfNone result
        ((name : List ℕ) → ¬ HasFieldTwiceAt (first_place_in (remaining tokens.old)) name) }
{
    if tokens.take(Mark::OpenSquare) {
        return Some(false);
    }
    if tokens.take(Mark::Rec) && tokens.take(Mark::OpenRound) {
        return Some(true);
    }
    None
}

/// Whether a value stands first in a text.
fn begins_with_value(alloc: Global, text: &[u8]) -> Result<bool, Memory>
    ensures { IfOk result (λ begins. MatchBool begins
        (IsRead (read_value deepest (tokens_of text.now)))
        (¬ IsRead (read_value deepest (tokens_of text.now)))) }
{
    let mut tokens = Cursor::new(text);
    match value(alloc, &mut tokens, DEEPEST) {
        Ok(_) => Ok(true),
        Err(Stop::Memory) => Err(Memory),
        Err(_) => Ok(false),
    }
}

impl<'a> PlaceText<'a> {
    /// The name of a field that stands twice in a record of what stands there, nested ones too: of several, the one
    /// whose second place comes first in the text.
    pub fn repeated_name(&self, alloc: Global) -> Result<Option<&'a str>, Memory>
        ensures some { IfOk result
            (λ found. IfSome found
            (λ name. IsFirstRepeatedAt (written_place self.now) name.now)) }
        ensures none { IfOk result
            (λ found. IfNone found
            ((name : List ℕ) → ¬ HasFieldTwiceAt (written_place self.now) name)) }
    {
        let mut tokens = Cursor::new(self.text);
        let Some(of_record) = opens(&mut tokens) else {
            return Ok(None);
        };
        let Some(name) = first_repeated(alloc, &mut tokens, of_record)? else {
            return Ok(None);
        };
        if begins_with_value(alloc, self.text)? {
            Ok(Some(name))
        } else {
            Ok(None)
        }
    }
}
