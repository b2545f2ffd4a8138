//! Calls that no command makes.

use crate::batches::{multipliers_answer, rules_answer};
use crate::books::published;
use kb_book::Limits;
use kb_complete::{Outcome, complete};
use kb_draw::Crew;
use kb_index::Index;
use kb_io::OpenGate;
use kb_layout::print;
use kb_presfile::read;
use kb_record::{parse, parse_expr};
use kb_rules::{Reducer, Rules, Scan};
use kb_word::{Letter, Memory, Word};
use std::alloc::Global;
use std::sync::Wait;
use std::test::Fail;
use std::thread::Threads;

/// The braid group's monoid of two generators. Its first line overlaps itself at place 2.
const BRAID: &str =
    "_RWS := rec(isRWS := true, generatorOrder := [a,b], equations := [[b*a*b,a*b*a]]);";

/// The free abelian group of rank 2. Its complete system has eight rules.
const RANK_2: &str = "_RWS := rec(isRWS := true, generatorOrder := [a,A,b,B], \
    inverses := [A,a,B,b], equations := [[b*a,a*b]]);";

/// A record with values of each kind.
const WRITTEN: &str = "N:=rec(l:=[ [1,-2],[],[a*b ^ -2,]],s:=\"a b\",e:=[ ,007 ,, x],\
    r:=rec(a:=[-3 .. 4],b:=rec()),m:=[rec(a:=1,b:=[[2]])])";

/// Its printed text.
const PRINTED: &str = "N := rec(
  l := [
    [1,-2],
    [],
    [a*b^-2,]
  ],
  s := \"a b\",
  e := [,7,,x],
  r := rec(
    a := [-3..4],
    b := rec(
    )
  ),
  m := [rec(a := 1,b := [[2]])]
);
";

/// Whether an overlap is entered and a version published, for which room was reserved.
fn has_room(alloc: Global) -> Result<bool, Memory> {
    let mut book = published(alloc, BRAID)?;
    book.reserve(1)?;
    let entered = book.enter(1, 1, 1, 2).is_ok();
    book.reserve_publish()?;
    let number = book.publish()?;
    Ok(entered && number == 2 && book.pending().len() == 1)
}

/// Whether the one version of a book has its five lines.
fn has_version(alloc: Global) -> Result<bool, Memory> {
    let book = published(alloc, RANK_2)?;
    let versions = book.versions();
    let last = versions.len() as u64;
    if last == 0 {
        return Ok(false);
    }
    Ok(versions.numbers(alloc, last)?.len() == 5)
}

/// The complete system of a presentation, by a reducer that tries one rule after another.
fn completed<T: Threads + Wait + Sync>(rt: &T, alloc: Global, text: &str) -> Result<Rules, Memory> {
    let Ok(presentation) = read(alloc, text.as_bytes()) else {
        return Err(Memory);
    };
    let limits = Limits::new(1000, 100, 100, 100);
    let crew = Crew::new(2, &OpenGate);
    match complete::<Index, OpenGate, T>(rt, alloc, &presentation, &limits, &crew)? {
        Outcome::Confluent(rules, _) => Ok(rules),
        Outcome::Halted(_) => Err(Memory),
    }
}

/// The word of these letters.
fn word(alloc: Global, letters: &[u16]) -> Result<Word, Memory> {
    let mut word = Word::new(alloc);
    for letter in letters {
        word.push(Letter::new(*letter))?;
    }
    Ok(word)
}

/// Whether a copy of the reducer by the rules of the free abelian group reduces `b*a*B` to `a`, and two words that are
/// given together as each alone.
fn copy_answers<R: Reducer + Sync, T: Threads + Wait + Sync>(
    rt: &T,
    alloc: Global,
    rules: &Rules,
) -> Result<bool, Memory> {
    let reducer = R::of(alloc, rules)?.copy(alloc)?;
    let first = word(alloc, &[3, 1, 4])?;
    let second = word(alloc, &[1, 2])?;
    let reduced = reducer.nf(alloc, &first)? == word(alloc, &[1])?;
    Ok(reduced && rules_answer(rt, alloc, &reducer, first, second)?)
}

/// Whether a word alone is read, and what is none is refused.
fn is_word_read() -> bool {
    parse_expr(b"(a*b)^-2\n").is_ok() && parse_expr(b"a*").is_err()
}

/// Whether the record is printed as it is to be.
fn is_printed(alloc: Global) -> Result<bool, Memory> {
    let Ok(record) = parse(alloc, WRITTEN.as_bytes()) else {
        return Ok(false);
    };
    let mut out = Vec::new(alloc);
    print(&record, &mut out)?;
    Ok(out.as_slice() == PRINTED.as_bytes())
}

#[test]
fn calls_that_no_command_makes_succeed(rt: HostRuntime) -> Result<(), Fail> {
    let alloc = rt.alloc();
    assert!(rt; has_room(alloc)?);
    assert!(rt; has_version(alloc)?);
    let rules = completed(&rt, alloc, RANK_2)?;
    assert!(rt; rules.len() == 8);
    assert!(rt; copy_answers::<Scan, HostRuntime>(&rt, alloc, &rules)?);
    assert!(rt; copy_answers::<Index, HostRuntime>(&rt, alloc, &rules)?);
    assert!(rt; multipliers_answer(&rt, alloc, 3, 2)?);
    assert!(rt; is_word_read());
    assert!(rt; is_printed(alloc)?);
    Ok(())
}
