//! A book that is settled part by part, while another worker sweeps.

use crate::books::begun;
use crate::meeting::Meeting;
use kb_draw::Crew;
use kb_io::{Gate, OpenGate};
use kb_share::{Finder, Silent};
use kb_threads::settle_by;
use kb_word::Memory;
use std::alloc::Global;
use std::sync::Wait;
use std::test::Fail;
use std::thread::Threads;

/// Generators that commute, so that each two of them are a line: 435 lines, of which 256 are the first part.
const NAMES: &[u8] = b"abcdefghijklmnopqrstuvwxyzABCD";

/// The first line that is new after the first part was swept.
const AFTER_FIRST_PART: u64 = 257;

/// The presentation of the free commutative monoid with these generators.
fn commutative(alloc: Global) -> Result<Vec<u8>, Memory> {
    let mut text = Vec::new(alloc);
    text.extend_from_slice(b"_RWS := rec(isRWS := true, generatorOrder := [")?;
    for (place, name) in NAMES.iter().enumerate() {
        if place > 0 {
            text.push(b',')?;
        }
        text.push(*name)?;
    }
    text.extend_from_slice(b"], equations := [")?;
    for (place, later) in NAMES.iter().enumerate() {
        for earlier in &NAMES[..place] {
            if text.last() == Some(&b']') {
                text.push(b',')?;
            }
            text.extend_from_slice(&[b'[', *later, b'*', *earlier, b','])?;
            text.extend_from_slice(&[*earlier, b'*', *later, b']'])?;
        }
    }
    text.extend_from_slice(b"]);")?;
    Ok(text)
}

/// How many lines the book of commuting generators has when these workers have settled it, and the first line that is
/// new then.
fn settled_by<G: Gate, T: Threads + Wait + Sync>(
    rt: &T,
    alloc: Global,
    crew: &Crew<'_, G>,
) -> Result<(usize, u64), Memory> {
    let book = begun(alloc, &commutative(alloc)?)?;
    let mut finder = Finder::new(alloc);
    let (book, _) = settle_by(rt, alloc, book, &mut finder, crew, &mut Silent)?;
    Ok((book.lines().len(), finder.waiting.from()))
}

#[test]
fn a_part_is_swept_while_the_next_is_settled(rt: HostRuntime) -> Result<(), Fail> {
    let alloc = rt.alloc();
    let meeting = Meeting::new();
    let (lines, from) = settled_by(&rt, alloc, &Crew::new(2, &meeting))?;
    assert!(rt; !meeting.was_missed());
    assert!(rt; lines == 435);
    assert!(rt; from == AFTER_FIRST_PART);
    let (lines, from) = settled_by(&rt, alloc, &Crew::new(8, &OpenGate))?;
    assert!(rt; lines == 435);
    assert!(rt; from == AFTER_FIRST_PART);
    let (lines, from) = settled_by(&rt, alloc, &Crew::new(1, &OpenGate))?;
    assert!(rt; lines == 435);
    assert!(rt; from == 0);
    Ok(())
}
