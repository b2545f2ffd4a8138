//! What a look at the versions of a book shows.

ghost use Rattle.std.specs.Prelude.{◌≡◌};

use crate::books::begun;
use kb_book::Book;
use kb_index::Index;
use kb_publish::{BookPublisher, EditionReader, Ordered};
use kb_share::{Finder, Silent, settle};
use kb_word::Memory;
use std::alloc::Global;
use std::marker::Brand;
use std::sync::Wait;
use std::test::Fail;

/// The braid group's monoid of two generators, whose relation is one line.
const BRAID: &str =
    "_RWS := rec(isRWS := true, generatorOrder := [a,b], equations := [[b*a*b,a*b*a]]);";

/// A version that was looked at, by its number and the numbers of its lines.
#[derive(Drop)]
struct Seen {
    number: u64,
    lines: Vec<u32>,
}

/// The version that a reader looks at.
fn looked_at<N: Ordered>(
    alloc: Global,
    reader: EditionReader<Index, N>,
) -> Result<(Seen, EditionReader<Index, N>), Memory> {
    match reader.look() {
        Ok(look) => {
            let version = look.version().version();
            let number = version.number();
            let lines = Vec::from_slice(alloc, version.numbers());
            let reader = look.leave();
            let lines = lines?;
            Ok((Seen { number, lines }, reader))
        }
        Err(_) => Err(Memory),
    }
}

/// Whether a reader sees the lines of a book before it is settled, and afterwards once it was told.
fn sees_both<N: Ordered, T: Wait>(
    rt: &T,
    alloc: Global,
    mut book: Book<Index>,
    publisher: &mut BookPublisher<Index, N>,
    mut readers: Vec<EditionReader<Index, N>>,
) -> Result<bool, Memory>
    requires { book.course.problem.order ≡ N.order }
{
    let Some(reader) = readers.pop() else {
        return Ok(false);
    };
    let (before, reader) = looked_at(alloc, reader)?;
    settle(alloc, &mut book, &mut Finder::new(alloc), &mut Silent)?;
    publisher.advance(rt, &book)?;
    let (after, _reader) = looked_at(alloc, publisher.tell(reader))?;
    let none = before.number == 0 && before.lines.is_empty();
    Ok(none && after.number == 1 && after.lines.as_slice() == [1].as_slice())
}

/// The same, by a publisher of its own.
fn versions_are_seen<N: Ordered, T: Wait>(
    rt: &T,
    alloc: Global,
    book: Book<Index>,
) -> Result<bool, Memory>
    requires { book.course.problem.order ≡ N.order }
{
    let (mut publisher, readers) = BookPublisher::<Index, N>::new(rt, alloc, &book, 1)?;
    let sees = sees_both(rt, alloc, book, &mut publisher, readers);
    publisher.close(rt);
    sees
}

/// Whether the versions of the braid group's book are seen.
fn braid_is_seen<T: Wait>(rt: &T, alloc: Global) -> Result<bool, Memory> {
    let book = begun(alloc, BRAID.as_bytes())?;
    versions_are_seen::<Brand, T>(rt, alloc, book)
}

#[test]
fn a_look_shows_what_was_published(rt: HostRuntime) -> Result<(), Fail> {
    assert!(rt; braid_is_seen(&rt, rt.alloc())?);
    Ok(())
}
