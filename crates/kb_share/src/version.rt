//! Versions of a book.

ghost use Rattle.std.specs.Prelude.{◌≡◌, length};
ghost use Rattle.kb_share.specs.Versions.{IsPublished, version_of};

use kb_book::Book;
use kb_rules::{Reducer, Rules};
use std::marker::Model;

/// The live lines of a book as they were published, and the reducer by their rules. Both are borrowed, from the book
/// itself or from a copy that follows it, and so stay as they are.
#[derive(Drop)]
pub struct Version<'b, R: Reducer> {
    number: u64,
    numbers: &'b [u32],
    reducer: &'b R,
}

impl<'b, R: Reducer> Model for Version<'b, R> {
    ghost use Rattle.std.specs.Prelude.{◌≡◌, length};
    ghost use Rattle.kb_share.specs.Versions.{VersionParts};

    ghost Value = { VersionParts };

    ghost view = { λ version. record {
      number = version.number;
      numbers = version.numbers.now;
      rules = R.rules version.reducer.now;
    } };

    ghost invariant = { λ version.
        length version.numbers.now ≡ length (R.rules version.reducer.now) };
}

impl<'b, R: Reducer> Version<'b, R> {
    /// The last version of a book, which has its live lines.
    pub fn of(book: &'b Book<R>) -> Version<'b, R>
        requires { IsPublished book.now.course.state }
        ensures { result ≡ version_of book.now.course.state }
    {
        Version {
            number: book.versions().len() as u64,
            numbers: book.live(),
            reducer: book.reducer(),
        }
    }

    /// A version by the numbers of its lines and the reducer by their rules.
    pub fn lent(number: u64, numbers: &'b [u32], reducer: &'b R) -> Version<'b, R>
        requires { length numbers.now ≡ length (R.rules reducer.now) }
        ensures number { result.number ≡ number }
        ensures numbers { result.numbers ≡ numbers.now }
        ensures rules { result.rules ≡ R.rules reducer.now }
    {
        Version {
            number,
            numbers,
            reducer,
        }
    }

    /// Its number, from 1 on.
    pub fn number(&self) -> u64
        ensures { result ≡ self.now.number }
    {
        self.number
    }

    /// The numbers of its lines.
    pub fn numbers(&self) -> &'b [u32]
        ensures numbers { result.now ≡ self.now.numbers }
        ensures one_each { length self.now.numbers ≡ length self.now.rules }
    {
        self.numbers
    }

    /// The rules of its lines, in line order.
    pub fn rules(&self) -> &'b Rules
        ensures { result.now.rules ≡ self.now.rules }
    {
        self.reducer.list()
    }

    /// The reducer by its rules.
    pub fn reducer(&self) -> &'b R
        ensures { R.rules result.now ≡ self.now.rules }
    {
        self.reducer
    }
}
