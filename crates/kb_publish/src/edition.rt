//! A version of a book as a value of its own, which follows the book.

ghost use Rattle.std.specs.Prelude.{◌≡◌, [], ◌∷◌, ◌++◌, IfOk, OnErr, OnOk};
ghost use Rattle.std.specs.List.{remove};
ghost use Rattle.kb_publish.specs.Editions.{changed, edition_of};

use crate::change::{Change, LiveLine, Ordered};
use kb_book::Book;
use kb_rules::Reducer;
use kb_share::Version;
use kb_word::{Memory, Word};
use left_right::Absorb;
use std::alloc::{AllocError, Global};
use std::marker::{Model, PhantomData};

/// By what contracts know a version: its number, the numbers of its lines, and their rules. No value of it is made.
pub struct Lines {
    pub version: u64,
    pub numbers: [u32; 0],
    pub rules: [(Word, Word); 0],
}

/// The live lines of a book as they were when it was made and after the changes that it took since, with the reducer by
/// their rules. It keeps no hold of the book.
#[derive(Drop)]
pub struct Edition<R: Reducer, N: Ordered> {
    alloc: Global,
    version: u64,
    numbers: Vec<u32>,
    reducer: R,
    order: PhantomData<N>,
}

impl<R: Reducer, N: Ordered> Model for Edition<R, N> {
    ghost use Rattle.std.specs.Prelude.{◌≡◌, length};
    ghost use Rattle.kb_publish.specs.declared.edition.Lines.{Lines};

    ghost Value = { Lines };

    ghost view = { λ edition. record {
      version = edition.version;
      numbers = edition.numbers.items;
      rules = R.rules edition.reducer;
    } };

    ghost invariant = { λ edition.
        (length edition.numbers.items ≡ length (R.rules edition.reducer))
        × (R.order edition.reducer ≡ N.order) };
}

impl<R: Reducer, N: Ordered> Edition<R, N> {
    /// The edition of the live lines of a book, with the number of its last version.
    pub fn of(alloc: Global, book: &Book<R>) -> Result<Edition<R, N>, Memory>
        requires { book.now.course.problem.order ≡ N.order }
        ensures { IfOk result (λ edition. edition ≡ edition_of book.now.course.state) }
    {
        let numbers = Vec::from_slice(alloc, book.live())?;
        let reducer = book.reducer().copy(alloc)?;
        Ok(Edition {
            alloc,
            version: book.versions().len() as u64,
            numbers,
            reducer,
            order: PhantomData,
        })
    }

    /// The version that it is.
    pub fn version(&self) -> Version<'_, R>
        ensures number { result.number ≡ self.now.version }
        ensures numbers { result.numbers ≡ self.now.numbers }
        ensures rules { result.rules ≡ self.now.rules }
    {
        Version::lent(self.version, &self.numbers, &self.reducer)
    }

    /// Takes a change. After want of memory it is as it was.
    fn take(&mut self, change: &Change<N>) -> Result<(), Memory>
        ensures ok { OnOk result (self.new ≡ changed self.old change.now) }
        ensures err { OnErr result (self.new ≡ self.old) }
    {
        match change {
            Change::Gone(place) => self.take_out(*place),
            Change::Live(line) => self.add(line),
            Change::Published => {
                self.version = self.version.saturating_add(1);
                Ok(())
            }
        }
    }

    /// Takes the line at a place out, if there is one.
    fn take_out(&mut self, place: usize) -> Result<(), Memory>
        ensures ok { OnOk result (self.new ≡ record self.old {
          numbers = remove self.old.numbers place;
          rules = remove self.old.rules place;
        }) }
        ensures err { OnErr result (self.new ≡ self.old) }
    {
        if place >= self.numbers.len() {
            return Ok(());
        }
        self.reducer.remove(self.alloc, place)?;
        let _number = self.numbers.remove(place);
        Ok(())
    }

    /// Adds a line at the end.
    fn add(&mut self, line: &LiveLine<N>) -> Result<(), Memory>
        ensures ok { OnOk result (self.new ≡ record self.old {
          numbers = self.old.numbers ++ line.now.number ∷ [];
          rules = self.old.rules ++ line.now.rule ∷ [];
        }) }
        ensures err { OnErr result (self.new ≡ self.old) }
    {
        self.numbers.reserve(1)?;
        self.reducer.push(self.alloc, line.rule())?;
        self.numbers.push(line.number())?;
        Ok(())
    }
}

impl<R: Reducer, N: Ordered> Absorb<Change<N>> for Edition<R, N> {
    ghost use Rattle.kb_publish.specs.Editions.{changed};

    type State = Lines;

    ghost state = { λ edition. edition };

    ghost applied = { changed };

    fn absorb_first(
        &mut self,
        change: &Change<N>,
        _other: &Edition<R, N>,
    ) -> Result<(), AllocError> {
        match self.take(change) {
            Ok(()) => Ok(()),
            Err(Memory) => Err(AllocError),
        }
    }
}
