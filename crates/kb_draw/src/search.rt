//! The search, and its first find.

ghost use Rattle.std.specs.Prelude.{◌≡◌, ℕ, ◌^◌, ◌<◌, ◌≤◌, IfOk, IfSome, IfNone};
ghost use Rattle.kb_draw.specs.Earliest.{IsEarlier, IsEarliestOf};
ghost use Rattle.kb_draw.specs.First.{AllLack, IsFirstFound};

use crate::crew::Crew;
use crate::search_share::SearchShare;
use crate::work::{Work, share_out};
use kb_io::Gate;
use kb_word::Memory;
use std::alloc::Global;
use std::sync::Wait;
use std::thread::Threads;

/// A search through places, which are numbered from 0 on.
pub trait Search {
    /// What is found.
    type Found: Drop;

    /// How many places there are.
    ghost places: { Self → ℕ };

    /// The place has this.
    ghost has: { Self → ℕ → Self.Found → Type 0 };

    /// The place lacks what is searched.
    ghost lacks: { Self → ℕ → Type 0 };

    /// How many places there are.
    fn places(&self) -> u64
        ensures { result ≡ places self.now };

    /// What the place has, if anything.
    fn look(&self, alloc: Global, place: u64) -> Result<Option<Self::Found>, Memory>
        requires { place < places self.now }
        ensures found { IfOk result (λ found. IfSome found (has self.now place)) }
        ensures none { IfOk result (λ found. IfNone found (lacks self.now place)) };
}

/// The places of a search, as work.
#[derive(Drop)]
struct Places<'a, S: Search> {
    alloc: Global,
    search: &'a S,
}

/// A part is a place. A share doesn't look at the places after the one at which it found something.
impl<'a, S: Search> Work for Places<'a, S> {
    ghost use Rattle.std.specs.Prelude.{◌<◌};
    ghost use Rattle.kb_draw.specs.Earliest.{FoundAt};

    type Share = SearchShare<S::Found>;

    ghost parts = { λ it. S.places it.search.now };

    ghost sound = { λ it share.
        FoundAt (S.places it.search.now) (S.has it.search.now) share.place share.found };

    ghost done = { λ it share place. place < share.place → S.lacks it.search.now place };

    fn parts(&self) -> u64 {
        self.search.places()
    }

    fn begin(&self, _alloc: Global, _worker: u32) -> Result<SearchShare<S::Found>, Memory> {
        Ok(SearchShare {
            place: self.search.places(),
            found: None,
        })
    }

    fn take(&self, place: u64, share: &mut SearchShare<S::Found>) -> Result<(), Memory> {
        if share.place <= place {
            return Ok(());
        }
        if let Some(found) = self.search.look(self.alloc, place)? {
            *share = SearchShare {
                place,
                found: Some(found),
            };
        }
        Ok(())
    }
}

/// What the first place has that has something, by the workers of a crew.
pub fn first_found<S: Search + Sync, G: Gate, T: Threads + Wait + Sync>(
    rt: &T,
    alloc: Global,
    search: &S,
    crew: &Crew<'_, G>,
) -> Result<Option<S::Found>, Memory>
where
    S::Found: Send,
    requires { S.places search.now ≤ 2 ^ 62 }
    ensures found { IfOk result (λ found. IfSome found
        (IsFirstFound (S.places search.now) (S.has search.now) (S.lacks search.now))) }
    ensures none { IfOk result (λ found. IfNone found
        (AllLack (S.places search.now) (S.lacks search.now))) }
{
    let shares = share_out(rt, alloc, &Places { alloc, search }, crew)?;
    Ok(earliest(search.places(), shares).found)
}

/// The share of those with the earliest place, or one with nothing.
fn earliest<F: Drop>(places: u64, shares: Vec<SearchShare<F>>) -> SearchShare<F>
    ensures { IsEarliestOf places shares.items result }
{
    let mut earliest = SearchShare {
        place: places,
        found: None,
    };
    for share in shares {
        earliest = earlier(earliest, share);
    }
    earliest
}

/// Of two shares the one with the earlier place.
fn earlier<F: Drop>(one: SearchShare<F>, other: SearchShare<F>) -> SearchShare<F>
    ensures { IsEarlier one other result }
{
    if one.place <= other.place { one } else { other }
}
