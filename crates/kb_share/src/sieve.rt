//! The prime overlaps in which one line begins first.

ghost use Rattle.std.specs.Prelude.{◌≡◌, ◌+◌, ◌<◌, IfOk, OnOk, length};
ghost use Rattle.kb_overlap.specs.Composite.{ArePrimeOverlaps, IsPrimeOverlap};
ghost use Rattle.kb_share.specs.Primes.{LateSays, PrimeSays, SiftsRow};

use crate::found::{Apart, Found};
use crate::version::Version;
use kb_index::HasAutomaton;
use kb_overlap::{Joinability, Overlap, PairWorkspace, PrimeOverlaps};
use kb_rules::Reducer;
use kb_word::Memory;
use std::alloc::Global;
use std::marker::Model;

/// A version whose prime overlaps are sifted row by row. The row of an index has those in which the line at that index
/// begins first.
#[derive(Drop)]
pub struct Sieve<'b, R: Reducer> {
    version: Version<'b, R>,
    primes: PrimeOverlaps<'b>,
}

/// The version.
impl<'b, R: Reducer> Model for Sieve<'b, R> {
    ghost use Rattle.std.specs.Prelude.{◌≡◌};
    ghost use Rattle.kb_share.specs.Versions.{VersionParts};

    ghost Value = { VersionParts };

    ghost view = { λ sieve. sieve.version };

    ghost invariant = { λ sieve. sieve.primes ≡ sieve.version.rules };
}

/// The memory that rows are sifted in, kept from one to the next. What it holds before and after counts for nothing.
#[derive(Drop)]
pub struct SieveSpace {
    overlaps: Vec<Overlap>,
    pair: PairWorkspace,
}

impl SieveSpace {
    /// A space that has taken no memory yet.
    pub fn new(alloc: Global) -> SieveSpace {
        SieveSpace {
            overlaps: Vec::new(alloc),
            pair: PairWorkspace::new(alloc),
        }
    }
}

impl<'b, R: HasAutomaton> Sieve<'b, R> {
    /// The sieve of a version. Its reducer lends the automaton of its rules.
    pub fn of(alloc: Global, version: Version<'b, R>) -> Result<Sieve<'b, R>, Memory>
        ensures { IfOk result (λ sieve. sieve ≡ version.entry) }
    {
        let Some(automaton) = version.reducer().automaton() else {
            return Err(Memory);
        };
        let primes = PrimeOverlaps::by(alloc, version.rules(), automaton);
        Ok(Sieve { version, primes })
    }

    /// Finds those that are apart of the prime overlaps in a row of which one line has the number `from` or a later
    /// one: from 0 on these are all of the row. What the list held is gone; where memory runs out it holds anything.
    pub fn sift_row(
        &self,
        index: usize,
        from: u64,
        space: &mut SieveSpace,
        found: &mut Vec<Apart>,
    ) -> Result<(), Memory>
        requires { index < length self.now.rules }
        ensures { OnOk result (SiftsRow self.now from index found.new.items) }
    {
        let SieveSpace { overlaps, pair } = space;
        self.primes.of_rule(index, overlaps)?;
        sift_primes(&self.version, index, from, overlaps, pair, found)
    }
}

/// Finds those that are apart of these prime overlaps, which are all of the row, if one of their lines has the number
/// `from` or a later one.
fn sift_primes<R: Reducer>(
    version: &Version<'_, R>,
    index: usize,
    from: u64,
    overlaps: &[Overlap],
    pair: &mut PairWorkspace,
    found: &mut Vec<Apart>,
) -> Result<(), Memory>
    requires { ArePrimeOverlaps version.now.rules index overlaps.now }
    ensures { OnOk result (SiftsRow version.now from index found.new.items) }
{
    found.clear();
    for overlap in overlaps {
        if let Some(one) = sift_late(version, index, from, overlap, pair)? {
            found.push(one)?;
        }
    }
    Ok(())
}

/// The prime overlap of the lines at these indices, by their numbers, where it is apart and one of them has the number
/// `from` or a later one.
fn sift_late<R: Reducer>(
    version: &Version<'_, R>,
    index: usize,
    from: u64,
    overlap: &Overlap,
    pair: &mut PairWorkspace,
) -> Result<Option<Apart>, Memory>
    requires { IsPrimeOverlap version.now.rules index overlap.now }
    ensures { IfOk result (LateSays version.now from index overlap.now) }
{
    let numbers = version.numbers();
    let first = u64::from(numbers[index]);
    let second = u64::from(numbers[overlap.rule]);
    if first < from && second < from {
        return Ok(None);
    }
    sift_prime(version, index, overlap, pair)
}

/// The prime overlap of the lines at these indices, by their numbers, where it is apart.
fn sift_prime<R: Reducer>(
    version: &Version<'_, R>,
    index: usize,
    overlap: &Overlap,
    pair: &mut PairWorkspace,
) -> Result<Option<Apart>, Memory>
    requires { IsPrimeOverlap version.now.rules index overlap.now }
    ensures { IfOk result (PrimeSays version.now index overlap.now) }
{
    let first = &version.rules().as_slice()[index];
    let second = &version.rules().as_slice()[overlap.rule];
    let place = overlap.place as u64;
    match pair.join(version.reducer(), first, second, place)? {
        Joinability::Joined => Ok(None),
        Joinability::Apart => Ok(Some(Apart {
            letters: letters_of(pair),
            found: Found {
                first: version.numbers()[index],
                second: version.numbers()[overlap.rule],
                place,
            },
        })),
    }
}

/// How many letters the pair's words have together.
fn letters_of(pair: &PairWorkspace) -> u64
    ensures { result ≡ length pair.now.0 + length pair.now.1 }
{
    let first = pair.first().letters();
    let second = pair.second().letters();
    first.len() as u64 + second.len() as u64
}
