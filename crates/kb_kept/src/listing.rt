//! The differences of equalities, each where it was first seen.

ghost use Rattle.std.specs.Prelude.{◌≡◌, ◌≢◌, ◌↔◌, ◌+◌, ◌<◌, [], ◌∷◌, None, IfOk, length, map};
ghost use Rattle.kb_word.specs.Relations.{IsOver};
ghost use Rattle.kb_diff.specs.declared.grow.Grow.{Grow};
ghost use Rattle.kb_diff.specs.Keeping.{AddsPairs, IsFull};
ghost use Rattle.kb_kept.specs.Finding.{FindsAt, FindsOne, Reaches, Standing};
ghost use Rattle.kb_kept.specs.Listed.{AreEqualitiesOver, Lists, pair_of};

use crate::equality::Equality;
use crate::seen::Seen;
use indexmap::IndexSet;
use kb_diff::Differences;
use kb_rules::{Reducer, Workspace};
use kb_word::{Memory, Word};
use std::alloc::Global;

/// The word differences of equalities, in first-seen order and without the empty word, up to one for which there was
/// no room.
#[derive(Debug, Drop)]
pub struct Listing {
    /// The equalities.
    pub equalities: Vec<Equality>,
    /// The differences that are kept, each with the first equality and place at which it is.
    pub kept: Vec<Seen>,
    /// The first difference for which there was no room.
    pub needed: Option<Seen>,
}

/// Where the differences that were kept of equalities were first seen.
pub fn list_differences<R: Reducer>(
    alloc: Global,
    differences: &Differences<R>,
    equalities: Vec<Equality>,
) -> Result<Listing, Memory>
    requires over { AreEqualitiesOver differences.now.group.n equalities.items }
    requires kept { (answer : Grow) × AddsPairs differences.now.group differences.now.most
        (map pair_of equalities.items) ([] ∷ []) differences.now.words answer }
    ensures equalities { IfOk result (λ listing. listing.equalities.items ≡ equalities.items) }
    ensures lists { IfOk result (Lists differences.now.group differences.now.words) }
    ensures needed { (answer : Grow) → AddsPairs differences.now.group differences.now.most
        (map pair_of equalities.items) ([] ∷ []) differences.now.words answer
        → IfOk result (λ listing. (listing.needed ≢ None) ↔ IsFull answer) }
{
    let mut found = Found::new(alloc)?;
    for index in 0..equalities.len() {
        let needed = found.list_equality(alloc, differences, &equalities, index)?;
        if needed.is_some() {
            return Ok(Listing {
                equalities,
                kept: found.kept,
                needed,
            });
        }
    }
    Ok(Listing {
        equalities,
        kept: found.kept,
        needed: None,
    })
}

/// What is found of the differences of equalities, up to a place.
#[derive(Drop)]
struct Found {
    /// The differences, each with the first equality and place at which it is.
    kept: Vec<Seen>,
    /// Their words, and the empty word before them.
    known: IndexSet<Word>,
    /// The memory that reductions work in.
    workspace: Workspace,
}

impl Found {
    /// Before the first equality the empty word alone is known.
    fn new(alloc: Global) -> Result<Found, Memory>
        ensures kept { IfOk result (λ found. found.kept.items ≡ []) }
        ensures known { IfOk result (λ found. found.known.keys ≡ [] ∷ []) }
    {
        let mut known = IndexSet::new(alloc);
        known.insert(Word::new(alloc))?;
        Ok(Found {
            kept: Vec::new(alloc),
            known,
            workspace: Workspace::new(alloc),
        })
    }

    /// Lists the differences of the equality at an index, and returns the first one for which there is no room.
    fn list_equality<R: Reducer>(
        &mut self,
        alloc: Global,
        differences: &Differences<R>,
        equalities: &[Equality],
        index: usize,
    ) -> Result<Option<Seen>, Memory>
        requires over { AreEqualitiesOver differences.now.group.n equalities.now }
        requires within { index < length equalities.now }
        ensures { (answer : Grow)
            → Standing differences.now.group differences.now.words answer equalities.now index 1 self.old
            → IfOk result (Reaches differences.now.group differences.now.words answer equalities.now
            (index + 1) 1 self.new) }
    {
        let equality = &equalities[index];
        for place in 0..equality.u.len().max(equality.v.len()) {
            let needed = self.list_place(alloc, differences, equality, index, place + 1)?;
            if needed.is_some() {
                return Ok(needed);
            }
        }
        Ok(None)
    }

    /// Lists the difference at a place of an equality, unless it is known already. It is returned where there is no
    /// room.
    fn list_place<R: Reducer>(
        &mut self,
        alloc: Global,
        differences: &Differences<R>,
        equality: &Equality,
        index: usize,
        place: usize,
    ) -> Result<Option<Seen>, Memory>
        requires first { IsOver differences.now.group.n equality.now.u }
        requires second { IsOver differences.now.group.n equality.now.v }
        ensures { IfOk result (FindsAt differences.now.group (length differences.now.words)
            equality.now index place self.old self.new) }
    {
        let word = differences.difference_at(
            alloc,
            &equality.u,
            &equality.v,
            place,
            &mut self.workspace,
        )?;
        let seen = Seen {
            word,
            equality: index,
            place,
        };
        self.list(alloc, differences.len(), seen)
    }

    /// Lists a difference, unless it is known already. It is returned where so many words are known as there may be.
    fn list(&mut self, alloc: Global, most: usize, seen: Seen) -> Result<Option<Seen>, Memory>
        ensures { IfOk result (FindsOne most seen self.old self.new) }
    {
        if self.known.contains(&seen.word) {
            return Ok(None);
        }
        if self.known.len() >= most {
            return Ok(Some(seen));
        }
        self.known.insert(seen.word.copy(alloc)?)?;
        self.kept.push(seen)?;
        Ok(None)
    }
}
