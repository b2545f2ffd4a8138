//! Which lines each version has.

ghost use Rattle.std.specs.Prelude.{◌≡◌, ◌↔◌, ◌+◌, ◌^◌, ◌≤◌, ◌<◌, ℕ, [], ◌∷◌, ◌++◌, Some, IfOk, IsTrue, OnOk, length, slice_get};
ghost use Rattle.std.specs.List.{Contains, remove};
ghost use Rattle.kb_machine.specs.Lines.{numbered};
ghost use Rattle.kb_book.specs.Lives.{is_in, numbers_from};

use crate::room::{add, grow};
use kb_word::Memory;
use std::alloc::Global;
use std::marker::Model;

/// After so many versions a line goes that lives. There are always fewer.
const NEVER: u32 = 4_294_967_295;

/// The live numbers of each version that was published. They take less memory than the lines, however many versions
/// there are: of each line is kept when it was made, and when it went, in 8 bytes.
#[derive(Drop)]
pub struct Versions {
    /// Of each line, in order.
    lives: Vec<Life>,
    /// How many versions there are.
    count: u32,
}

/// Which versions have a line.
#[derive(Clone, Copy)]
struct Life {
    /// How many versions were published before it was made.
    born: u32,
    /// How many were published before it went.
    gone: u32,
}

impl Model for Versions {
    ghost use Rattle.std.specs.Prelude.{◌-◌, ◌^◌, ◌<◌, ◌≤◌, vec_len, vec_capacity, length, map, All};
    ghost use Rattle.std.specs.List.{range_with_len};
    ghost use Rattle.kb_book.specs.Lives.{VersionsParts, numbers_from, IsWithin, most};

    ghost Value = { VersionsParts };

    ghost view = { λ versions. record {
      published = map (numbers_from 1 versions.lives.items) (range_with_len 0 versions.count);
      live = numbers_from 1 versions.lives.items versions.count;
      lines = length versions.lives.items;
      room = vec_capacity versions.lives - vec_len versions.lives;
      more = most - versions.count;
    } };

    ghost invariant = { λ versions. (length versions.lives.items < 2 ^ 32)
        × All (IsWithin versions.count) versions.lives.items × (versions.count ≤ most) };
}

impl Versions {
    /// No versions of no lines.
    pub(crate) fn new(alloc: Global) -> Versions
        ensures published { result.published ≡ [] }
        ensures live { result.live ≡ [] }
        ensures lines { result.lines ≡ 0 }
    {
        Versions {
            lives: Vec::new(alloc),
            count: 0,
        }
    }

    /// How many versions there are.
    pub fn len(&self) -> usize
        ensures { result ≡ length self.now.published }
    {
        self.count as usize
    }

    /// The live numbers of the version with this number. The first version has number 1.
    pub fn numbers(&self, alloc: Global, version: u64) -> Result<Vec<u32>, Memory>
        requires { (0 < version) × (version ≤ length self.now.published) }
        ensures { IfOk result (λ numbers. numbered self.now.published version ≡ Some numbers.items) }
    {
        numbers_at(alloc, &self.lives, version as usize - 1)
    }

    /// Makes room for one more line.
    pub(crate) fn reserve(&mut self) -> Result<(), Memory>
        ensures ok { OnOk result (0 < self.new.room) }
        ensures published { self.new.published ≡ self.old.published }
        ensures live { self.new.live ≡ self.old.live }
        ensures lines { self.new.lines ≡ self.old.lines }
    {
        grow(&mut self.lives, 1)?;
        Ok(())
    }

    /// A line is made, and is live.
    pub(crate) fn add_line(&mut self)
        requires room { 0 < self.old.room }
        requires few { self.old.lines + 1 < 2 ^ 32 }
        ensures published { self.new.published ≡ self.old.published }
        ensures live { self.new.live ≡ self.old.live ++ (self.old.lines + 1) ∷ [] }
        ensures lines { self.new.lines ≡ self.old.lines + 1 }
    {
        let life = Life {
            born: self.count,
            gone: NEVER,
        };
        add(&mut self.lives, life);
    }

    /// A live line goes.
    pub(crate) fn take_away(&mut self, k: u32)
        requires { Contains self.old.live k }
        ensures published { self.new.published ≡ self.old.published }
        ensures live { (place : ℕ) → slice_get self.old.live place ≡ Some k
            → self.new.live ≡ remove self.old.live place }
        ensures lines { self.new.lines ≡ self.old.lines }
        ensures room { self.new.room ≡ self.old.room }
    {
        let count = self.count;
        let place = k as usize - 1;
        let born = self.lives[place].born;
        self.lives[place] = Life { born, gone: count };
    }

    /// Whether one more version may be published.
    pub(crate) fn have_room(&self) -> bool
        ensures { IsTrue result ↔ (0 < self.now.more) }
    {
        self.count < NEVER - 1
    }

    /// The live lines are published as a version.
    pub(crate) fn publish(&mut self)
        requires { 0 < self.old.more }
        ensures published { self.new.published ≡ self.old.published ++ self.old.live ∷ [] }
        ensures live { self.new.live ≡ self.old.live }
        ensures lines { self.new.lines ≡ self.old.lines }
    {
        self.count += 1;
    }
}

impl Life {
    /// Whether the version at a place has the line.
    fn is_in(&self, place: usize) -> bool
        ensures { result ≡ is_in self.now place }
    {
        self.born as usize <= place && place < self.gone as usize
    }
}

/// The numbers of the lines that the version at a place has.
fn numbers_at(alloc: Global, lives: &[Life], place: usize) -> Result<Vec<u32>, Memory>
    requires { length lives.now < 2 ^ 32 }
    ensures { IfOk result (λ numbers. numbers.items ≡ numbers_from 1 lives.now place) }
{
    let mut numbers = Vec::new(alloc);
    for (index, life) in lives.iter().enumerate() {
        if life.is_in(place) {
            numbers.push(index as u32 + 1)?;
        }
    }
    Ok(numbers)
}
