//! One rule.

ghost use Rattle.std.specs.Prelude.{◌≡◌, ◌↔◌, ◌++◌, IsTrue, IfOk};
ghost use Rattle.std.specs.Cmp.{partial_equiv_from_equiv};
ghost use Rattle.std.specs.Cmp.Rules.{hashing};
ghost use Rattle.std.specs.Hash as fed;
ghost use Rattle.std.proofs.Common.{rules};
ghost use Rattle.kb_word.specs.Words.{Pair};
ghost use Rattle.kb_rules.specs.Sides.{same_sides, same_sides_equiv};

use kb_word::{Memory, Word};
use std::alloc::Global;
use std::hash::{Hash, Hasher};
use std::marker::Model;

/// A rule: its left side may be replaced by its right side. Which order it decreases along is said by the list that
/// holds it.
#[derive(Debug, Drop)]
pub struct Rule {
    left: Word,
    right: Word,
}

impl Model for Rule {
    ghost use Rattle.kb_word.specs.Words.{Pair};

    ghost Value = { Pair };

    ghost view = { λ rule. (rule.left, rule.right) };
}

impl Rule {
    /// The rule with these sides.
    pub fn new(left: Word, right: Word) -> Rule
        ensures { result ≡ (left, right) }
    {
        Rule { left, right }
    }

    /// The side that is replaced.
    pub fn left(&self) -> &Word
        ensures { result.now ≡ self.now.0 }
    {
        &self.left
    }

    /// The side that it is replaced by.
    pub fn right(&self) -> &Word
        ensures { result.now ≡ self.now.1 }
    {
        &self.right
    }

    /// Both sides, the left one first, given back without taking memory.
    pub fn into_sides(self) -> (Word, Word)
        ensures { result ≡ self }
    {
        (self.left, self.right)
    }

    /// A rule of the same sides.
    pub fn copy(&self, alloc: Global) -> Result<Rule, Memory>
        ensures { IfOk result (λ rule. rule ≡ self.now) }
    {
        let left = self.left.copy(alloc)?;
        let right = self.right.copy(alloc)?;
        Ok(Rule { left, right })
    }
}

impl PartialEq for Rule {
    ghost eq = { same_sides };

    ghost laws = { partial_equiv_from_equiv same_sides_equiv };

    fn eq(&self, other: &Rule) -> bool
        ensures answer { result ≡ same_sides self.now other.now }
        ensures same { IsTrue result ↔ (self.now ≡ other.now) }
    {
        self.left == other.left && self.right == other.right
    }
}

impl Eq for Rule {
    ghost laws = { same_sides_equiv };
}

impl Hash for Rule {
    ghost hash_input = { λ (rule : Pair). fed.slice fed.u16 rule.0 ++ fed.slice fed.u16 rule.1 };

    ghost respects_eq = { Prim.search (hashing, rules) };

    fn hash<H: Hasher>(&self, state: &mut H) {
        self.left.hash(state);
        self.right.hash(state);
    }
}
