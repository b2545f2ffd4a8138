//! The rules of the lines before, and whether they reduce a word.

ghost use Rattle.std.specs.Prelude.{◌≡◌, [], ◌∷◌, ◌++◌, Ok, true, false, IfOk, OnOk};
ghost use Rattle.kb_word.specs.Words.{OneOf};
ghost use Rattle.kb_word.specs.WordOrders.{Below};
ghost use Rattle.kb_word.specs.Rewriting.{IsIrreducible};
ghost use Rattle.kb_machine.specs.Lines.{rule_of};
ghost use Rattle.kb_proof.specs.Verifying.{HasLeftSide};

use kb_index::Index;
use kb_machine::Line;
use kb_rules::{Reducer, Rule, Rules, Workspace};
use kb_word::{Memory, Word, WordOrder};
use std::alloc::Global;
use std::marker::Model;

/// The rules of the lines before, and the memory that reductions by them work in.
#[derive(Drop)]
pub(crate) struct EarlierRules {
    index: Index,
    word: Word,
    workspace: Workspace,
}

impl Model for EarlierRules {
    ghost use Rattle.kb_rules.specs.OrderedRules.{OrderedRules};

    ghost Value = { OrderedRules };

    ghost view = { λ earlier. earlier.index };
}

impl EarlierRules {
    /// No rules, for an order.
    pub(crate) fn new(alloc: Global, order: WordOrder) -> Result<EarlierRules, Memory>
        ensures order { IfOk result (λ earlier. earlier.order ≡ order) }
        ensures rules { IfOk result (λ earlier. earlier.rules ≡ []) }
    {
        let index = Index::of(alloc, &Rules::new(alloc, order))?;
        Ok(EarlierRules {
            index,
            word: Word::new(alloc),
            workspace: Workspace::new(alloc),
        })
    }

    /// Adds the rule of a line.
    pub(crate) fn push(&mut self, alloc: Global, line: &Line) -> Result<(), Memory>
        requires { Below self.old.order line.now.right line.now.left }
        ensures rules { OnOk result (self.new.rules ≡ self.old.rules ++ rule_of line.now ∷ []) }
        ensures order { OnOk result (self.new.order ≡ self.old.order) }
    {
        let left = line.left.copy(alloc)?;
        let right = line.right.copy(alloc)?;
        self.index.push(alloc, &Rule::new(left, right))
    }

    /// Whether no left side is a factor of the word.
    pub(crate) fn leave(&mut self, word: &Word) -> Result<bool, Memory>
        ensures yes { result ≡ Ok true → IsIrreducible (OneOf self.old.rules) word.now }
        ensures no { result ≡ Ok false → HasLeftSide self.old.rules word.now }
        ensures same { self.new ≡ self.old }
    {
        self.word.assign(word)?;
        self.index.reduce(&mut self.word, &mut self.workspace)?;
        Ok(self.word == *word)
    }
}
