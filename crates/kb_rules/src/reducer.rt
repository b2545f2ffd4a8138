//! The contract of all programs that compute normal forms: one law, whatever finds the rewrites.
//!
//! [`Scan`](crate::Scan) tries the rules one after another; a reducer that looks left sides up in an index
//! meets the same clauses, and so gives the same words.

ghost use Rattle.std.specs.Prelude.{◌≡◌, ◌<◌, List, [], ◌∷◌, ◌++◌, length, IfOk, OnOk, OnErr};
ghost use Rattle.std.specs.List.{remove};
ghost use Rattle.kb_word.specs.Words.{Pair};
ghost use Rattle.kb_word.specs.WordOrders.{Below};
ghost use Rattle.kb_word.specs.Rewriting.{NormalForm};
ghost use Rattle.kb_word.specs.declared.word_order.WordOrder.{WordOrder};
ghost use Rattle.kb_rules.specs.Steps.{IsFirstStep, Leads};

use crate::rule::Rule;
use crate::rules::Rules;
use crate::trace::Trace;
use crate::workspace::Workspace;
use kb_word::{Memory, Word};
use std::alloc::Global;

/// Computes normal forms by a list of rules, which decrease along an order of words.
pub trait Reducer: Sized + Drop {
    /// The rules by which it reduces.
    ghost rules: { Self → List Pair };

    /// The order along which they decrease.
    ghost order: { Self → WordOrder };

    /// The reducer by these rules. It keeps no hold of the list.
    fn of(alloc: Global, list: &Rules) -> Result<Self, Memory>
        ensures rules { IfOk result (λ reducer. rules reducer ≡ list.now.rules) }
        ensures order { IfOk result (λ reducer. order reducer ≡ list.now.order) };

    /// The rules by which it reduces, in their order.
    fn list(&self) -> &Rules
        ensures rules { result.now.rules ≡ rules self.now }
        ensures order { result.now.order ≡ order self.now };

    /// Replaces a word by its normal form. After want of memory the word is as it was. The word and the workspace may
    /// exchange their memory: where one workspace serves for many words, and one word is filled anew for each of them,
    /// no memory is taken any more once both have grown to the longest word.
    fn reduce(&self, w: &mut Word, workspace: &mut Workspace) -> Result<(), Memory>
        ensures ok { OnOk result (NormalForm (rules self.now) w.old w.new) }
        ensures err { OnErr result (w.new ≡ w.old) };

    /// The normal form of w.
    fn nf(&self, alloc: Global, w: &Word) -> Result<Word, Memory>
        ensures { IfOk result (λ m. NormalForm (rules self.now) w.now m) }
    {
        let mut m = w.copy(alloc)?;
        self.reduce(&mut m, &mut Workspace::new(alloc))?;
        Ok(m)
    }

    /// The normal form of w, with the steps that lead to it.
    fn trace(&self, alloc: Global, w: &Word) -> Result<Trace, Memory>
        ensures normal { IfOk result (λ trace. NormalForm (rules self.now) w.now trace.word) }
        ensures steps { IfOk result (λ trace.
            Leads (IsFirstStep (rules self.now)) w.now trace.steps.items trace.word) };

    /// Adds a rule at the end of the list. After want of memory the list is as it was.
    fn push(&mut self, alloc: Global, rule: &Rule) -> Result<(), Memory>
        requires { Below (order self.old) rule.now.1 rule.now.0 }
        ensures ok { OnOk result (rules self.new ≡ rules self.old ++ rule.now ∷ []) }
        ensures err { OnErr result (rules self.new ≡ rules self.old) }
        ensures order { order self.new ≡ order self.old };

    /// Takes the rule at a place out of the list; the others stay in their order. After want of memory the list is
    /// as it was.
    fn remove(&mut self, alloc: Global, place: usize) -> Result<(), Memory>
        requires { place < length (rules self.old) }
        ensures ok { OnOk result (rules self.new ≡ remove (rules self.old) place) }
        ensures err { OnErr result (rules self.new ≡ rules self.old) }
        ensures order { order self.new ≡ order self.old };

    /// Takes the rule at a place out of the list, where the others stay in their order, and adds one at its end. After
    /// want of memory the list is as it was.
    fn replace(&mut self, alloc: Global, place: usize, rule: &Rule) -> Result<(), Memory>
        requires place { place < length (rules self.old) }
        requires falls { Below (order self.old) rule.now.1 rule.now.0 }
        ensures ok { OnOk result (rules self.new ≡ remove (rules self.old) place ++ rule.now ∷ []) }
        ensures err { OnErr result (rules self.new ≡ rules self.old) }
        ensures order { order self.new ≡ order self.old };

    /// Makes itself ready for much reading after rules came and went. The rules stay.
    fn tidy(&mut self, _alloc: Global) -> Result<(), Memory>
        ensures { self.new ≡ self.old }
    {
        Ok(())
    }

    /// A reducer by the same rules.
    fn copy(&self, alloc: Global) -> Result<Self, Memory>
        ensures rules { IfOk result (λ reducer. rules reducer ≡ rules self.now) }
        ensures order { IfOk result (λ reducer. order reducer ≡ order self.now) };
}
