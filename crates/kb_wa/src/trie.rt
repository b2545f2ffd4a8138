//! The trie of the left sides of rules.

ghost use Rattle.std.specs.Prelude.{◌≡◌, ℕ, ◌+◌, List, IfOk, OnOk, length};
ghost use Rattle.kb_word.specs.Words.{Pair};
ghost use Rattle.kb_wa.specs.Tries.{IsTrieOf, left_at};

use kb_rules::Rule;
use kb_trie::Trie;
use kb_word::{Memory, Word};
use std::alloc::Global;

/// The trie of the left sides. Its automaton is to read letters up to this one.
pub(crate) fn trie_of(alloc: Global, letters: u16, rules: &[Rule]) -> Result<Trie, Memory>
    ensures { IfOk result (IsTrieOf rules.now (length rules.now)) }
{
    let mut trie = Trie::new(alloc, letters)?;
    for rule in rules {
        insert_left(&mut trie, rule.left())?;
    }
    Ok(trie)
}

/// Inserts a left side, whose state keeps a number then. The trie of the left sides before it becomes that of
/// one more.
fn insert_left(trie: &mut Trie, left: &Word) -> Result<(), Memory>
    ensures { OnOk result ((rules : List Pair) (place : ℕ) → left_at rules place ≡ left.now
        → IsTrieOf rules place trie.old → IsTrieOf rules (place + 1) trie.new) }
{
    let state = trie.insert(left)?;
    if trie.number_at(state) == 0 {
        return trie.set(state, 1);
    }
    Ok(())
}
