//! Whether few words begin left sides, told before an acceptor is made.

ghost use Rattle.std.specs.Prelude.{IsTrue, IfOk};
ghost use Rattle.kb_wa.specs.Prefixes.{CountedPrefixes};

use crate::trie::trie_of;
use kb_rules::Rules;
use kb_word::Memory;
use std::alloc::Global;

/// Whether the trie of the left sides has no more states than the limit. Then no more words than the limit are
/// proper prefixes of left sides, since each of them has its own state. Left sides are states too, so that the
/// answer may be no where the prefixes alone are few enough.
pub fn has_few_states(alloc: Global, rules: &Rules, limit: u32) -> Result<bool, Memory>
    ensures { IfOk result (λ few. IsTrue few → ¬ CountedPrefixes rules.now.rules limit) }
{
    // The trie is counted and reads no letter.
    let trie = trie_of(alloc, 0, rules.as_slice())?;
    Ok(trie.count() <= limit as usize)
}
