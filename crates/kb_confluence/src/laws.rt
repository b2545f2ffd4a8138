//! The laws of confluent rules. None of them does anything when it runs.

ghost use Rattle.std.specs.Prelude.{List};
ghost use Rattle.kb_word.specs.Words.{Letters, Pair};
ghost use Rattle.kb_word.specs.WordOrders.{Below};
ghost use Rattle.kb_word.specs.declared.word_order.WordOrder.{WordOrder};
ghost use Rattle.kb_word.specs.Congruence.{IsLeast, SameCongruence};
ghost use Rattle.kb_word.specs.Rewriting.{AreDecreasing, NormalForm};
ghost use Rattle.kb_word.specs.Overlap.{IsConfluent};

/// Where rules that decrease along an order are confluent, a word's normal form is the least word by that order that
/// is congruent to it.
/// Book, Otto, String-Rewriting Systems, 2.2 and 2.3 (Newman's lemma and the critical pair criterion).
pub fn normal_forms_by_confluent_rules_are_least()
    ensures { (order : WordOrder) (rules : List Pair) (w m : Letters)
        → AreDecreasing (Below order) rules → IsConfluent rules → NormalForm rules w m
        → IsLeast (Below order) rules w m }
{}

/// A least word stays least by other pairs that generate the same congruence.
pub fn least_by_the_same_congruence()
    ensures { (order : WordOrder) (pairs others : List Pair) (w m : Letters)
        → SameCongruence pairs others → IsLeast (Below order) pairs w m
        → IsLeast (Below order) others w m }
{}
