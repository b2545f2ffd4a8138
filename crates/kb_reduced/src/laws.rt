//! The laws of reduced complete systems. None of them does anything when it runs.

ghost use Rattle.std.specs.Prelude.{◌≡◌, ◌↔◌, List};
ghost use Rattle.kb_word.specs.Words.{Letters, Pair, OneOf};
ghost use Rattle.kb_word.specs.WordOrders.{Below};
ghost use Rattle.kb_word.specs.declared.word_order.WordOrder.{WordOrder};
ghost use Rattle.kb_word.specs.Congruence.{Congruent, IsLeast, SameCongruence};
ghost use Rattle.kb_word.specs.Rewriting.{AreDecreasing, IsIrreducible, NormalForm};
ghost use Rattle.kb_word.specs.Overlap.{IsConfluent};
ghost use Rattle.kb_reduced.specs.Reduced.{IsLeastWord, IsReducedComplete, IsCompleteSystem, NoLeftSideInAnother};

/// A congruence has one reduced complete system.
/// Book, Otto, String-Rewriting Systems, 2.2.
pub fn reduced_complete_systems_are_unique()
    ensures { (order : WordOrder) (pairs rules others : List Pair)
        → IsReducedComplete (Below order) pairs rules → IsReducedComplete (Below order) pairs others
        → rules ≡ others }
{}

/// A reduced complete system is that of all pairs that generate the same congruence.
pub fn reduced_by_the_same_congruence()
    ensures { (order : WordOrder) (pairs others rules : List Pair)
        → SameCongruence pairs others → IsReducedComplete (Below order) pairs rules
        → IsReducedComplete (Below order) others rules }
{}

/// A reduced complete system is complete: its rules decrease and are confluent, and generate the congruence. No left
/// side of it is a factor of another one, its normal forms are the least words, and exactly the least words are
/// irreducible by it. No decision procedure for the congruence is asked for.
pub fn reduced_complete_systems_are_complete()
    ensures complete { (order : WordOrder) (pairs rules : List Pair)
        → IsReducedComplete (Below order) pairs rules → IsCompleteSystem (Below order) pairs rules }
    ensures no_factors { (order : WordOrder) (pairs rules : List Pair)
        → IsReducedComplete (Below order) pairs rules → NoLeftSideInAnother rules }
    ensures least { (order : WordOrder) (pairs rules : List Pair) (w m : Letters)
        → IsReducedComplete (Below order) pairs rules → NormalForm rules w m
        → IsLeast (Below order) pairs w m }
    ensures irreducible { (order : WordOrder) (pairs rules : List Pair) (w : Letters)
        → IsReducedComplete (Below order) pairs rules
        → IsIrreducible (OneOf rules) w ↔ IsLeastWord (Below order) pairs w }
{}

/// Confluent rules stay so with more decreasing rules, where those relate only what is congruent anyway.
pub fn rules_that_cover_are_confluent()
    ensures confluent { (order : WordOrder) (live lines : List Pair)
        → AreDecreasing (Below order) live → IsConfluent live → AreDecreasing (Below order) lines
        → ((line : Pair) → OneOf lines line → Congruent (OneOf live) line.0 line.1)
        → ((rule : Pair) → OneOf live rule → OneOf lines rule)
        → IsConfluent lines }
    ensures same { (live lines : List Pair)
        → ((line : Pair) → OneOf lines line → Congruent (OneOf live) line.0 line.1)
        → ((rule : Pair) → OneOf live rule → OneOf lines rule)
        → SameCongruence live lines }
{}
