//! The laws of overlaps. None of them does anything when it runs.

ghost use Rattle.std.specs.Prelude.{◌≡◌, ℕ, List};
ghost use Rattle.kb_word.specs.Words.{Pair};
ghost use Rattle.kb_word.specs.WordOrders.{Below};
ghost use Rattle.kb_word.specs.declared.word_order.WordOrder.{WordOrder};
ghost use Rattle.kb_word.specs.Congruence.{Replaces};
ghost use Rattle.kb_word.specs.Rewriting.{AreDecreasing};
ghost use Rattle.kb_word.specs.Overlap.{IsConfluent, Overlaps, critical_pair, superposition};
ghost use Rattle.kb_overlap.specs.Composite.{PrimesAreJoined};

/// Where two left sides overlap, both words of the critical pair come from the superposition, which has
/// both left sides, by one replacement each.
pub fn overlaps_are_superpositions()
    ensures by_the_first { (first second : Pair) (place : ℕ) → Overlaps first.0 second.0 place
        → Replaces (λ pair. pair ≡ first) (superposition first.0 second.0 place)
        (critical_pair first second place).0 }
    ensures by_the_second { (first second : Pair) (place : ℕ) → Overlaps first.0 second.0 place
        → Replaces (λ pair. pair ≡ second) (superposition first.0 second.0 place)
        (critical_pair first second place).1 }
{}

/// Where the critical pair of each prime overlap is joined, the rules are confluent: a composite overlap needs no look.
/// Winkler, Buchberger, A criterion for eliminating unnecessary reductions in the Knuth-Bendix algorithm (1983); Kapur,
/// Musser, Narendran, Only prime superpositions need be considered in the Knuth-Bendix completion procedure (1988).
pub fn composite_overlaps_need_no_look()
    ensures { (order : WordOrder) (rules : List Pair) → AreDecreasing (Below order) rules
        → PrimesAreJoined rules → IsConfluent rules }
{}
