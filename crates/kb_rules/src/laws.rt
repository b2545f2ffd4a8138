//! The laws of rewriting that callers cite. None of them does anything when it runs.

ghost use Rattle.std.specs.Prelude.{◌≡◌, ◌⊎◌, List};
ghost use Rattle.kb_word.specs.Words.{Letters, Pair, OneOf};
ghost use Rattle.kb_word.specs.WordOrders.{Below};
ghost use Rattle.kb_word.specs.declared.word_order.WordOrder.{WordOrder};
ghost use Rattle.kb_word.specs.Congruence.{Congruent};
ghost use Rattle.kb_word.specs.Rewriting.{AreDecreasing, IsIrreducible, NormalForm, ReducesTo};
ghost use Rattle.kb_rules.specs.declared.trace.Step.{Step};
ghost use Rattle.kb_rules.specs.Steps.{IsFirstStep, IsStep, Leads};

/// A word has one normal form at most, whatever the rules are.
pub fn normal_forms_are_unique()
    ensures { (rules : List Pair) (w m n : Letters)
        → NormalForm rules w m → NormalForm rules w n → m ≡ n }
{}

/// An irreducible word is its own normal form, and the only one.
pub fn irreducible_words_are_normal()
    ensures own { (rules : List Pair) (w : Letters) → IsIrreducible (OneOf rules) w
        → NormalForm rules w w }
    ensures only { (rules : List Pair) (w m : Letters)
        → IsIrreducible (OneOf rules) w → NormalForm rules w m → m ≡ w }
{}

/// Every word has a normal form by decreasing rules.
pub fn normal_forms_exist()
    ensures { (order : WordOrder) (rules : List Pair) (w : Letters)
        → AreDecreasing (Below order) rules → (m : Letters) × NormalForm rules w m }
{}

/// A normal form is a reduct of the word, and congruent to it.
pub fn a_normal_form_is_a_reduct()
    ensures reduct { (rules : List Pair) (w m : Letters) → NormalForm rules w m → ReducesTo (OneOf rules) w m }
    ensures congruent { (rules : List Pair) (w m : Letters) → NormalForm rules w m → Congruent (OneOf rules) w m }
{}

/// Reduction keeps the congruence, and by decreasing rules a reduct is the same word or a lesser one.
pub fn reducts_are_congruent_and_not_greater()
    ensures congruent { (rules : List Pair) (u v : Letters)
        → ReducesTo (OneOf rules) u v → Congruent (OneOf rules) u v }
    ensures not_greater { (order : WordOrder) (rules : List Pair) (u v : Letters)
        → AreDecreasing (Below order) rules → ReducesTo (OneOf rules) u v
        → (v ≡ u) ⊎ Below order v u }
{}

/// First rewrites replace left sides by right sides, at the places that their steps name.
pub fn first_steps_are_steps()
    ensures { (rules : List Pair) (u v : Letters) (steps : List Step)
        → Leads (IsFirstStep rules) u steps v → Leads (IsStep rules) u steps v }
{}
