//! The laws of automatic structures. They do nothing when they run.

ghost use Rattle.std.specs.Prelude.{◌≡◌};
ghost use Rattle.kb_fsa.specs.declared.alphabet.Alphabet.TheVariants.{Pair};
ghost use Rattle.kb_fsa.specs.Language.{IsAutomaton};
ghost use Rattle.kb_structure.specs.Structure.{Structure, AreOverGenerators, IsAutomaticStructure};
ghost use Rattle.kb_structure.specs.Axioms.{SatisfiesAxioms};
ghost use Rattle.kb_structure.specs.Certificates.{HasNoCertificate, HasImages, IsTrueToGroup};
ghost use Rattle.kb_structure.specs.Labels.{Labelling, IsGroup, LabelWordsAgree, LabelsAreDifferences, RelatesProducts, generators_of};

/// A structure that satisfies the axioms is the group's own: exactly the least words are accepted, and each multiplier
/// has exactly the pairs of least words that differ by its generator.
/// Epstein et al., Word Processing in Groups, chapter 5; Holt, Eick, O'Brien, Handbook of Computational Group Theory,
/// chapter 13.
pub fn axioms_make_automatic_structures()
    ensures { (structure : Structure) → AreOverGenerators structure → SatisfiesAxioms structure
        → IsAutomaticStructure structure }
{}

/// The group's own structure satisfies the axioms, where its images are given.
pub fn automatic_structures_satisfy_the_axioms()
    ensures { (structure : Structure) → AreOverGenerators structure → IsAutomaticStructure structure
        → HasImages structure → SatisfiesAxioms structure }
{}

/// There is no certificate against the group's own structure.
pub fn automatic_structures_have_no_certificate()
    ensures { (structure : Structure) → AreOverGenerators structure → IsAutomaticStructure structure
        → HasNoCertificate structure }
{}

/// A structure satisfies the axioms where there is no certificate against it, its images are given, and it is true to
/// the group.
pub fn axioms_hold_without_certificate()
    ensures { (structure : Structure) → HasNoCertificate structure → HasImages structure
        → IsTrueToGroup structure → SatisfiesAxioms structure }
{}

/// Where the label words of each state are the same element, the multiplier relates only words that differ by its
/// generator.
pub fn label_words_make_multipliers_true()
    ensures { (labelling : Labelling) → IsGroup labelling → LabelWordsAgree labelling
        → RelatesProducts labelling }
{}

/// Where the multiplier relates only words that differ by its generator, the label words of each state are the same
/// element, if labels are the differences of words that lead to the states.
pub fn label_words_of_true_multipliers_agree()
    ensures { (labelling : Labelling) → IsGroup labelling → IsAutomaton labelling.multiplier
        → labelling.multiplier.alphabet ≡ Pair (generators_of labelling)
        → LabelsAreDifferences labelling → RelatesProducts labelling
        → LabelWordsAgree labelling }
{}
