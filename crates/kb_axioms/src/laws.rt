//! What the check is good for. The laws do nothing when they run.

ghost use Rattle.kb_structure.specs.Structure.{AreOverGenerators, IsAutomaticStructure};
ghost use Rattle.kb_structure.specs.Certificates.{IsTrueToGroup};
ghost use Rattle.kb_structure.specs.declared.cert.Cert.{Cert};
ghost use Rattle.kb_axioms.specs.Answered.{IsFirstOfAll};
ghost use Rattle.kb_axioms.specs.Checked.{Checked, PassesRelations, own_structure};

/// Automata that pass, and whose multipliers relate only words that differ by their generators, are the group's own:
/// exactly the least words are accepted, and each multiplier has exactly the pairs of least words that differ by its
/// generator.
pub fn automata_that_pass_are_the_groups_own()
    ensures { (checked : Checked) → AreOverGenerators (own_structure checked)
        → PassesRelations checked → IsTrueToGroup (own_structure checked)
        → IsAutomaticStructure (own_structure checked) }
{}

/// Automata against which there is a certificate, of whatever kind, are not the group's own.
pub fn certificates_refute_automata()
    ensures { (checked : Checked) (cert : Cert) → AreOverGenerators (own_structure checked)
        → IsFirstOfAll checked cert → ¬ IsAutomaticStructure (own_structure checked) }
{}
