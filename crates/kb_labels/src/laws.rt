//! The law of labels. It does nothing when it runs.

ghost use Rattle.std.specs.Prelude.{◌≡◌, ℕ};
ghost use Rattle.kb_word.specs.Words.{Letters};
ghost use Rattle.kb_fsa.specs.Table.{Table};
ghost use Rattle.kb_diff.specs.Groups.{Group};
ghost use Rattle.kb_labels.specs.Labels.{IsLabel};

/// A state has one label at most.
pub fn labels_are_unique()
    ensures { (group : Group) (table : Table) (state : ℕ) (label other : Letters)
        → IsLabel group table state label → IsLabel group table state other → label ≡ other }
{}
