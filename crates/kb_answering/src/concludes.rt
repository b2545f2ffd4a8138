//! What a command concludes with.

ghost use Rattle.std.specs.Prelude.{ℕ, List};
ghost use Rattle.kb_word.specs.Presentations.{PresentationParts};
ghost use Rattle.kb_task.specs.Stores.{Text};
ghost use Rattle.kb_task.specs.declared.status.Limit.{Limit};

/// A command that stores what belongs to a presentation and answers word lines, or stores what shows a limit.
pub trait Concludes {
    /// These are the files that belong to the presentation.
    ghost own: { Self → PresentationParts → List Text → Type 0 };

    /// These files show that the limit was reached, and the line says so.
    ghost shows: { Self → PresentationParts → Limit → List Text → List ℕ → Type 0 };

    /// The command may store a file of this name.
    ghost may_store: { Self → List ℕ → Type 0 };

    /// How many word lines the command takes before it answers them together: one, if it says nothing else.
    ghost batch: { Self → ℕ } = { λ _. 1 };
}
