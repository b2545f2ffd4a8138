//! Which relations and lines the lines before used up.

ghost use Rattle.std.specs.Prelude.{◌≡◌, ◌≢◌, ◌≤◌, ℕ, List, [], ◌∷◌, ◌++◌, false, get_or, length, IsTrue, IsFalse, OnOk};
ghost use Rattle.kb_word.specs.Words.{Pair};
ghost use Rattle.kb_machine.specs.declared.line.Line.{Line as SomeLine};
ghost use Rattle.kb_proof.specs.Checking.{AreMarks, IsFresh};
ghost use Rattle.kb_proof.specs.Verifying.{HasOriginFault};

use kb_machine::Origin;
use kb_word::Memory;
use std::alloc::Global;

/// A mark for each relation and each line that was used up, by its number.
#[derive(Debug, Drop)]
pub(crate) struct Marks {
    /// For the relations of which lines were made.
    relations: Vec<bool>,
    /// For the lines that were replaced.
    lines: Vec<bool>,
}

impl Marks {
    /// No marks.
    pub(crate) fn new(alloc: Global) -> Marks
        ensures { AreMarks [] result }
    {
        Marks {
            relations: Vec::new(alloc),
            lines: Vec::new(alloc),
        }
    }

    /// Whether what a line with this origin uses up is marked.
    pub(crate) fn have(&self, origin: Origin) -> bool
        ensures yes { (relations : List Pair) (lines : List SomeLine) → AreMarks lines self.now
            → IsTrue result → HasOriginFault relations lines origin }
        ensures no { (lines : List SomeLine) → AreMarks lines self.now → IsFalse result
            → IsFresh lines origin }
    {
        match origin {
            Origin::Relation(number) => is_marked(self.relations.as_slice(), number),
            Origin::Overlap { .. } => false,
            Origin::Killed(number) => is_marked(self.lines.as_slice(), number),
            Origin::Shortened(number) => is_marked(self.lines.as_slice(), number),
        }
    }

    /// Marks what a line with this origin uses up.
    pub(crate) fn add(&mut self, origin: Origin) -> Result<(), Memory>
        ensures { OnOk result ((lines : List SomeLine) (line : SomeLine) → line.origin ≡ origin
            → AreMarks lines self.old → AreMarks (lines ++ line ∷ []) self.new) }
    {
        match origin {
            Origin::Relation(number) => mark(&mut self.relations, number),
            Origin::Overlap { .. } => Ok(()),
            Origin::Killed(number) => mark(&mut self.lines, number),
            Origin::Shortened(number) => mark(&mut self.lines, number),
        }
    }
}

/// Whether the number has a mark.
fn is_marked(marks: &[bool], number: u32) -> bool
    ensures { result ≡ get_or marks.now number false }
{
    marks.get(number as usize).copied().unwrap_or(false)
}

/// Gives the number a mark.
fn mark(marks: &mut Vec<bool>, number: u32) -> Result<(), Memory>
    ensures here { OnOk result (IsTrue (get_or marks.new.items number false)) }
    ensures others { OnOk result ((k : ℕ) → k ≢ number
        → get_or marks.new.items k false ≡ get_or marks.old.items k false) }
{
    let place = number as usize;
    reach(marks, place + 1)?;
    marks[place] = true;
    Ok(())
}

/// Makes the list as long as this, if it is shorter, by places without a mark.
fn reach(marks: &mut Vec<bool>, len: usize) -> Result<(), Memory>
    ensures reached { OnOk result (len ≤ length marks.new.items) }
    ensures same { OnOk result ((k : ℕ)
        → get_or marks.new.items k false ≡ get_or marks.old.items k false) }
{
    if marks.len() >= len {
        return Ok(());
    }
    marks.resize(len, false)?;
    Ok(())
}
