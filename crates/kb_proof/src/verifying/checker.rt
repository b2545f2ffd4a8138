//! The check of one line after another.

ghost use Rattle.std.specs.Prelude.{◌≡◌, ◌↔◌, [], ◌∷◌, ◌++◌, List, IfOk, OnOk, IsTrue};
ghost use Rattle.kb_word.specs.WordOrders.{Below};
ghost use Rattle.kb_word.specs.declared.presentation.Presentation.{Presentation as SomePresentation};
ghost use Rattle.kb_machine.specs.declared.line.Line.{Line as SomeLine};
ghost use Rattle.kb_proof.specs.Checking.{FaultSays, Knows, WaitingSays};
ghost use Rattle.kb_proof.specs.Printable.{IsShortening};

use crate::verified::Why;
use crate::verifying::derivations::derivations_fault;
use crate::verifying::earlier::EarlierRules;
use crate::verifying::marks::Marks;
use crate::verifying::origins::pair_of;
use kb_machine::{Line, Origin};
use kb_word::{Memory, Order, Presentation, Word};
use std::alloc::Global;

/// What the check keeps of the lines before.
#[derive(Drop)]
pub(crate) struct Checker {
    relations: Vec<(Word, Word)>,
    rules: EarlierRules,
    marks: Marks,
}

impl Checker {
    /// A check that has seen no line yet.
    pub(crate) fn new(alloc: Global, presentation: &Presentation) -> Result<Checker, Memory>
        ensures { IfOk result (Knows presentation.now []) }
    {
        let relations = presentation.relations(alloc)?;
        let order = presentation.order.copy(alloc)?;
        let rules = EarlierRules::new(alloc, order)?;
        Ok(Checker {
            relations,
            rules,
            marks: Marks::new(alloc),
        })
    }

    /// The first fault of a line that stands behind these lines.
    pub(crate) fn fault_of(
        &mut self,
        alloc: Global,
        presentation: &Presentation,
        earlier: &[Line],
        line: &Line,
    ) -> Result<Option<Why>, Memory>
        requires { Knows presentation.now earlier.now self.old }
        ensures says { IfOk result (FaultSays presentation.now earlier.now line.now) }
        ensures knows { OnOk result (Knows presentation.now earlier.now self.new) }
    {
        let relations = self.relations.as_slice();
        let Some(pair) = pair_of(alloc, relations, earlier, &self.marks, line.origin)? else {
            return Ok(Some(Why::Origin));
        };
        if let Some(why) = derivations_fault(alloc, earlier, pair, line)? {
            return Ok(Some(why));
        }
        if !presentation.order.less(&line.right, &line.left) {
            return Ok(Some(Why::Order));
        }
        if is_shortening(line.origin) {
            return Ok(None);
        }
        if !self.rules.leave(&line.left)? {
            return Ok(Some(Why::Earlier));
        }
        Ok(None)
    }

    /// The first fault of the line of a pair that waits behind these lines. One that was shortened has the left side of
    /// an earlier line.
    pub(crate) fn waiting_fault_of(
        &mut self,
        alloc: Global,
        presentation: &Presentation,
        earlier: &[Line],
        line: &Line,
    ) -> Result<Option<Why>, Memory>
        requires { Knows presentation.now earlier.now self.old }
        ensures { IfOk result (WaitingSays presentation.now earlier.now line.now) }
    {
        if let Some(why) = self.fault_of(alloc, presentation, earlier, line)? {
            return Ok(Some(why));
        }
        match line.origin {
            Origin::Shortened(_) => Ok(Some(Why::Earlier)),
            _ => {
                if !self.rules.leave(&line.right)? {
                    return Ok(Some(Why::Earlier));
                }
                Ok(None)
            }
        }
    }

    /// Keeps what the next lines have to be checked for, of a line that decreases.
    pub(crate) fn add(&mut self, alloc: Global, line: &Line) -> Result<(), Memory>
        requires { Below self.old.rules.order line.now.right line.now.left }
        ensures { OnOk result ((presentation : SomePresentation) (lines : List SomeLine)
            → Knows presentation lines self.old
            → Knows presentation (lines ++ line.now ∷ []) self.new) }
    {
        self.rules.push(alloc, line)?;
        self.marks.add(line.origin)
    }
}

/// Whether the origin is that of a line that was shortened.
fn is_shortening(origin: Origin) -> bool
    ensures { IsTrue result ↔ IsShortening origin }
{
    matches!(origin, Origin::Shortened(_))
}
