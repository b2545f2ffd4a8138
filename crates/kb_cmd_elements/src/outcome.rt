//! What a completion came to: what is printed of it, or what shows a limit.

ghost use Rattle.std.specs.Prelude.{IfOk};
ghost use Rattle.kb_word.specs.Presentations.{parts_of};
ghost use Rattle.kb_system.specs.Ended.{EndsAs};
ghost use Rattle.kb_cmd_elements.specs.Outcomes.{ComesTo};

use crate::ball::Ball;
use kb_evidence::{Evidence, halted, too_large};
use kb_fsa::Fsa;
use kb_system::Ending;
use kb_word::{Memory, Presentation};
use std::alloc::Global;

/// What a completion came to.
#[derive(Drop)]
pub(crate) enum Outcome {
    /// The presentation, and the word acceptor of what it presents.
    Completed {
        presentation: Presentation,
        acceptor: Fsa,
    },
    /// What shows that a limit was reached.
    Limit(Evidence),
}

/// What a completion came to that ended so.
pub(crate) fn outcome_of(
    alloc: Global,
    task: &Ball,
    presentation: Presentation,
    ending: Ending,
) -> Result<Outcome, Memory>
    requires { EndsAs task.now.limits (parts_of presentation) ending }
    ensures { IfOk result (ComesTo task.now (parts_of presentation)) }
{
    let file = &task.file;
    match ending {
        Ending::Completed { rules, acceptor } => {
            let _ = rules;
            Ok(Outcome::Completed {
                presentation,
                acceptor,
            })
        }
        Ending::Halted(shown) => Ok(Outcome::Limit(halted(alloc, &presentation, file, shown)?)),
        Ending::TooLarge { lines, rules } => Ok(Outcome::Limit(too_large(
            alloc,
            &presentation,
            file,
            lines,
            &rules,
        )?)),
    }
}
