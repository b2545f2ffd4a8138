//! What the lines of a justified log decide of automata.

ghost use Rattle.std.specs.Prelude.{IfOk, List};
ghost use Rattle.kb_fsa.specs.Language.{Automaton};
ghost use Rattle.kb_proof.specs.declared.log.Log.{Log as SomeLog};
ghost use Rattle.kb_cmd_structures.specs.Logged.{AreReady, IsFoundByLog, LinesSay};

use crate::automata_check::AutomataCheck;
use crate::finding::{Finding, own, refuted, too_many};
use crate::loading::Loaded;
use crate::unresolved::unresolved;
use kb_axioms::{Axioms, check};
use kb_bylog::{
    index_of, lines_that_settle_generate_the_congruence, settles,
    the_lines_of_a_justified_log_follow,
};
use kb_draw::Crew;
use kb_io::Gate;
use kb_proof::Log;
use kb_word::{Memory, Presentation};
use std::alloc::Global;
use std::sync::Wait;
use std::thread::Threads;

/// Finds whether the automata are the group's own by the lines of its log, and makes what is written of that.
pub(crate) fn find_by_lines<G: Gate, T: Threads + Wait + Sync>(
    rt: &T,
    alloc: Global,
    gate: &G,
    task: &AutomataCheck,
    loaded: &Loaded,
    log: &Log,
) -> Result<Finding, Memory>
    requires ready { AreReady loaded.now.presentation loaded.now.acceptor
        loaded.now.multipliers.items log.now }
    ensures { IfOk result (IsFoundByLog task.now loaded.now.presentation log.now
        loaded.now.acceptor loaded.now.multipliers.items) }
{
    let axioms = check_by_lines(rt, alloc, gate, task, loaded, log)?;
    finding_by_lines(alloc, task, &loaded.presentation, axioms)
}

/// What the lines of the log answer of the automata.
fn check_by_lines<G: Gate, T: Threads + Wait + Sync>(
    rt: &T,
    alloc: Global,
    gate: &G,
    task: &AutomataCheck,
    loaded: &Loaded,
    log: &Log,
) -> Result<Axioms, Memory>
    requires { AreReady loaded.now.presentation loaded.now.acceptor loaded.now.multipliers.items
        log.now }
    ensures { IfOk result (LinesSay task.now loaded.now.presentation log.now
        loaded.now.acceptor loaded.now.multipliers.items) }
{
    the_lines_of_a_justified_log_follow();
    lines_that_settle_generate_the_congruence();
    let Loaded {
        presentation,
        acceptor,
        multipliers,
    } = loaded;
    let index = index_of(alloc, presentation, log)?;
    let crew = Crew::new(task.workers, gate);
    let settled = settles(rt, alloc, presentation, &index, &crew)?;
    check(
        rt,
        alloc,
        presentation,
        acceptor,
        multipliers,
        &index,
        settled,
        task.limits.states,
        &crew,
    )
}

/// What is written where this is answered of automata.
fn finding_by_lines(
    alloc: Global,
    task: &AutomataCheck,
    presentation: &Presentation,
    axioms: Axioms,
) -> Result<Finding, Memory>
    ensures { IfOk result (λ finding. (log : SomeLog) (acceptor : Automaton)
        (multipliers : List Automaton)
        → LinesSay task.now presentation.now log acceptor multipliers axioms
        → IsFoundByLog task.now presentation.now log acceptor multipliers finding) }
{
    let names = &presentation.names;
    match axioms {
        Axioms::Yes => own(alloc),
        Axioms::No(cert) => refuted(alloc, names, cert),
        Axioms::TooManyStates { which } => too_many(alloc, names, which),
        Axioms::Unresolved {
            x,
            label,
            other,
            ..
        } => unresolved(alloc, names, &task.file, x, &label, &other),
    }
}
