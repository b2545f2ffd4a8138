//! Deciding whether automata are a group's own automatic structure.

ghost use Rattle.std.specs.Prelude.{◌≡◌, ℕ, List, IfOk};
ghost use Rattle.kb_word.specs.declared.presentation.Presentation.{Presentation as Presented};
ghost use Rattle.kb_word.specs.declared.word_order.WordOrder.TheVariants.{ShortLex};
ghost use Rattle.kb_fsa.specs.Language.{Automaton};
ghost use Rattle.kb_fsa.specs.declared.alphabet.Alphabet.TheVariants.{Plain};
ghost use Rattle.kb_diff.specs.Groups.{EachInverts};
ghost use Rattle.kb_axioms.specs.Answered.{checked_in};
ghost use Rattle.kb_axioms.specs.Checked.{AutomataSay, PassesRelations};
ghost use Rattle.kb_axioms.specs.Truth.{AreMultipliers};
ghost use Rattle.kb_system.specs.Evidence.{Limits as MostOf};
ghost use Rattle.kb_system.specs.Problems.{limits_of};
ghost use Rattle.kb_auto.specs.Deciding.{CheckedSays};
ghost use Rattle.kb_auto.specs.Rounds.{Decides};

use crate::answers::{Checked, Decision};
use crate::rounds::decide;
use kb_axioms::{Automata, automata_that_pass_are_the_groups_own, check_automata};
use kb_book::Limits;
use kb_draw::Crew;
use kb_fsa::Fsa;
use kb_io::Gate;
use kb_share::Watch;
use kb_structure::Cert;
use kb_word::{Memory, Presentation};
use std::alloc::Global;
use std::sync::Wait;
use std::thread::Threads;

/// Whether a word acceptor and multipliers are the automatic structure of the group that is presented. The automata are
/// checked by themselves; where they pass the presentation is completed, round after round, until its rules settle
/// whether the multipliers relate only words that differ by their generators.
pub fn gpaxioms<G: Gate, W: Watch, T: Threads + Wait + Sync>(
    rt: &T,
    alloc: Global,
    presentation: &Presentation,
    acceptor: &Fsa,
    multipliers: &[Fsa],
    limits: &Limits,
    crew: &Crew<'_, G>,
    watch: &mut W,
) -> Result<Checked, Memory>
    requires group { EachInverts presentation.now.n presentation.now.inv }
    requires shortlex { presentation.now.order ≡ ShortLex }
    requires acceptor { acceptor.now.alphabet ≡ Plain presentation.now.n }
    requires multipliers { AreMultipliers presentation.now.n multipliers.now }
    ensures { IfOk result (CheckedSays (limits_of limits.now) presentation.now acceptor.now
        multipliers.now) }
{
    let states = limits.states;
    match check_alone(rt, alloc, presentation, acceptor, multipliers, states, crew)? {
        Automata::No(cert) => Ok(Checked::No(cert)),
        Automata::TooManyStates { which } => Ok(Checked::TooManyStates { which }),
        Automata::Pass => {
            let decision = decide(rt, alloc, presentation, multipliers, limits, crew, watch)?;
            Ok(checked(decision))
        }
    }
}

/// What the automata show by themselves, whatever the rules of the group are.
fn check_alone<G: Gate, T: Threads + Wait + Sync>(
    rt: &T,
    alloc: Global,
    presentation: &Presentation,
    acceptor: &Fsa,
    multipliers: &[Fsa],
    limit: u32,
    crew: &Crew<'_, G>,
) -> Result<Automata, Memory>
    requires acceptor { acceptor.now.alphabet ≡ Plain presentation.now.n }
    requires multipliers { AreMultipliers presentation.now.n multipliers.now }
    ensures { IfOk result
        (AutomataSay (checked_in presentation.now acceptor.now multipliers.now limit)) }
{
    let relations = presentation.relations(alloc)?;
    check_automata(rt, alloc, acceptor, multipliers, &relations, limit, crew)
}

/// What is answered of automata that pass by themselves, where a completion decides the rest.
fn checked(decision: Decision) -> Checked
    ensures { (limits : MostOf) (presentation : Presented) (acceptor : Automaton)
        (multipliers : List Automaton)
        → presentation.order ≡ ShortLex → acceptor.alphabet ≡ Plain presentation.n
        → AreMultipliers presentation.n multipliers
        → PassesRelations (checked_in presentation acceptor multipliers limits.states)
        → Decides limits presentation multipliers decision
        → CheckedSays limits presentation acceptor multipliers result }
{
    automata_that_pass_are_the_groups_own();
    match decision {
        Decision::True => Checked::Yes,
        Decision::Different { x, u, v } => Checked::No(Cert::N3 { x, u, v }),
        Decision::Halted(halted) => Checked::Halted(halted),
    }
}
