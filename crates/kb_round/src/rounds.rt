//! A round.

ghost use Rattle.std.specs.Prelude.{◌≡◌, IfOk};
ghost use Rattle.kb_word.specs.Relations.{relations_of};
ghost use Rattle.kb_word.specs.declared.word_order.WordOrder.TheVariants.{ShortLex};
ghost use Rattle.kb_diff.specs.Groups.{EachInverts, group_of};
ghost use Rattle.kb_labels.specs.Labels.{AreEqualSides};
ghost use Rattle.kb_round.specs.Figures.{AreFiguresOf, IsChecked, figures_of};
ghost use Rattle.kb_round.specs.Rounds.{AreMadeOf, RoundSays};

use crate::answers::{Axiom, Construction, Figures, Round, Structure};
use crate::making::{canonical_acceptor, canonical_multipliers, largest};
use crate::showing::{axiom_of, equality_of};
use kb_axioms::{Automata, check_automata};
use kb_diff::Differences;
use kb_draw::Crew;
use kb_io::Gate;
use kb_rules::Reducer;
use kb_word::{Memory, Presentation};
use std::alloc::Global;
use std::sync::Wait;
use std::thread::Threads;

/// Makes the automata of word differences, and checks whether they are the group's own automatic structure. Several
/// workers are a thread each: they make the multipliers canonical, and check the axioms. How large the automata were is
/// told beside the answer.
pub fn round<R: Reducer, G: Gate, T: Threads + Wait + Sync>(
    rt: &T,
    alloc: Global,
    presentation: &Presentation,
    differences: &Differences<R>,
    limit: u32,
    crew: &Crew<'_, G>,
) -> Result<(Round, Figures), Memory>
    requires group { EachInverts presentation.now.n presentation.now.inv }
    requires shortlex { presentation.now.order ≡ ShortLex }
    requires same { differences.now.group
        ≡ group_of presentation.now differences.now.group.rules }
    requires sides { AreEqualSides (relations_of presentation.now.inv presentation.now.eqs)
        differences.now.group.rules }
    ensures says { IfOk result (λ answer. RoundSays presentation.now differences.now.group.rules
        differences.now.words limit answer.0) }
    ensures figures { IfOk result (λ answer. AreFiguresOf presentation.now
        differences.now.group.rules differences.now.words limit answer.0 answer.1) }
{
    let count = differences.len();
    let machine = differences.machine(alloc)?;
    let Some(acceptor) = canonical_acceptor(alloc, differences, &machine, limit)? else {
        let figures = figures_of(count, 0, 0, None);
        return Ok((Round::TooManyStates(Construction::Acceptor), figures));
    };
    let states = acceptor.len();
    let Some(multipliers) = canonical_multipliers(
        rt,
        alloc,
        differences,
        &machine,
        &acceptor,
        limit,
        crew,
    )?
    else {
        let figures = figures_of(count, states, 0, None);
        return Ok((Round::TooManyStates(Construction::Multipliers), figures));
    };
    let most = largest(&multipliers);
    // The check has more need of the memory.
    drop(machine);
    let structure = Structure {
        acceptor,
        multipliers,
    };
    let (round, broken) = checked(rt, alloc, presentation, differences, structure, limit, crew)?;
    Ok((round, figures_of(count, states, most, broken)))
}

/// The figures of so many word differences, and of automata that have so many states.
fn figures_of(differences: usize, acceptor: u32, multiplier: u32, broken: Option<Axiom>) -> Figures
    ensures { result ≡ figures_of differences acceptor multiplier broken }
{
    Figures {
        differences,
        acceptor,
        multiplier,
        broken,
    }
}

/// What the check finds of the automata of word differences, and which axiom they break.
fn checked<R: Reducer, G: Gate, T: Threads + Wait + Sync>(
    rt: &T,
    alloc: Global,
    presentation: &Presentation,
    differences: &Differences<R>,
    structure: Structure,
    limit: u32,
    crew: &Crew<'_, G>,
) -> Result<(Round, Option<Axiom>), Memory>
    requires group { EachInverts presentation.now.n presentation.now.inv }
    requires shortlex { presentation.now.order ≡ ShortLex }
    requires sides { AreEqualSides (relations_of presentation.now.inv presentation.now.eqs)
        differences.now.group.rules }
    requires made { AreMadeOf (group_of presentation.now differences.now.group.rules)
        differences.now.words structure.acceptor structure.multipliers.items }
    ensures says { IfOk result (λ answer. RoundSays presentation.now differences.now.group.rules
        differences.now.words limit answer.0) }
    ensures broken { IfOk result (λ answer. IsChecked presentation.now
        differences.now.group.rules limit structure.acceptor structure.multipliers.items answer.0
        answer.1) }
{
    // A use of the acceptor brings its invariant.
    let _alphabet = structure.acceptor.alphabet();
    let relations = presentation.relations(alloc)?;
    match check_automata(
        rt,
        alloc,
        &structure.acceptor,
        &structure.multipliers,
        &relations,
        limit,
        crew,
    )? {
        Automata::Pass => Ok((Round::Own(structure), None)),
        Automata::No(cert) => {
            let broken = axiom_of(&cert);
            let equality = equality_of(alloc, differences.reducer(), cert)?;
            Ok((Round::Refuted(equality), Some(broken)))
        }
        Automata::TooManyStates { which } => {
            Ok((Round::TooManyStates(Construction::Check(which)), None))
        }
    }
}
