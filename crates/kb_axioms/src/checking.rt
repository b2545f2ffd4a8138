//! The whole check.

ghost use Rattle.std.specs.Prelude.{◌≡◌, ℕ, Bool, List, Ok, IsTrue, IfOk};
ghost use Rattle.kb_word.specs.Words.{Pair as Sides};
ghost use Rattle.kb_word.specs.Relations.{relations_of};
ghost use Rattle.kb_word.specs.declared.presentation.Presentation.{Presentation};
ghost use Rattle.kb_word.specs.declared.word_order.WordOrder.TheVariants.{ShortLex};
ghost use Rattle.kb_fsa.specs.Language.{Automaton};
ghost use Rattle.kb_fsa.specs.declared.alphabet.Alphabet.TheVariants.{Plain};
ghost use Rattle.kb_diff.specs.Groups.{EachInverts};
ghost use Rattle.kb_structure.specs.Structure.{IsAutomaticStructure};
ghost use Rattle.kb_labels.specs.Labels.{AreEqualSides};
ghost use Rattle.kb_axioms.specs.Answered.{AxiomsSay, checked_in};
ghost use Rattle.kb_axioms.specs.Checked.{PassesRelations, own_structure};
ghost use Rattle.kb_axioms.specs.Truth.{AreConfluentRulesOf, AreMultipliers, TruthSays};
ghost use Rattle.kb_axioms.specs.declared.answers.Axioms.TheVariants.{Yes};
ghost use Rattle.kb_axioms.specs.declared.answers.Truth.TheVariants.{True};

use crate::answers::{Automata, Axioms, Truth};
use crate::automata::check_automata;
use crate::truth::check_truth;
use kb_draw::Crew;
use kb_fsa::Fsa;
use kb_io::Gate;
use kb_rules::Reducer;
use kb_structure::Cert;
use kb_word::{Memory, Presentation};
use std::alloc::Global;
use std::sync::Wait;
use std::thread::Threads;

/// Whether a word acceptor and multipliers are the automatic structure of the group that is presented, as far as
/// rules of the group show. Where `confluent` holds the rules settle it, unless a count is above the limit. Several
/// workers are a thread each.
pub fn check<R: Reducer, G: Gate, T: Threads + Wait + Sync>(
    rt: &T,
    alloc: Global,
    presentation: &Presentation,
    acceptor: &Fsa,
    multipliers: &[Fsa],
    reducer: &R,
    confluent: bool,
    limit: u32,
    crew: &Crew<'_, G>,
) -> Result<Axioms, Memory>
    requires group { EachInverts presentation.now.n presentation.now.inv }
    requires shortlex { presentation.now.order ≡ ShortLex }
    requires acceptor { acceptor.now.alphabet ≡ Plain presentation.now.n }
    requires multipliers { AreMultipliers presentation.now.n multipliers.now }
    requires confluent { IsTrue confluent → AreConfluentRulesOf presentation.now
        (R.rules reducer.now) }
    ensures says { IfOk result (AxiomsSay presentation.now (R.rules reducer.now) confluent
        acceptor.now multipliers.now limit) }
    ensures own { result ≡ Ok Yes
        → AreEqualSides (relations_of presentation.now.inv presentation.now.eqs)
        (R.rules reducer.now)
        → IsAutomaticStructure (own_structure
        (checked_in presentation.now acceptor.now multipliers.now limit)) }
{
    let relations = presentation.relations(alloc)?;
    match check_automata(rt, alloc, acceptor, multipliers, &relations, limit, crew)? {
        Automata::Pass => {
            let truth = check_truth(alloc, presentation, multipliers, reducer, confluent)?;
            Ok(answer_of(truth))
        }
        Automata::No(cert) => Ok(Axioms::No(cert)),
        Automata::TooManyStates { which } => Ok(Axioms::TooManyStates { which }),
    }
}

/// What is answered of automata that pass, by what rules show of the multipliers.
fn answer_of(truth: Truth) -> Axioms
    ensures says { (presentation : Presentation) (rules : List Sides) (confluent : Bool)
        (acceptor : Automaton) (multipliers : List Automaton) (limit : ℕ)
        → presentation.order ≡ ShortLex → acceptor.alphabet ≡ Plain presentation.n
        → PassesRelations (checked_in presentation acceptor multipliers limit)
        → TruthSays presentation rules confluent multipliers truth
        → AxiomsSay presentation rules confluent acceptor multipliers limit result }
    ensures yes { result ≡ Yes → truth ≡ True }
{
    match truth {
        Truth::True => Axioms::Yes,
        Truth::Different { x, u, v } => Axioms::No(Cert::N3 { x, u, v }),
        Truth::Unresolved {
            x,
            state,
            label,
            other,
        } => Axioms::Unresolved {
            x,
            state,
            label,
            other,
        },
    }
}
