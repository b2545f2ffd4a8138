//! The rules that a word acceptor and multipliers have.

ghost use Rattle.std.specs.Prelude.{◌≡◌, ◌↔◌, ◌<◌, ◌≤◌, ◌+◌, ℕ, List, [], Err, IsOk, IfOk, All, Some};
ghost use Rattle.std.proofs.Common.{rules};
ghost use Rattle.kb_word.specs.Relations.{IsOver};
ghost use Rattle.kb_word.specs.Comparison.{same_from_pointwise};
ghost use Rattle.kb_fsa.specs.Language.{AcceptsPair, IsAutomaton, generators, symbols};
ghost use Rattle.kb_fsa.specs.Canonical.{IsCanonical};
ghost use Rattle.kb_fsa.specs.PairSymbols.{first_letter};
ghost use Rattle.kb_fsa.specs.declared.alphabet.Alphabet.TheVariants.{Pair};
ghost use Rattle.kb_explore.specs.declared.det.Det.TheVariants.{TooManyStates};
ghost use Rattle.kb_structure.specs.StructureOf.{FitTogether};
ghost use Rattle.kb_minkb.specs.LeftMachine as left_machine;
ghost use Rattle.kb_minkb.specs.LeftSides.{AcceptsEachState};
ghost use Rattle.kb_minkb.specs.Marks.{AreAllMarked};
ghost use Rattle.kb_minkb.specs.Rules.{CountedMinkb, IsRule, states_after};
ghost use Rattle.kb_minkb.specs.RuleMachine as rule_machine;

use crate::guesses::guessed_step;
use crate::left_sides::next_place;
use crate::marks::{is_marked, moving_symbols};
use crate::pair_place::PairPlace;
use crate::place::LeftPlace;
use crate::state_list::StateList;
use kb_explore::{Det, Machine, explore};
use kb_fsa::{Alphabet, Fsa, PairSymbols};
use kb_fsamin::canonical;
use kb_word::Memory;
use std::alloc::Global;

/// The canonical automaton of the rules: of the pairs of a left side with the word to which the multipliers lead from
/// it, if that isn't longer.
pub fn minkb(alloc: Global, acceptor: &Fsa, multipliers: &[Fsa], limit: u32) -> Result<Fsa, Det>
    requires fit { FitTogether acceptor.now multipliers.now }
    ensures language { AcceptsEachState acceptor.now → IfOk result (λ minkb. (u v : List ℕ)
        → IsOver (generators acceptor.now.alphabet) u → IsOver (generators acceptor.now.alphabet) v
        → AcceptsPair minkb u v ↔ IsRule acceptor.now multipliers.now u v) }
    ensures canonical { IfOk result (λ minkb. IsCanonical minkb.table) }
    ensures alphabet { IfOk result (λ minkb.
        minkb.alphabet ≡ Pair (generators acceptor.now.alphabet)) }
    ensures few { IsOk result → ¬ CountedMinkb acceptor.now multipliers.now limit }
    ensures many { (most : ℕ) → result ≡ Err (TooManyStates most)
        → (most ≡ limit) × CountedMinkb acceptor.now multipliers.now limit }
{
    let alphabet = Alphabet::Pair(acceptor.alphabet().generators());
    let initial = initial_states(alloc, multipliers)?;
    let machine = Rules {
        acceptor,
        multipliers,
        initial,
    };
    let exploration = explore(alloc, &machine, limit)?;
    let rules = Fsa::new(alphabet, exploration.table);
    Ok(canonical(alloc, &rules)?)
}

/// The machine that leads the text of each pair to its place; rules are accepted.
#[derive(Drop)]
struct Rules<'a> {
    /// The word acceptor.
    acceptor: &'a Fsa,
    /// The multipliers.
    multipliers: &'a [Fsa],
    /// Their initial states.
    initial: StateList,
    ghost start: { initial ≡ states_after multipliers.now [] },
}

impl Machine for Rules<'_> {
    type State = PairPlace;

    ghost machine = { λ it. rule_machine.rules it.acceptor.now it.multipliers.now };

    ghost symbols = { λ it. symbols (Pair (generators it.acceptor.now.alphabet)) };

    ghost same_state = { Prim.search (rules, same_from_pointwise) };

    fn start(&self, alloc: Global) -> Result<Option<PairPlace>, Memory> {
        Ok(place_with(LeftPlace::Start, self.initial.copy(alloc)?))
    }

    fn moves(&self, alloc: Global, place: &PairPlace) -> Result<Vec<(u32, PairPlace)>, Memory> {
        let symbols = PairSymbols {
            n: self.acceptor.alphabet().generators(),
        };
        let states = place.states.as_slice();
        let marks = moving_symbols(alloc, self.multipliers, states, symbols.count())?;
        let mut guesses = vec![in alloc; 0; states.len()]?;
        let mut moves = Vec::new(alloc);
        // Symbols with one first letter come one after another.
        let mut known = (0, next_place(self.acceptor, place.left, 0));
        for symbol in 1..symbols.count() + 1 {
            let letter = symbols.first(symbol);
            known = place_by_letter(self.acceptor, place.left, known, letter);
            let next = self.next(
                alloc,
                place,
                marks.as_slice(),
                &mut guesses,
                symbol,
                known.1,
            )?;
            if let Some(next) = next {
                moves.push((symbol, next))?;
            }
        }
        Ok(moves)
    }

    fn accepts(&self, place: &PairPlace) -> bool {
        matches!(place.left, LeftPlace::End)
    }
}

impl Rules<'_> {
    /// The place of a text with the symbol behind it, where the text has this place, these marks tell by which
    /// symbols its states have moves, and the first word has this place with its letter behind it.
    fn next(
        &self,
        alloc: Global,
        place: &PairPlace,
        marks: &[bool],
        guesses: &mut Vec<usize>,
        symbol: u32,
        left: Option<LeftPlace>,
    ) -> Result<Option<PairPlace>, Memory>
        requires marks { AreAllMarked self.now.multipliers.now place.now.states marks.now }
        requires positive { 0 < symbol }
        requires symbol { symbol ≤ symbols (Pair (generators self.now.acceptor.now.alphabet)) }
        requires left { left ≡ left_machine.next_place self.now.acceptor.now.table place.now.left
            (first_letter (generators self.now.acceptor.now.alphabet) symbol) }
        ensures { IfOk result (λ next. next
            ≡ (rule_machine.rules self.now.acceptor.now self.now.multipliers.now).follow
            place.now symbol) }
    {
        let symbols = PairSymbols {
            n: self.acceptor.alphabet().generators(),
        };
        if symbols.first(symbol) == symbols.padding() {
            return Ok(None);
        }
        let states = place.states.as_slice();
        place_by(
            alloc,
            symbols,
            self.multipliers,
            states,
            marks,
            guesses,
            symbol,
            left,
        )
    }
}

/// The letter, and the place of a word with it behind it, where the word has this place. It may be known.
fn place_by_letter(
    acceptor: &Fsa,
    place: LeftPlace,
    known: (u32, Option<LeftPlace>),
    letter: u32,
) -> (u32, Option<LeftPlace>)
    requires { known.1 ≡ left_machine.next_place acceptor.now.table place known.0 }
    ensures letter { result.0 ≡ letter }
    ensures place { result.1 ≡ left_machine.next_place acceptor.now.table place letter }
{
    if known.0 == letter {
        known
    } else {
        (letter, next_place(acceptor, place, letter))
    }
}

/// The place of a text with the symbol behind it, by the states after the text, and the place of the first word with
/// its letter behind it.
fn place_by(
    alloc: Global,
    symbols: PairSymbols,
    multipliers: &[Fsa],
    states: &[u32],
    marks: &[bool],
    guesses: &mut Vec<usize>,
    symbol: u32,
    left: Option<LeftPlace>,
) -> Result<Option<PairPlace>, Memory>
    requires { AreAllMarked multipliers.now states.now marks.now }
    ensures { IfOk result (λ next. next
        ≡ rule_machine.place_by symbols.n multipliers.now states.now symbol left) }
{
    match left {
        None => Ok(None),
        Some(LeftPlace::End) => {
            let makes = makes_rule(symbols, multipliers, states, symbol);
            Ok(rule_place(alloc, makes))
        }
        Some(left) => place_after(alloc, multipliers, states, marks, guesses, symbol, left),
    }
}

/// The place with the states after the symbol, unless there is none. No states are looked for after a symbol without
/// a mark.
fn place_after(
    alloc: Global,
    multipliers: &[Fsa],
    states: &[u32],
    marks: &[bool],
    guesses: &mut Vec<usize>,
    symbol: u32,
    left: LeftPlace,
) -> Result<Option<PairPlace>, Memory>
    requires { AreAllMarked multipliers.now states.now marks.now }
    ensures { IfOk result (λ next. next ≡ rule_machine.place_with left
        (rule_machine.next_states multipliers.now states.now symbol)) }
{
    if !is_marked(marks, symbol) {
        return Ok(None);
    }
    let states = next_states(alloc, multipliers, states, guesses, symbol)?;
    Ok(place_with(left, states))
}

/// The place of a rule, if the pair is one.
fn rule_place(alloc: Global, is_rule: bool) -> Option<PairPlace>
    ensures { result ≡ rule_machine.rule_place is_rule }
{
    if is_rule {
        let states = StateList::from_vec(Vec::new(alloc));
        Some(PairPlace {
            left: LeftPlace::End,
            states,
        })
    } else {
        None
    }
}

/// The place of a text after which there are these states, unless there is none.
fn place_with(left: LeftPlace, states: StateList) -> Option<PairPlace>
    ensures { result ≡ rule_machine.place_with left states }
{
    if states.has_state() {
        Some(PairPlace { left, states })
    } else {
        None
    }
}

/// Whether the symbol makes the text that of a rule, where its first letter makes a left side.
fn makes_rule(symbols: PairSymbols, multipliers: &[Fsa], states: &[u32], symbol: u32) -> bool
    ensures { result ≡ rule_machine.makes_rule symbols.n multipliers.now states.now symbol }
{
    let place = symbols.first(symbol) as usize - 1;
    let state = states.get(place).copied().unwrap_or(0);
    match multipliers.get(place) {
        Some(multiplier) => accepts_with(symbols, multiplier, state, symbols.second(symbol)),
        None => false,
    }
}

/// Whether the multiplier accepts after the state, and the letter of the second word alone; for the padding, at once.
fn accepts_with(symbols: PairSymbols, multiplier: &Fsa, state: u32, second: u32) -> bool
    requires { second ≤ symbols.n + 1 }
    ensures { result ≡ rule_machine.accepts_with symbols.n (Some multiplier.now) state second }
{
    if second == symbols.padding() {
        return multiplier.is_accepting(state);
    }
    let symbol = symbols.symbol(symbols.padding(), second);
    multiplier.is_accepting(multiplier.step(state, symbol))
}

/// The multipliers' states after the symbol. Guesses of the places of their moves by it are kept for the symbols to
/// come.
fn next_states(
    alloc: Global,
    multipliers: &[Fsa],
    states: &[u32],
    guesses: &mut Vec<usize>,
    symbol: u32,
) -> Result<StateList, Memory>
    ensures { IfOk result (λ next. next
        ≡ rule_machine.next_states multipliers.now states.now symbol) }
{
    let mut next = Vec::with_capacity(alloc, states.len())?;
    for (multiplier, state) in multipliers.iter().zip(states) {
        let place = next.len();
        next.push(guessed_step(multiplier, *state, symbol, guesses, place))?;
    }
    Ok(StateList::from_vec(next))
}

/// The multipliers' initial states.
fn initial_states(alloc: Global, multipliers: &[Fsa]) -> Result<StateList, Memory>
    ensures states { IfOk result (λ states. states ≡ states_after multipliers.now []) }
    ensures automata { IfOk result (λ states. All IsAutomaton multipliers.now) }
{
    let mut states = Vec::with_capacity(alloc, multipliers.len())?;
    for multiplier in multipliers {
        prove!(multiplier.table().initial() == multiplier.initial());
        states.push(multiplier.initial())?;
    }
    Ok(StateList::from_vec(states))
}
