//! Reading a word from left to right by the automaton.

ghost use Rattle.std.specs.Prelude.{◌≡◌, List, ◌+◌, ◌-◌, ◌<◌, ◌^◌, [], ◌∷◌, ◌++◌, IfOk, OnOk, OnErr, IfSome, IfNone, All, length, take};
ghost use Rattle.kb_word.specs.Words.{Pair, OneOf, EndsWith};
ghost use Rattle.kb_word.specs.Rewriting.{IsIrreducible, NormalForm};
ghost use Rattle.kb_rules.specs.Steps.{IsFirstStep, Leads};
ghost use Rattle.kb_trie.specs.States.{AreWords};
ghost use Rattle.kb_index.specs.Automata.{AreStatesAlong, IsAutomaton, ReadsBy, StandsFor};

use crate::automaton::Automaton;
use kb_rules::{Rule, Rules, Step, Trace, Workspace};
use kb_word::{Letter, Memory, Word};
use std::alloc::Global;
use std::mem::swap;

/// Replaces the word by its normal form.
pub fn reduce(
    list: &Rules,
    automaton: &Automaton,
    w: &mut Word,
    workspace: &mut Workspace,
) -> Result<(), Memory>
    requires { IsAutomaton list.now.rules automaton.now }
    ensures ok { OnOk result (NormalForm list.now.rules w.old w.new) }
    ensures err { OnErr result (w.new ≡ w.old) }
{
    // A use of the list brings its invariant, that the rules decrease, and so that of the automaton.
    let _rules = list.as_slice();
    let _states = automaton.states();
    start(workspace, w)?;
    while let Some(_) = next_step(list, automaton, workspace)? {}
    swap(w, &mut workspace.front);
    Ok(())
}

/// The normal form, with the steps that lead to it.
pub fn trace(alloc: Global, list: &Rules, automaton: &Automaton, w: &Word) -> Result<Trace, Memory>
    requires { IsAutomaton list.now.rules automaton.now }
    ensures normal { IfOk result (λ trace. NormalForm list.now.rules w.now trace.word) }
    ensures steps { IfOk result (λ trace.
        Leads (IsFirstStep list.now.rules) w.now trace.steps.items trace.word) }
{
    // A use of the list brings its invariant, that the rules decrease, and so that of the automaton.
    let _rules = list.as_slice();
    let _states = automaton.states();
    let mut workspace = Workspace::new(alloc);
    start(&mut workspace, w)?;
    let mut steps = Vec::new(alloc);
    while let Some(step) = next_step(list, automaton, &mut workspace)? {
        steps.push(step)?;
    }
    // What is kept of it, as in a line of a log, takes no more memory than its letters.
    let word = workspace.front.copy(alloc)?;
    Ok(Trace { word, steps })
}

/// Has a word to read, from state 0 on.
fn start(workspace: &mut Workspace, word: &Word) -> Result<(), Memory>
    ensures front { OnOk result (workspace.new.front ≡ []) }
    ensures states { OnOk result (workspace.new.states.items ≡ 0 ∷ []) }
    ensures unread { OnOk result (workspace.new.unread ≡ word.now) }
    ensures range { All (λ x. x < 2 ^ 16) word.now }
{
    workspace.start(word)?;
    workspace.states.push(0)?;
    Ok(())
}

/// Reads on to the first left side, and replaces it: the right side is put back, to be read. None says that
/// all is read. What is read is irreducible.
fn next_step(
    list: &Rules,
    automaton: &Automaton,
    workspace: &mut Workspace,
) -> Result<Option<Step>, Memory>
    requires automaton { ReadsBy list.now.rules automaton.now }
    requires states { AreStatesAlong automaton.now.words workspace.old.front
        workspace.old.states.items }
    requires irreducible { IsIrreducible (OneOf list.now.rules) workspace.old.front }
    requires range { All (λ x. x < 2 ^ 16) (workspace.old.front ++ workspace.old.unread) }
    ensures states { OnOk result
        (AreStatesAlong automaton.now.words workspace.new.front
        workspace.new.states.items) }
    ensures irreducible { OnOk result (IsIrreducible (OneOf list.now.rules) workspace.new.front) }
    ensures range { IfOk result (λ found.
        IfSome found (λ _. All (λ x. x < 2 ^ 16) (workspace.new.front ++ workspace.new.unread))) }
    ensures some { IfOk result (λ found. IfSome found (λ step. IsFirstStep list.now.rules
        (workspace.old.front ++ workspace.old.unread) step
        (workspace.new.front ++ workspace.new.unread))) }
    ensures none { IfOk result (λ found.
        IfNone found (workspace.new.front ≡ workspace.old.front ++ workspace.old.unread)) }
{
    while let Some(letter) = workspace.unread.next() {
        if let Some(step) = read_letter(list, automaton, workspace, letter)? {
            return Ok(Some(step));
        }
    }
    Ok(None)
}

/// Reads a letter: it joins the front, at whose end a left side is then replaced, if one stands there.
fn read_letter(
    list: &Rules,
    automaton: &Automaton,
    workspace: &mut Workspace,
    letter: Letter,
) -> Result<Option<Step>, Memory>
    requires automaton { ReadsBy list.now.rules automaton.now }
    requires states { AreStatesAlong automaton.now.words workspace.old.front
        workspace.old.states.items }
    requires irreducible { IsIrreducible (OneOf list.now.rules) workspace.old.front }
    requires range { All (λ x. x < 2 ^ 16) (workspace.old.front ++ letter ∷ workspace.old.unread) }
    ensures states { OnOk result
        (AreStatesAlong automaton.now.words workspace.new.front
        workspace.new.states.items) }
    ensures irreducible { OnOk result (IsIrreducible (OneOf list.now.rules) workspace.new.front) }
    ensures range { OnOk result (All (λ x. x < 2 ^ 16) (workspace.new.front ++ workspace.new.unread)) }
    ensures some { IfOk result (λ found. IfSome found (λ step. IsFirstStep list.now.rules
        (workspace.old.front ++ letter ∷ workspace.old.unread) step
        (workspace.new.front ++ workspace.new.unread))) }
    ensures read { IfOk result (λ found.
        IfNone found (workspace.new.front ≡ workspace.old.front ++ letter ∷ [])) }
    ensures unread { IfOk result (λ found. IfNone found (workspace.new.unread ≡ workspace.old.unread)) }
{
    let state = advance(
        automaton,
        &mut workspace.front,
        &mut workspace.states,
        letter,
    )?;
    let Some(place) = automaton.first_ending(state) else {
        return Ok(None);
    };
    let Some(rule) = list.get(place) else {
        unreachable!()
    };
    let kept = cut(&mut workspace.front, &mut workspace.states, rule);
    workspace.unread.put_back(rule.right())?;
    Ok(Some(Step {
        place: kept,
        rule: place,
    }))
}

/// The letter joins what is read, and the state after it joins the states. That state is returned.
fn advance(
    automaton: &Automaton,
    front: &mut Word,
    states: &mut Vec<u32>,
    letter: Letter,
) -> Result<u32, Memory>
    requires words { AreWords automaton.now.words }
    requires states { AreStatesAlong automaton.now.words front.old states.old.items }
    ensures word { OnOk result (front.new ≡ front.old ++ letter ∷ []) }
    ensures states { OnOk result (AreStatesAlong automaton.now.words front.new states.new.items) }
    ensures state { IfOk result (StandsFor automaton.now.words (front.old ++ letter ∷ [])) }
{
    let state = automaton.step(states[states.len() - 1], letter.number());
    front.push(letter)?;
    states.push(state)?;
    Ok(state)
}

/// Cuts the left side off what is read, which it ends, and its states off the states. How many letters are left is
/// returned.
fn cut(front: &mut Word, states: &mut Vec<u32>, rule: &Rule) -> usize
    requires ends { EndsWith front.old rule.now.0 }
    requires count { length states.old.items ≡ length front.old + 1 }
    ensures kept { result ≡ length front.old - length rule.now.0 }
    ensures word { front.new ≡ take result front.old }
    ensures states { states.new.items ≡ take (result + 1) states.old.items }
{
    let kept = front.len() - rule.left().len();
    front.truncate(kept);
    states.truncate(kept + 1);
    kept
}
