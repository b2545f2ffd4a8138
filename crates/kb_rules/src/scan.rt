//! The reducer that tries the rules one after another.

ghost use Rattle.std.specs.Prelude.{◌≡◌, ◌<◌, ◌^◌, [], ◌∷◌, ◌++◌, IfOk, OnOk, OnErr, IfSome, IfNone, All};
ghost use Rattle.kb_word.specs.Words.{OneOf};
ghost use Rattle.kb_word.specs.Rewriting.{IsIrreducible, NormalForm};
ghost use Rattle.kb_rules.specs.Ending.{IsFirstEnding, NoneEnds};
ghost use Rattle.kb_rules.specs.Steps.{IsFirstStep, Leads};

use crate::reducer::Reducer;
use crate::rule::Rule;
use crate::rules::Rules;
use crate::trace::{Step, Trace};
use crate::unread::Unread;
use crate::workspace::Workspace;
use kb_word::{Letter, Memory, Word};
use std::alloc::Global;
use std::marker::Model;
use std::mem::swap;

/// A reducer that reads the word from left to right and, after each letter, tries the rules in list order.
#[derive(Debug, Drop)]
pub struct Scan {
    rules: Rules,
}

impl Model for Scan {
    ghost use Rattle.kb_rules.specs.OrderedRules.{OrderedRules};

    ghost Value = { OrderedRules };

    ghost view = { λ scan. scan.rules };
}

impl Reducer for Scan {
    ghost rules = { λ scan. scan.rules };

    ghost order = { λ scan. scan.order };

    fn of(alloc: Global, list: &Rules) -> Result<Scan, Memory> {
        let rules = list.copy(alloc)?;
        Ok(Scan { rules })
    }

    fn list(&self) -> &Rules {
        &self.rules
    }

    fn reduce(&self, w: &mut Word, workspace: &mut Workspace) -> Result<(), Memory> {
        reduce(&self.rules, w, workspace)
    }

    fn trace(&self, alloc: Global, w: &Word) -> Result<Trace, Memory> {
        trace(alloc, &self.rules, w)
    }

    fn push(&mut self, alloc: Global, rule: &Rule) -> Result<(), Memory> {
        let rule = rule.copy(alloc)?;
        self.rules.push(rule)
    }

    fn remove(&mut self, _alloc: Global, place: usize) -> Result<(), Memory> {
        self.rules.remove(place);
        Ok(())
    }

    fn replace(&mut self, alloc: Global, place: usize, rule: &Rule) -> Result<(), Memory> {
        let rule = rule.copy(alloc)?;
        let _gone = self.rules.replace(place, rule);
        Ok(())
    }

    fn copy(&self, alloc: Global) -> Result<Scan, Memory> {
        let rules = self.rules.copy(alloc)?;
        Ok(Scan { rules })
    }
}

/// Replaces the word by its normal form.
fn reduce(list: &Rules, w: &mut Word, workspace: &mut Workspace) -> Result<(), Memory>
    ensures ok { OnOk result (NormalForm list.now.rules w.old w.new) }
    ensures err { OnErr result (w.new ≡ w.old) }
{
    // A use of the list brings its invariant, that the rules decrease.
    let _rules = list.as_slice();
    workspace.start(w)?;
    while next_step(list, &mut workspace.front, &mut workspace.unread)?.is_some() {}
    swap(w, &mut workspace.front);
    Ok(())
}

/// The normal form, with the steps that lead to it.
fn trace(alloc: Global, list: &Rules, w: &Word) -> Result<Trace, Memory>
    ensures normal { IfOk result (λ trace. NormalForm list.now.rules w.now trace.word) }
    ensures steps { IfOk result (λ trace.
        Leads (IsFirstStep list.now.rules) w.now trace.steps.items trace.word) }
{
    // A use of the list brings its invariant, that the rules decrease.
    let _rules = list.as_slice();
    let mut front = Word::new(alloc);
    let mut unread = Unread::new(alloc);
    unread.start(w)?;
    let mut steps = Vec::new(alloc);
    while let Some(step) = next_step(list, &mut front, &mut unread)? {
        steps.push(step)?;
    }
    Ok(Trace { word: front, steps })
}

/// Reads on, up to the first left side, and replaces it: the right side is put back, to be read. None says that all
/// is read. What is read, the front, is irreducible.
fn next_step(list: &Rules, front: &mut Word, unread: &mut Unread) -> Result<Option<Step>, Memory>
    requires irreducible { IsIrreducible (OneOf list.now.rules) front.old }
    requires range { All (λ x. x < 2 ^ 16) (front.old ++ unread.old) }
    ensures irreducible { OnOk result (IsIrreducible (OneOf list.now.rules) front.new) }
    ensures some { IfOk result (λ found. IfSome found (λ step.
        IsFirstStep list.now.rules (front.old ++ unread.old) step (front.new ++ unread.new))) }
    ensures none { IfOk result (λ found. IfNone found (front.new ≡ front.old ++ unread.old)) }
    ensures range { OnOk result (All (λ x. x < 2 ^ 16) (front.new ++ unread.new)) }
{
    while let Some(letter) = unread.next() {
        if let Some(step) = read_letter(list, front, letter, unread)? {
            return Ok(Some(step));
        }
    }
    Ok(None)
}

/// Reads a letter: it joins the front, at whose end a left side is then replaced, if one stands there.
fn read_letter(
    list: &Rules,
    front: &mut Word,
    letter: Letter,
    unread: &mut Unread,
) -> Result<Option<Step>, Memory>
    requires irreducible { IsIrreducible (OneOf list.now.rules) front.old }
    requires range { All (λ x. x < 2 ^ 16) (front.old ++ letter ∷ unread.old) }
    ensures irreducible { OnOk result (IsIrreducible (OneOf list.now.rules) front.new) }
    ensures some { IfOk result (λ found. IfSome found (λ step.
        IsFirstStep list.now.rules (front.old ++ letter ∷ unread.old) step (front.new ++ unread.new))) }
    ensures read { IfOk result (λ found. IfNone found (front.new ≡ front.old ++ letter ∷ [])) }
    ensures unread { IfOk result (λ found. IfNone found (unread.new ≡ unread.old)) }
    ensures range { OnOk result (All (λ x. x < 2 ^ 16) (front.new ++ unread.new)) }
{
    front.push(letter)?;
    let Some((index, rule)) = first_ending(list, front) else {
        return Ok(None);
    };
    let place = front.len() - rule.left().len();
    front.truncate(place);
    unread.put_back(rule.right())?;
    Ok(Some(Step { place, rule: index }))
}

/// The first rule in list order whose left side ends the word, after its place in the list.
fn first_ending<'a>(list: &'a Rules, word: &Word) -> Option<(usize, &'a Rule)>
    ensures some { IfSome result
        (λ found. IsFirstEnding list.now.rules word.now found.0 found.1.now) }
    ensures none { IfNone result (NoneEnds list.now.rules word.now) }
{
    for (index, rule) in list.as_slice().iter().enumerate() {
        if word.ends_with(rule.left()) {
            return Some((index, rule));
        }
    }
    None
}
