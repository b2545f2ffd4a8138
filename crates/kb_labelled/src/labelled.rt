//! Automata with labels.

ghost use Rattle.std.specs.Prelude.{◌≡◌, ◌↔◌, ◌<◌, ◌&&◌, ℕ, Some, false, nat_eq, List, length, get_or, IfOk};
ghost use Rattle.kb_fsa.specs.Language.{AcceptsText};
ghost use Rattle.kb_labelled.specs.Labels.{label_after};

use kb_fsa::{Fsa, Table};
use kb_word::Memory;
use std::alloc::Global;
use std::marker::Model;

/// An automaton with a label for each state. Those of states that don't accept count for nothing.
#[derive(Debug, Drop)]
pub struct Labelled {
    fsa: Fsa,
    labels: Vec<u32>,
}

impl Model for Labelled {
    ghost use Rattle.std.specs.Prelude.{◌≡◌, length};
    ghost use Rattle.kb_labelled.specs.Labels.{LabelledAutomaton};

    ghost Value = { LabelledAutomaton };

    ghost view = { λ it. record { automaton = it.fsa; labels = it.labels.items } };

    ghost invariant = { λ it. length it.labels.items ≡ length it.fsa.table.rows };
}

impl Labelled {
    /// The automaton with these labels of states 1, 2, and so on.
    pub fn new(fsa: Fsa, labels: Vec<u32>) -> Labelled
        requires { length labels.items ≡ length fsa.table.rows }
        ensures { result ≡ record { automaton = fsa; labels = labels.items } }
    {
        Labelled { fsa, labels }
    }

    /// The automaton of the texts that have a label.
    pub fn automaton(&self) -> &Fsa
        ensures { result.now ≡ self.now.automaton }
    {
        &self.fsa
    }

    /// The labels of states 1, 2, and so on.
    pub fn labels(&self) -> &[u32]
        ensures labels { result.now ≡ self.now.labels }
        ensures one_each { length self.now.labels ≡ length self.now.automaton.table.rows }
    {
        self.labels.as_slice()
    }

    /// An automaton of the texts that have the label.
    pub fn accepting(&self, alloc: Global, label: u32) -> Result<Fsa, Memory>
        ensures alphabet { IfOk result (λ fsa. fsa.alphabet ≡ self.now.automaton.alphabet) }
        ensures language { IfOk result (λ fsa. (text : List ℕ)
            → AcceptsText fsa text ↔ (label_after self.now text ≡ Some label)) }
    {
        let table = self.fsa.table();
        let answers = answers_for(alloc, table.accepting(), self.labels.as_slice(), label)?;
        let rows = table.rows().copy(alloc)?;
        let own = Table::new(table.initial(), rows, answers);
        Ok(Fsa::new(self.fsa.alphabet(), own))
    }
}

/// For each state whether it accepts and has the label.
fn answers_for(
    alloc: Global,
    accepting: &[bool],
    labels: &[u32],
    label: u32,
) -> Result<Vec<bool>, Memory>
    requires { length labels.now ≡ length accepting.now }
    ensures one_each { IfOk result (λ answers. length answers.items ≡ length accepting.now) }
    ensures each { IfOk result (λ answers. (place : ℕ) → place < length accepting.now
        → get_or answers.items place false
        ≡ (get_or accepting.now place false && nat_eq (get_or labels.now place 0) label)) }
{
    let mut answers = Vec::with_capacity(alloc, accepting.len())?;
    for (place, accepts) in accepting.iter().enumerate() {
        answers.push(*accepts && labels[place] == label)?;
    }
    Ok(answers)
}
