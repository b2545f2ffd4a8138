//! Nondeterministic automata.

ghost use Rattle.std.specs.Prelude.{◌≡◌, [], ◌∷◌, ◌++◌, IfOk, OnOk, OnErr};
ghost use Rattle.kb_fsadet.specs.Nondeterministic.{IsNondeterministic, automaton_of, moves_at, accepts_at};
ghost use Rattle.kb_fsadet.specs.SubsetConstruction.{moves_of_each};

use kb_fsa::Alphabet;
use kb_word::Memory;
use std::alloc::Global;
use std::marker::Model;

/// The moves of a state of a nondeterministic automaton: symbols with targets, in any order.
#[derive(Debug, Drop)]
pub struct Branches {
    moves: Vec<(u32, u32)>,
}

impl Model for Branches {
    ghost use Rattle.kb_fsa.specs.Table.{Moves};

    ghost Value = { Moves };

    ghost view = { λ branches. branches.moves.items };
}

impl Branches {
    /// No moves.
    pub fn new(alloc: Global) -> Branches
        ensures { result ≡ [] }
    {
        Branches {
            moves: Vec::new(alloc),
        }
    }

    /// Adds a move.
    pub fn push(&mut self, symbol: u32, target: u32) -> Result<(), Memory>
        ensures ok { OnOk result (self.new ≡ self.old ++ (symbol, target) ∷ []) }
        ensures err { OnErr result (self.new ≡ self.old) }
    {
        self.moves.push((symbol, target))?;
        Ok(())
    }

    /// The moves, in order.
    pub fn as_slice(&self) -> &[(u32, u32)]
        ensures { result.now ≡ self.now }
    {
        self.moves.as_slice()
    }
}

/// A nondeterministic automaton, whose states are numbered from 1. In one of pairs each text that leads to a
/// state is padded.
#[derive(Debug, Drop)]
pub struct Nfa {
    alphabet: Alphabet,
    initial: Vec<u32>,
    rows: Vec<Branches>,
    accepting: Vec<bool>,
}

impl Model for Nfa {
    ghost use Rattle.kb_fsadet.specs.Nondeterministic.{Nondeterministic, IsNondeterministic, automaton_of};

    ghost Value = { Nondeterministic };

    ghost view = { λ nfa.
        automaton_of nfa.alphabet nfa.initial.items nfa.rows.items nfa.accepting.items };

    ghost invariant = { λ nfa. IsNondeterministic
        (automaton_of nfa.alphabet nfa.initial.items nfa.rows.items nfa.accepting.items) };
}

impl Nfa {
    /// The automaton with these parts.
    pub fn new(
        alphabet: Alphabet,
        initial: Vec<u32>,
        rows: Vec<Branches>,
        accepting: Vec<bool>,
    ) -> Nfa
        requires { IsNondeterministic
            (automaton_of alphabet initial.items rows.items accepting.items) }
        ensures { result ≡ automaton_of alphabet initial.items rows.items accepting.items }
    {
        Nfa {
            alphabet,
            initial,
            rows,
            accepting,
        }
    }

    /// What it reads.
    pub fn alphabet(&self) -> Alphabet
        ensures alphabet { result ≡ self.now.alphabet }
        ensures automaton { IsNondeterministic self.now }
    {
        self.alphabet
    }

    /// The initial states.
    pub fn initial(&self) -> &[u32]
        ensures { result.now ≡ self.now.initial }
    {
        self.initial.as_slice()
    }

    /// The moves of states 1, 2, and so on.
    pub fn rows(&self) -> &[Branches]
        ensures rows { result.now ≡ self.now.rows }
        ensures automaton { IsNondeterministic self.now }
    {
        self.rows.as_slice()
    }

    /// The moves of these states, one state after another.
    pub fn moves_of_each(&self, alloc: Global, states: &[u32]) -> Result<Vec<(u32, u32)>, Memory>
        ensures moves { IfOk result (λ moves. moves.items ≡ moves_of_each self.now states.now) }
        ensures automaton { IsNondeterministic self.now }
    {
        let rows = self.rows.as_slice();
        let mut moves = Vec::new(alloc);
        for state in states {
            moves.extend_from_slice(moves_at(rows, *state))?;
        }
        Ok(moves)
    }

    /// Whether the state accepts.
    pub fn is_accepting(&self, state: u32) -> bool
        ensures { result ≡ accepts_at self.now state }
    {
        match state.checked_sub(1) {
            Some(place) => self.accepting.get(place as usize).copied().unwrap_or(false),
            None => false,
        }
    }

    /// Whether states 1, 2, and so on accept.
    pub fn accepting(&self) -> &[bool]
        ensures { result.now ≡ self.now.accepting }
    {
        self.accepting.as_slice()
    }
}

/// The moves of a state, by those of states 1, 2, and so on; none where there is no such state.
pub fn moves_at(rows: &[Branches], state: u32) -> &[(u32, u32)]
    ensures { result.now ≡ moves_at rows.now state }
{
    match state.checked_sub(1) {
        Some(place) => match rows.get(place as usize) {
            Some(branches) => branches.as_slice(),
            None => &[],
        },
        None => &[],
    }
}
