//! Steps of automata by ascending symbols: the place of a move is guessed to be a little behind the one before.

ghost use Rattle.std.specs.Prelude.{◌≡◌, ◌≤◌, ℕ, length, IfSome};
ghost use Rattle.kb_fsa.specs.Table.{IsRow, step, target};

use kb_fsa::Fsa;

/// The state to which the state's move by the symbol leads, and 0 where it has none. Guesses are kept by place; a wrong
/// one costs a search.
pub(crate) fn guessed_step(
    multiplier: &Fsa,
    state: u32,
    symbol: u32,
    guesses: &mut Vec<usize>,
    place: usize,
) -> u32
    ensures { result ≡ step multiplier.now.table state symbol }
{
    let moves = multiplier.moves(state).as_slice();
    let guess = guesses.get(place).copied().unwrap_or(0);
    let guess = not_below(moves, guess, symbol);
    if place < guesses.len() {
        guesses[place] = guess;
    }
    match target_at(moves, guess, symbol) {
        Some(next) => next,
        None => multiplier.step(state, symbol),
    }
}

/// The first place of the guess and those behind it whose move isn't by a lower symbol.
fn not_below(moves: &[(u32, u32)], guess: usize, symbol: u32) -> usize {
    let mut place = guess;
    while place < moves.len() && moves[place].0 < symbol {
        place += 1;
    }
    place
}

/// The target by the symbol, and 0 where there is no move by it, if the guess tells: the symbol is that of the
/// guessed move, or lies between it and the one before.
fn target_at(moves: &[(u32, u32)], guess: usize, symbol: u32) -> Option<u32>
    requires { IsRow moves.now }
    ensures { IfSome result (λ state. state ≡ target moves.now symbol) }
{
    if guess > moves.len() {
        return None;
    }
    if guess > 0 && moves[guess - 1].0 >= symbol {
        return None;
    }
    if guess == moves.len() || moves[guess].0 > symbol {
        return Some(0);
    }
    if moves[guess].0 == symbol {
        Some(moves[guess].1)
    } else {
        None
    }
}
