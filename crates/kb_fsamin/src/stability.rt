//! Whether the states of a class are alike.

ghost use Rattle.std.specs.Prelude.{◌≡◌, ◌≢◌, ◌+◌, ◌<◌, ◌≤◌, ◌∷◌, [], ℕ, length, All, IfSome, IsTrue, MatchOption};
ghost use Rattle.kb_fsamin.specs.Rounds.{IsClassing, IsStable, StandsFor, class_of, class_row};

use crate::labels::Labels;
use kb_fsa::{Rows, Table};

/// Whether each class is numbered by a state of it, and the states of a class have moves by the
/// same symbols to the same classes.
pub(crate) fn is_stable(table: &Table, labels: &Labels, classes: &[u32]) -> bool
    requires { IsClassing table.now labels.now classes.now }
    ensures stable { IsTrue result → IsStable table.now labels.now classes.now }
    ensures small { IsTrue result → (state : ℕ)
        → class_of classes.now state ≤ length table.now.rows }
{
    let rows = table.rows();
    for place in 0..rows.len() {
        if !is_stood_for(rows, classes, classes[place + 1], rows.get(place)) {
            return false;
        }
    }
    true
}

/// Whether the class is 0, or is its own state's and sees of that state what it does of the row.
fn is_stood_for(rows: &Rows, classes: &[u32], class: u32, row: &[(u32, u32)]) -> bool
    requires one_each { length classes.now ≡ length rows.now + 1 }
    requires rows { All (All (λ move. move.1 < length classes.now)) rows.now }
    requires row { All (λ move. move.1 < length classes.now) row.now }
    ensures { IsTrue result → class ≢ 0 → StandsFor rows.now classes.now class row.now }
{
    if class == 0 {
        return true;
    }
    let place = class as usize - 1;
    place < rows.len()
        && classes[class as usize] == class
        && are_alike(classes, rows.get(place), row)
}

/// Whether two rows have moves by the same symbols to the same classes.
fn are_alike(classes: &[u32], one: &[(u32, u32)], other: &[(u32, u32)]) -> bool
    requires one { All (λ move. move.1 < length classes.now) one.now }
    requires other { All (λ move. move.1 < length classes.now) other.now }
    ensures { IsTrue result → class_row classes.now one.now ≡ class_row classes.now other.now }
{
    let mut rest = other;
    for (symbol, target) in one {
        let class = classes[*target as usize];
        if class != 0 {
            match first_classed(classes, rest) {
                Some((first, later)) if first == (*symbol, class) => rest = later,
                _ => return false,
            }
        }
    }
    first_classed(classes, rest).is_none()
}

/// The first move to a state with a class, as a move to the class, and the moves after it.
fn first_classed<'a>(
    classes: &[u32],
    moves: &'a [(u32, u32)],
) -> Option<((u32, u32), &'a [(u32, u32)])>
    requires { All (λ move. move.1 < length classes.now) moves.now }
    ensures row { MatchOption result (class_row classes.now moves.now ≡ [])
        (λ split. class_row classes.now moves.now ≡ split.0 ∷ class_row classes.now split.1.now) }
    ensures later { IfSome result (λ split. All (λ move. move.1 < length classes.now) split.1.now) }
{
    let mut rest = moves;
    while let Some((first, later)) = rest.split_first() {
        let class = classes[first.1 as usize];
        if class != 0 {
            return Some(((first.0, class), later));
        }
        rest = later;
    }
    None
}
