//! The rounds that refine classes of states.

ghost use Rattle.std.specs.Prelude.{◌≡◌, ◌≤◌, ℕ, suc, length, All, ◌<◌, IfOk};
ghost use Rattle.kb_fsamin.specs.Rounds.{IsClassing, IsRefined, IsStable, class_of, class_row};

use crate::labels::Labels;
use indexmap::IndexSet;
use kb_fsa::Table;
use kb_word::Memory;
use std::alloc::Global;

/// What a round sees of a state: its class, and its moves with the classes of their targets.
#[derive(PartialEq, Eq, Hash, Drop)]
struct Signature {
    class: u32,
    moves: Vec<(u32, u32)>,
}

/// Refines the classes until states of one class are alike.
pub(crate) fn refine_until_stable(
    alloc: Global,
    table: &Table,
    labels: &Labels,
    start: &[u32],
) -> Result<Vec<u32>, Memory>
    requires { IsClassing table.now labels.now start.now }
    ensures classing { IfOk result (λ classes. IsClassing table.now labels.now classes.items) }
    ensures stable { IfOk result (λ classes. IsStable table.now labels.now classes.items) }
    ensures small { IfOk result (λ classes. (state : ℕ)
        → class_of classes.items state ≤ length table.now.rows) }
{
    let mut classes = round(alloc, table, start)?;
    loop {
        let next = round(alloc, table, classes.as_slice())?;
        if next == classes {
            return Ok(next);
        }
        classes = next;
    }
}

/// The classes after one more round, by what is seen with the classes before it. Classes are numbered in the order of
/// their first states.
fn round(alloc: Global, table: &Table, classes: &[u32]) -> Result<Vec<u32>, Memory>
    requires one_each { length classes.now ≡ suc (length table.now.rows) }
    requires none { class_of classes.now 0 ≡ 0 }
    ensures { IfOk result (λ next. IsRefined table.now classes.now next.items) }
{
    let mut signatures = IndexSet::new(alloc);
    let mut next = vec![in alloc; 0]?;
    let rows = table.rows();
    for place in 0..rows.len() {
        let class = classes[place + 1];
        if class == 0 {
            next.push(0)?;
        } else {
            let signature = signature_of(alloc, classes, class, rows.get(place))?;
            let (number, _) = signatures.insert_full(signature)?;
            next.push(number as u32 + 1)?;
        }
    }
    Ok(next)
}

/// What is seen of a state of the class, with the row.
fn signature_of(
    alloc: Global,
    classes: &[u32],
    class: u32,
    row: &[(u32, u32)],
) -> Result<Signature, Memory>
    requires { All (λ move. move.1 < length classes.now) row.now }
    ensures class { IfOk result (λ s. s.class ≡ class) }
    ensures moves { IfOk result (λ s. s.moves.items ≡ class_row classes.now row.now) }
{
    let mut moves = Vec::new(alloc);
    for (symbol, target) in row {
        let class = classes[*target as usize];
        if class != 0 {
            moves.push((*symbol, class))?;
        }
    }
    Ok(Signature { class, moves })
}
