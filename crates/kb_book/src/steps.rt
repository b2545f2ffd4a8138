//! Steps by the numbers of lines, and the greater of two words.

ghost use Rattle.std.specs.Prelude.{◌≡◌, ◌≢◌, ◌⊎◌, ◌<◌, IfOk, IfSome, All, length};
ghost use Rattle.kb_word.specs.WordOrders.{Below};
ghost use Rattle.kb_book.specs.Normal.{AreByLines};

use kb_machine::LogStep;
use kb_rules::Step;
use kb_word::{Memory, Order, Word, WordOrder};
use std::alloc::Global;

/// The steps of a reduction by the live rules, by the numbers of their lines.
pub(crate) fn log_steps(alloc: Global, live: &[u32], steps: &[Step]) -> Result<Vec<LogStep>, Memory>
    requires { All (λ step. step.rule < length live.now) steps.now }
    ensures { IfOk result (λ log_steps. AreByLines live.now steps.now log_steps.items) }
{
    let mut log_steps = Vec::with_capacity(alloc, steps.len())?;
    for step in steps {
        let place = short(step.place).ok_or(Memory)?;
        log_steps.push(LogStep {
            place,
            line: live[step.rule],
        })?;
    }
    Ok(log_steps)
}

/// The place, if 32 bits number it. A word with one that they don't takes more memory than there is.
fn short(place: usize) -> Option<u32>
    ensures { IfSome result (λ short. short ≡ place) }
{
    u32::try_from(place).ok()
}

/// The two words, the greater one first.
pub(crate) fn ordered(order: &WordOrder, u: Word, v: Word) -> (Word, Word)
    requires { u ≢ v }
    ensures less { Below order.now result.1 result.0 }
    ensures both { (result ≡ (u, v)) ⊎ (result ≡ (v, u)) }
{
    if order.less(&u, &v) { (v, u) } else { (u, v) }
}
