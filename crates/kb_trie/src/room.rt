//! Room for further numbers.

ghost use Rattle.std.specs.Prelude.{◌≡◌, ℕ, ◌≤◌, OnOk, length, get_or};

use kb_word::Memory;

/// Makes a list as long as is wanted, by zeros, if it is shorter.
pub fn make_room(numbers: &mut Vec<u32>, wanted: usize) -> Result<(), Memory>
    ensures same { (place : ℕ) → get_or numbers.new.items place 0 ≡ get_or numbers.old.items place 0 }
    ensures longer { length numbers.old.items ≤ length numbers.new.items }
    ensures room { OnOk result (wanted ≤ length numbers.new.items) }
{
    if numbers.len() < wanted {
        numbers.resize(wanted, 0)?;
    }
    Ok(())
}
