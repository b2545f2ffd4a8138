//! Names of generators.

ghost use Rattle.std.specs.Prelude.{◌≡◌, ◌↔◌, ◌≤◌, ◌<◌, [], ◌∷◌, ◌++◌, ◌⊎◌, List, ℕ, map, length, Contains, IsTrue, IsFalse, OnOk, IfOk, IfErr};
ghost use Rattle.kb_record.specs.Tree as tree;
ghost use Rattle.kb_record.specs.View.{value_view};
ghost use Rattle.kb_fields.specs.Fields.{IsListOf};
ghost use Rattle.kb_fields.specs.Generators.{most_generators, AreGeneratorNames, IsReserved, HasNamesFault};

use crate::error::NamesFault;
use crate::values::{lists_names, names_listed};
use kb_record::Value;
use kb_word::{Memory, Names, OwnedText};
use std::alloc::Global;

/// There are at most so many generators.
const MOST_GENERATORS: usize = 1_000;

/// The names of generators that the value lists, of which none stands twice or is `IdWord` or `_`.
pub fn names_of<'a>(alloc: Global, value: &Value<'a>) -> Result<Names, NamesFault>
    ensures listed { IfOk result (λ names. IsListOf names (value_view value.now)) }
    ensures names { IfOk result AreGeneratorNames }
    ensures fault { IfErr result (HasNamesFault (value_view value.now)) }
{
    check_length(value)?;
    let Some(listed) = names_listed(alloc, value)? else {
        return Err(NamesFault::WrongKind);
    };
    free_names(alloc, listed.as_slice())
}

/// Refuses a list that is too long for names of generators, before memory is taken for it.
fn check_length<'a>(value: &Value<'a>) -> Result<(), NamesFault>
    ensures few { OnOk result ((names : List (List ℕ)) → IsListOf names (value_view value.now)
        → length names ≤ most_generators) }
    ensures fault { IfErr result (HasNamesFault (value_view value.now)) }
{
    let Some(count) = value.place_count() else {
        return Ok(());
    };
    if count <= MOST_GENERATORS {
        return Ok(());
    }
    if lists_names(value, count) {
        Err(NamesFault::TooMany)
    } else {
        Err(NamesFault::WrongKind)
    }
}

/// These names, where none of them is taken. The first that stands earlier too, or is `IdWord` or `_`, is refused.
fn free_names(alloc: Global, listed: &[&str]) -> Result<Names, NamesFault>
    requires { length listed.now ≤ most_generators }
    ensures same { IfOk result (λ names. names ≡ map (λ name. name.now) listed.now) }
    ensures names { IfOk result AreGeneratorNames }
    ensures fault { (value : tree.Value) → IsListOf (map (λ name. name.now) listed.now) value
        → IfErr result (HasNamesFault value) }
{
    let mut names = Names::new(alloc);
    for name in listed {
        if !push_free(alloc, &mut names, name)? {
            return Err(NamesFault::Taken {
                name: OwnedText::from_str(alloc, name)?,
            });
        }
    }
    Ok(names)
}

/// Appends the name where it isn't reserved and wasn't there, and returns whether that is so.
fn push_free(alloc: Global, names: &mut Names, name: &str) -> Result<bool, Memory>
    requires { length names.old < 65534 }
    ensures free { IfOk result (λ free. IsTrue free
        → (¬ IsReserved name.now) × (¬ Contains names.old name.now)
        × (names.new ≡ names.old ++ name.now ∷ [])) }
    ensures taken { IfOk result (λ free. IsFalse free
        → IsReserved name.now ⊎ Contains names.old name.now) }
{
    if is_reserved(name) {
        return Ok(false);
    }
    names.push(String::from_str(alloc, name)?)
}

/// Whether the name is `IdWord`, which stands for the empty word, or `_`, which stands for padding.
fn is_reserved(name: &str) -> bool
    ensures { IsTrue result ↔ IsReserved name.now }
{
    name == "IdWord" || name == "_"
}
