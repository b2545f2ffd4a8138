//! Laws: names of generators have no fault, and other values have one.

ghost use Rattle.std.specs.Prelude.{◌≡◌, ◌≢◌, ℕ, List};
ghost use Rattle.kb_record.specs.Tree.{Value};
ghost use Rattle.kb_fields.specs.Fields.{IsListOf};
ghost use Rattle.kb_fields.specs.Generators.{AreGeneratorNames, HasNamesFault};
ghost use Rattle.kb_fields.specs.declared.error.NamesFault.{NamesFault};
ghost use Rattle.kb_fields.specs.declared.error.NamesFault.TheVariants as faults;

/// A value that lists names of generators has no fault; want of memory is none of its own.
pub fn names_of_generators_have_no_fault()
    ensures { (value : Value) (names : List (List ℕ)) (fault : NamesFault) → IsListOf names value
        → AreGeneratorNames names → HasNamesFault value fault → fault ≡ faults.Memory }
{}

/// A value has one fault at most; want of memory is none of its own.
pub fn a_value_has_one_names_fault()
    ensures { (value : Value) (one other : NamesFault) → HasNamesFault value one
        → HasNamesFault value other → one ≢ faults.Memory → other ≢ faults.Memory → one ≡ other }
{}
