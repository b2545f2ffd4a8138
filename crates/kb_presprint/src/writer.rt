//! From presentations to bytes.

ghost use Rattle.std.specs.Prelude.{◌≡◌, ◌≢◌, ◌++◌, [], IfOk, OnOk};
ghost use Rattle.kb_word.specs.Presentations.{parts_of};
ghost use Rattle.kb_word.specs.Printed.{letter_name};
ghost use Rattle.kb_word.specs.declared.word_order.WordOrder.TheVariants as orders;
ghost use Rattle.kb_layout.specs.Layout.{indent, line_of, text_of_value};
ghost use Rattle.kb_presfile.specs.Kinds.{equation_value};
ghost use Rattle.kb_presprint.specs.Printed as printed;
ghost use Rattle.kb_presprint.specs.Printed.{text_of_presentation, side_factors, rules_value, inverses_value, weights_value};
ghost use Rattle.kb_presprint.specs.Writing.{inverse_text, weight_line};

use kb_layout::{print_indent, print_names, print_number};
use kb_rules::{Rule, Rules};
use kb_word::{Letter, Memory, Names, Presentation, WordOrder, WtLex, print_word};
use std::alloc::Global;

/// The text of a presentation with these rules as its equations, which says whether they are confluent.
pub fn write(
    alloc: Global,
    presentation: &Presentation,
    rules: &Rules,
    confluent: bool,
) -> Result<Vec<u8>, Memory>
    ensures { IfOk result (λ bytes. bytes.items
        ≡ text_of_presentation (parts_of presentation.now) rules.now.rules confluent) }
{
    let mut out = Vec::new(alloc);
    write_presentation(presentation, rules.as_slice(), confluent, &mut out)?;
    Ok(out)
}

/// Appends the text of a presentation with these rules as its equations.
fn write_presentation(
    presentation: &Presentation,
    rules: &[Rule],
    confluent: bool,
    out: &mut Vec<u8>,
) -> Result<(), Memory>
    ensures { OnOk result (out.new.items
        ≡ out.old.items ++ text_of_presentation (parts_of presentation.now) rules.now confluent) }
{
    let names = &presentation.names;
    out.extend_from_slice(b"_RWS := rec(\n  isRWS := true,\n  isConfluent := ")?;
    out.extend_from_slice(truth_name(confluent).as_bytes())?;
    out.extend_from_slice(b",\n  ordering := \"")?;
    out.extend_from_slice(order_name(&presentation.order).as_bytes())?;
    out.extend_from_slice(b"\",\n  generatorOrder := ")?;
    print_names(names, out)?;
    write_weight_line(&presentation.order, out)?;
    out.extend_from_slice(b",\n  inverses := ")?;
    write_inverses(names, presentation.inv.as_slice(), out)?;
    out.extend_from_slice(b",\n  equations := ")?;
    write_rules(names, rules, out)?;
    out.extend_from_slice(b"\n);\n")?;
    Ok(())
}

/// What a file calls a truth value.
fn truth_name(truth: bool) -> &'static str
    ensures { result.now ≡ printed.truth_name truth }
{
    if truth { "true" } else { "false" }
}

/// What a file calls an order of words.
fn order_name(order: &WordOrder) -> &'static str
    ensures { result.now ≡ printed.order_name order.now }
{
    match order {
        WordOrder::ShortLex => "shortlex",
        WordOrder::WtLex(_) => "wtlex",
    }
}

/// Appends the line of the weights, behind what stands before it, where the order goes by weight.
fn write_weight_line(order: &WordOrder, out: &mut Vec<u8>) -> Result<(), Memory>
    ensures { OnOk result (out.new.items ≡ out.old.items ++ weight_line order.now) }
{
    match order {
        WordOrder::ShortLex => Ok(()),
        WordOrder::WtLex(order) => write_line_by_weight(order, out),
    }
}

/// Appends the line of the weights of an order.
fn write_line_by_weight(order: &WtLex, out: &mut Vec<u8>) -> Result<(), Memory>
    ensures { OnOk result (out.new.items
        ≡ out.old.items ++ weight_line (orders.WtLex order.now)) }
{
    out.extend_from_slice(b",\n  weight := ")?;
    write_weights(order.weights(), out)
}

/// Appends the list of the weights.
fn write_weights(weights: &[u16], out: &mut Vec<u8>) -> Result<(), Memory>
    ensures { OnOk result (out.new.items
        ≡ out.old.items ++ text_of_value 1 (weights_value weights.now)) }
{
    out.push(b'[')?;
    let mut before: &[u8] = b"";
    for weight in weights {
        out.extend_from_slice(before)?;
        print_number(i64::from(*weight), out)?;
        before = b",";
    }
    out.push(b']')?;
    Ok(())
}

/// Appends the list of the inverses: for each generator the name of its inverse, or nothing.
fn write_inverses(
    names: &Names,
    inverses: &[Option<Letter>],
    out: &mut Vec<u8>,
) -> Result<(), Memory>
    ensures { OnOk result (out.new.items
        ≡ out.old.items ++ text_of_value 1 (inverses_value names.now inverses.now)) }
{
    out.push(b'[')?;
    let mut before: &[u8] = b"";
    for inverse in inverses {
        out.extend_from_slice(before)?;
        write_inverse(names, *inverse, out)?;
        before = b",";
    }
    out.push(b']')?;
    Ok(())
}

/// Appends the name of an inverse, or nothing.
fn write_inverse(names: &Names, inverse: Option<Letter>, out: &mut Vec<u8>) -> Result<(), Memory>
    ensures { OnOk result (out.new.items ≡ out.old.items ++ inverse_text names.now inverse) }
{
    match inverse {
        Some(letter) => write_letter(names, letter, out),
        None => Ok(()),
    }
}

/// Appends the name of a letter.
fn write_letter(names: &Names, letter: Letter, out: &mut Vec<u8>) -> Result<(), Memory>
    ensures { OnOk result (out.new.items ≡ out.old.items ++ letter_name names.now letter) }
{
    let name = names.name_of(letter).unwrap_or("");
    out.extend_from_slice(name.as_bytes())?;
    Ok(())
}

/// Appends the list of the rules.
fn write_rules(names: &Names, rules: &[Rule], out: &mut Vec<u8>) -> Result<(), Memory>
    ensures { OnOk result (out.new.items
        ≡ out.old.items ++ text_of_value 1 (rules_value names.now rules.now)) }
{
    if rules.is_empty() {
        out.extend_from_slice(b"[]")?;
        return Ok(());
    }
    write_rule_lines(names, rules, out)
}

/// Appends the list of the rules, each on a line of its own.
fn write_rule_lines(names: &Names, rules: &[Rule], out: &mut Vec<u8>) -> Result<(), Memory>
    requires { rules.now ≢ [] }
    ensures { OnOk result (out.new.items
        ≡ out.old.items ++ text_of_value 1 (rules_value names.now rules.now)) }
{
    out.push(b'[')?;
    let mut before: &[u8] = b"\n";
    for rule in rules {
        out.extend_from_slice(before)?;
        write_rule(names, rule, out)?;
        before = b",\n";
    }
    out.extend_from_slice(b"\n  ]")?;
    Ok(())
}

/// Appends a rule as a line: the list of its sides.
fn write_rule(names: &Names, rule: &Rule, out: &mut Vec<u8>) -> Result<(), Memory>
    ensures { OnOk result (out.new.items
        ≡ out.old.items
        ++ (indent 2 ++ line_of (equation_value (side_factors names.now rule.now)))) }
{
    let left = rule.left();
    let right = rule.right();
    print_indent(2, out)?;
    out.push(b'[')?;
    print_word(names, left, out)?;
    out.push(b',')?;
    print_word(names, right, out)?;
    out.push(b']')?;
    Ok(())
}
