//! Presentations of free abelian groups.

ghost use Rattle.std.specs.Prelude.{◌≡◌, ◌≤◌, ◌<◌, ◌+◌, ◌-◌, ◌++◌, ◌∷◌, [], IfOk, OnOk, decimal, string_bytes};
ghost use Rattle.kb_word.specs.Presentations.{parts_of};
ghost use Rattle.kb_cmd_completion.specs.FreeAbelian.{free_abelian, commutes, commutes_with_next, commuting, generator_names, generator_inverses};

use itoa::Buffer;
use kb_word::{Equations, Inverses, Letter, Memory, Names, Presentation, Word, WordOrder};
use std::alloc::Global;

/// The presentation of the free abelian group of rank n, 1 to 40, by commuting generators: x1, X1,
/// .. with Xi the inverse of xi.
pub fn selftest_presentation(alloc: Global, n: u16) -> Result<Presentation, Memory>
    requires { (1 ≤ n) × (n ≤ 40) }
    ensures { IfOk result (λ presentation. parts_of presentation ≡ free_abelian n) }
{
    let names = generator_names(alloc, n)?;
    let inverses = generator_inverses(alloc, n)?;
    let equations = commuting(alloc, n)?;
    Ok(Presentation::new(2 * n, WordOrder::ShortLex, names, inverses, equations))
}

/// The names of the generators and their inverses.
fn generator_names(alloc: Global, n: u16) -> Result<Names, Memory>
    requires { n ≤ 40 }
    ensures { IfOk result (λ names. names ≡ generator_names n) }
{
    let mut names = Names::new(alloc);
    for i in 0..n {
        append_names(alloc, i, &mut names)?;
    }
    Ok(names)
}

/// Appends the names of generator i, counted from 0, and of its inverse.
fn append_names(alloc: Global, i: u16, names: &mut Names) -> Result<(), Memory>
    requires few { i < 40 }
    requires before { names.old ≡ generator_names i }
    ensures { OnOk result (names.new ≡ generator_names (i + 1)) }
{
    names.push(numbered(alloc, "x", i + 1)?)?;
    names.push(numbered(alloc, "X", i + 1)?)?;
    Ok(())
}

/// A letter and a number.
fn numbered(alloc: Global, letter: &str, number: u16) -> Result<String, Memory>
    ensures { IfOk result (λ name. string_bytes name ≡ letter.now ++ decimal number) }
{
    let mut buffer = Buffer::new();
    let mut name = String::from_str(alloc, letter)?;
    name.push_str(buffer.format(number))?;
    Ok(name)
}

/// The inverses: each generator is the inverse of its neighbour.
fn generator_inverses(alloc: Global, n: u16) -> Result<Inverses, Memory>
    requires { n ≤ 40 }
    ensures { IfOk result (λ inverses. inverses ≡ generator_inverses n) }
{
    let mut inverses = Vec::new(alloc);
    for i in 0..n {
        inverses.push(Some(Letter::new(2 * i + 2)))?;
        inverses.push(Some(Letter::new(2 * i + 1)))?;
    }
    Ok(Inverses::from_vec(inverses))
}

/// The equations by which all generators commute.
fn commuting(alloc: Global, n: u16) -> Result<Equations, Memory>
    requires { n ≤ 40 }
    ensures { IfOk result (λ equations. equations ≡ commuting n 0) }
{
    let mut equations = Vec::new(alloc);
    for i in 0..n {
        append_commuting(alloc, i, n, &mut equations)?;
    }
    Ok(Equations::from_vec(equations))
}

/// Appends the equations by which generator i, counted from 0, commutes with each after it.
fn append_commuting(
    alloc: Global,
    i: u16,
    n: u16,
    equations: &mut Vec<(Word, Word)>,
) -> Result<(), Memory>
    requires { (i < n) × (n ≤ 40) }
    ensures { OnOk result (equations.new.items
        ≡ equations.old.items ++ commutes_with_next i (n - (i + 1))) }
{
    for j in i + 1..n {
        equations.push(commutes(alloc, i, j)?)?;
    }
    Ok(())
}

/// `xj*xi = xi*xj`, where the generators are counted from 0.
fn commutes(alloc: Global, i: u16, j: u16) -> Result<(Word, Word), Memory>
    requires { (i < j) × (j < 40) }
    ensures { IfOk result (λ equation. equation ≡ commutes i j) }
{
    let first = Letter::new(2 * i + 1);
    let second = Letter::new(2 * j + 1);
    Ok((
        product(alloc, second, first)?,
        product(alloc, first, second)?,
    ))
}

/// The product of two letters.
fn product(alloc: Global, first: Letter, second: Letter) -> Result<Word, Memory>
    ensures { IfOk result (λ word. word ≡ first ∷ second ∷ []) }
{
    let mut word = Word::new(alloc);
    word.push(first)?;
    word.push(second)?;
    Ok(word)
}
