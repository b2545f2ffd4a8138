//! Natural numbers of any size.

ghost use Rattle.std.specs.Prelude.{◌≡◌, ◌+◌, ◌-◌, ◌^◌, ◌<◌, ◌≤◌, ◌++◌, All, IfOk, OnOk, length, get_or, drop, decimal};
ghost use Rattle.kb_count.specs.Decimal.{decimal_text, limb_digits};
ghost use Rattle.kb_count.specs.Limbs.{value_of};

use itoa::Buffer;
use kb_word::Memory;
use std::alloc::Global;
use std::marker::Model;

/// Each limb is below this.
const BASE: u64 = 1_000_000_000_000_000_000;

/// A natural number of any size, by its limbs of eighteen decimal digits, the lowest first.
#[derive(Debug, Drop)]
pub struct Natural {
    limbs: Vec<u64>,
}

impl Model for Natural {
    ghost use Rattle.std.specs.Prelude.{ℕ, ◌<◌, ◌^◌, All};
    ghost use Rattle.kb_count.specs.Limbs.{value_of};

    ghost Value = { ℕ };

    ghost view = { λ number. value_of number.limbs.items };

    ghost invariant = { λ number. All (λ limb. limb < 10 ^ 18) number.limbs.items };
}

impl Natural {
    /// A number below 10^18.
    pub fn new(alloc: Global, number: u64) -> Result<Natural, Memory>
        requires { number < 10 ^ 18 }
        ensures { IfOk result (λ natural. natural ≡ number) }
    {
        let mut limbs = Vec::new(alloc);
        limbs.push(number)?;
        Ok(Natural { limbs })
    }

    /// The same number.
    pub fn copy(&self, alloc: Global) -> Result<Natural, Memory>
        ensures { IfOk result (λ natural. natural ≡ self.now) }
    {
        let limbs = Vec::from_slice(alloc, self.limbs.as_slice())?;
        Ok(Natural { limbs })
    }

    /// The sum of two numbers.
    pub fn plus(&self, alloc: Global, other: &Natural) -> Result<Natural, Memory>
        ensures { IfOk result (λ sum. sum ≡ self.now + other.now) }
    {
        let limbs = sum_of(alloc, self.limbs.as_slice(), other.limbs.as_slice())?;
        Ok(Natural { limbs })
    }

    /// Appends the number in decimal digits, with no zero before another digit.
    pub fn append_to(&self, line: &mut Vec<u8>) -> Result<(), Memory>
        ensures { OnOk result (line.new.items ≡ line.old.items ++ decimal_text self.now) }
    {
        append_limbs(self.limbs.as_slice(), line)
    }
}

/// The limbs of the sum of two numbers.
fn sum_of(alloc: Global, one: &[u64], other: &[u64]) -> Result<Vec<u64>, Memory>
    requires one { All (λ limb. limb < 10 ^ 18) one.now }
    requires other { All (λ limb. limb < 10 ^ 18) other.now }
    ensures limbs { IfOk result (λ sum. All (λ limb. limb < 10 ^ 18) sum.items) }
    ensures value { IfOk result (λ sum.
        value_of sum.items ≡ value_of one.now + value_of other.now) }
{
    let mut limbs = Vec::new(alloc);
    let mut carry = 0;
    for place in 0..one.len().max(other.len()) {
        let sum = limb_at(one, place) + limb_at(other, place) + carry;
        limbs.push(sum % BASE)?;
        carry = sum / BASE;
    }
    if carry > 0 {
        limbs.push(carry)?;
    }
    Ok(limbs)
}

/// The limb at a place, and 0 past the last one.
fn limb_at(limbs: &[u64], place: usize) -> u64
    requires { All (λ limb. limb < 10 ^ 18) limbs.now }
    ensures limb { result ≡ get_or limbs.now place 0 }
    ensures small { result < 10 ^ 18 }
{
    match limbs.get(place) {
        Some(limb) => *limb,
        None => 0,
    }
}

/// How many limbs there are up to the highest that isn't 0.
fn significant(limbs: &[u64]) -> usize
    ensures within { result ≤ length limbs.now }
    ensures zeros { value_of (drop result limbs.now) ≡ 0 }
    ensures highest { 0 < result → 0 < get_or limbs.now (result - 1) 0 }
{
    let mut count = limbs.len();
    while count > 0 && limbs[count - 1] == 0 {
        count -= 1;
    }
    count
}

/// Appends the number of the limbs in decimal digits.
fn append_limbs(limbs: &[u64], line: &mut Vec<u8>) -> Result<(), Memory>
    requires { All (λ limb. limb < 10 ^ 18) limbs.now }
    ensures { OnOk result (line.new.items ≡ line.old.items ++ decimal_text (value_of limbs.now)) }
{
    let mut place = match significant(limbs).checked_sub(1) {
        Some(highest) => highest,
        None => return append_small(0, line),
    };
    append_small(limbs[place], line)?;
    while place > 0 {
        place -= 1;
        append_limb(limbs[place], line)?;
    }
    Ok(())
}

/// Appends a number below 10^18 in decimal digits.
fn append_small(number: u64, line: &mut Vec<u8>) -> Result<(), Memory>
    requires { number < 10 ^ 18 }
    ensures { OnOk result (line.new.items ≡ line.old.items ++ decimal_text number) }
{
    let mut buffer = Buffer::new();
    line.extend_from_slice(buffer.format(number).as_bytes())?;
    Ok(())
}

/// Appends the eighteen digits of a limb, zeros in front too.
fn append_limb(limb: u64, line: &mut Vec<u8>) -> Result<(), Memory>
    requires { limb < 10 ^ 18 }
    ensures { OnOk result (line.new.items ≡ line.old.items ++ limb_digits limb) }
{
    let mut buffer = Buffer::new();
    // Behind a digit 1 there are as many digits as have to be.
    let (_, digits) = buffer.format(BASE + limb).as_bytes().split_at(1);
    line.extend_from_slice(digits)?;
    Ok(())
}
