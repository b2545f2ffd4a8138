//! The machine that goes from one set of rivals to another.

ghost use Rattle.std.specs.Prelude.{◌≡◌, ◌<◌, ◌≤◌, ◌-◌, ◌^◌, true, All, [], length, get_or, IfOk};
ghost use Rattle.std.specs.List.{list_any};
ghost use Rattle.kb_diffwa.specs.RivalSets.{AreWithin, first_row, followed, leads_less, led_on, pairs_from, rival_sets, row_after, unless_less, with_rivals};
ghost use Rattle.kb_diffwa.specs.SameSets.{same_from_members};

use crate::comparisons::{Comparisons, outcome_place};
use crate::rival_set::RivalSet;
use crate::rivals::Rivals;
use crate::sparse_steps::Steps;
use kb_explore::Machine;
use kb_word::Memory;
use std::alloc::Global;

/// The sets of rivals that words have, of which none shows that the word isn't least.
#[derive(Drop)]
pub(crate) struct RivalSets {
    /// How many generators there are.
    pub(crate) n: u16,
    /// How many differences there are.
    pub(crate) differences: u32,
    /// The steps by each letter.
    pub(crate) letters: Vec<Steps>,
    /// For each letter whether from difference 1, from difference 2, and so on, it may lead to the first difference.
    /// Where a letter has none here, it isn't looked for early.
    pub(crate) before_first: Vec<Vec<bool>>,
    pub(crate) ghost generators: { n ≤ 65534 },
    pub(crate) ghost some: { 0 < differences },
    pub(crate) ghost one_each: { length letters.items ≡ n },
    pub(crate) ghost within: { All (AreWithin differences) letters.items },
}

impl Machine for RivalSets {
    type State = RivalSet;

    ghost machine = { λ it. rival_sets it.n it.differences it.letters.items };

    ghost symbols = { λ it. it.n };

    ghost same_state = { same_from_members };

    fn start(&self, alloc: Global) -> Result<Option<RivalSet>, Memory> {
        let row = self.first_row(alloc)?;
        Ok(Some(RivalSet::of_row(alloc, row.as_slice())?))
    }

    fn moves(&self, alloc: Global, set: &RivalSet) -> Result<Vec<(u32, RivalSet)>, Memory> {
        let mut moves = Vec::new(alloc);
        for index in 0..self.n {
            if let Some(next) = self.follow(alloc, set, index + 1)? {
                moves.push((u32::from(index + 1), next))?;
            }
        }
        Ok(moves)
    }

    fn accepts(&self, _set: &RivalSet) -> bool {
        true
    }
}

impl RivalSets {
    /// Where a letter leads: to no set where one of its rivals shows that the word isn't least.
    fn follow(&self, alloc: Global, set: &RivalSet, letter: u16) -> Result<Option<RivalSet>, Memory>
        requires positive { 0 < letter }
        requires letter { letter ≤ self.now.n }
        ensures { IfOk result (λ next. next
            ≡ followed self.now.n self.now.differences self.now.letters.items set.now letter) }
    {
        let steps = &self.letters[usize::from(letter) - 1];
        if self.shows_less_early(set, letter) {
            return Ok(None);
        }
        let mut row = self.first_row(alloc)?;
        for rivals in set.as_slice() {
            lead_on(self.n, letter, steps, *rivals, row.as_mut_slice());
        }
        if row[0].any_less() {
            return Ok(None);
        }
        Ok(Some(RivalSet::of_row(alloc, row.as_slice())?))
    }

    /// Whether a rival is seen early that shows, once the letter is read, that the word isn't least.
    fn shows_less_early(&self, set: &RivalSet, letter: u16) -> bool
        requires positive { 0 < letter }
        requires letter { letter ≤ self.now.n }
        ensures { result ≡ true → list_any (leads_less self.now.n letter
            (get_or self.now.letters.items (letter - 1) [])) set.now ≡ true }
    {
        let place = usize::from(letter) - 1;
        match self.before_first.get(place) {
            Some(marks) => any_leads_less(
                self.n,
                letter,
                &self.letters[place],
                marks.as_slice(),
                set.as_slice(),
            ),
            None => false,
        }
    }

    /// The row of the first rival alone.
    fn first_row(&self, alloc: Global) -> Result<Vec<Comparisons>, Memory>
        ensures first { IfOk result (λ row. row.items ≡ first_row self.now.differences) }
        ensures short { IfOk result (λ row. length row.items < 2 ^ 32) }
    {
        let mut row = vec![in alloc; Comparisons::NONE; self.differences as usize]?;
        row[0] = Comparisons::FIRST;
        Ok(row)
    }
}

/// Whether the letter a leads some rivals to the first difference as lesser words; looked for among those of the
/// differences that have a mark. Few lead there, so that this is seen long before the whole row is made.
fn any_leads_less(n: u16, a: u16, steps: &Steps, marks: &[bool], set: &[Rivals]) -> bool
    requires generators { n ≤ 65534 }
    ensures { result ≡ true → list_any (leads_less n a steps.now) set.now ≡ true }
{
    for rivals in set {
        if has_mark(marks, rivals.difference) && leads_less(n, a, steps, *rivals) {
            return true;
        }
    }
    false
}

/// Whether the difference of a number has a mark.
fn has_mark(marks: &[bool], difference: u32) -> bool {
    difference != 0 && marks.get(difference as usize - 1) == Some(&true)
}

/// Whether the letter a leads rivals of one difference to the first difference as lesser words.
fn leads_less(n: u16, a: u16, steps: &Steps, rivals: Rivals) -> bool
    requires generators { n ≤ 65534 }
    ensures { result ≡ leads_less n a steps.now rivals }
{
    let outcomes = rivals.comparisons.outcomes();
    for (b, target) in pairs_from(steps, rivals.difference) {
        if *target == 1 && outcomes[outcome_place(n, a, *b)].any_less() {
            return true;
        }
    }
    false
}

/// Adds to the row where the letter a leads rivals of one difference.
#[tactic(auto, using(crate::proofs::AllCompared::outcome_at, crate::proofs::AllCompared::outcome_within))]
fn lead_on(n: u16, a: u16, steps: &Steps, rivals: Rivals, row: &mut [Comparisons])
    requires generators { n ≤ 65534 }
    requires within { AreWithin (length row.old) steps.now }
    ensures { row.new ≡ led_on n a steps.now row.old rivals }
{
    // What a letter leads to is looked up: branches by its order would often be guessed wrong.
    let outcomes = rivals.comparisons.outcomes();
    for (b, target) in pairs_from(steps, rivals.difference) {
        add(row, *target, outcomes[outcome_place(n, a, *b)]);
    }
}

/// Adds to the row more rivals of one difference.
fn add(row: &mut [Comparisons], difference: u32, more: Comparisons)
    requires positive { 0 < difference }
    requires within { difference ≤ length row.old }
    ensures { row.new ≡ with_rivals row.old difference more }
{
    let place = difference as usize - 1;
    row[place] = row[place].joined(more);
}

/// The steps from the difference of a number, and none from what is no number.
fn pairs_from(steps: &Steps, difference: u32) -> &[(u16, u32)]
    ensures { result.now ≡ pairs_from steps.now difference }
{
    if difference == 0 {
        return &[];
    }
    match steps.get(difference as usize - 1) {
        Some(pairs) => pairs,
        None => &[],
    }
}
