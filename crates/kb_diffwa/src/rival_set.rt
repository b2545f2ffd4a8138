//! Sets of rivals.

ghost use Rattle.std.specs.Prelude.{◌≡◌, ◌+◌, ◌<◌, ◌^◌, length, IfOk};
ghost use Rattle.std.specs.Cmp.{partial_equiv_from_equiv};
ghost use Rattle.std.specs.Cmp.Lexicographic.{pointwise, lists_equiv};
ghost use Rattle.std.specs.Hash as fed;
ghost use Rattle.kb_diffwa.specs.RivalSets.{fed_rivals, members_from, same_rivals};
ghost use Rattle.kb_diffwa.specs.SameSets.{hashed_alike};
ghost use Rattle.kb_diffwa.specs.contracts.rivals.RivalsEq.TheImpl.Laws.{laws-law};

use crate::comparisons::Comparisons;
use crate::rivals::Rivals;
use kb_word::Memory;
use std::alloc::Global;
use std::hash::{Hash, Hasher};
use std::marker::Model;

/// A set of rivals: those of each difference that has some, by ascending numbers of differences.
#[derive(Debug, Drop)]
pub struct RivalSet {
    members: Vec<Rivals>,
}

impl Model for RivalSet {
    ghost use Rattle.std.specs.Prelude.{List};
    ghost use Rattle.kb_diffwa.specs.declared.rivals.Rivals.{Rivals};

    ghost Value = { List Rivals };

    ghost view = { λ set. set.members.items };
}

impl RivalSet {
    /// The set of what a row has for difference 1, for difference 2, and so on.
    pub(crate) fn of_row(alloc: Global, row: &[Comparisons]) -> Result<RivalSet, Memory>
        requires { length row.now < 2 ^ 32 }
        ensures { IfOk result (λ set. set ≡ members_from 1 row.now) }
    {
        let mut members = Vec::new(alloc);
        let mut difference = 0;
        for comparisons in row {
            difference += 1;
            if !comparisons.is_none() {
                members.push(Rivals {
                    difference,
                    comparisons: *comparisons,
                })?;
            }
        }
        members.shrink_to_fit();
        Ok(RivalSet { members })
    }

    /// The members.
    pub(crate) fn as_slice(&self) -> &[Rivals]
        ensures { result.now ≡ self.now }
    {
        self.members.as_slice()
    }
}

impl PartialEq for RivalSet {
    ghost eq = { pointwise same_rivals };

    ghost laws = { partial_equiv_from_equiv (lists_equiv laws-law) };

    fn eq(&self, other: &RivalSet) -> bool
        ensures { result ≡ pointwise same_rivals self.now other.now }
    {
        self.as_slice() == other.as_slice()
    }
}

impl Eq for RivalSet {
    ghost laws = { lists_equiv laws-law };
}

impl Hash for RivalSet {
    ghost hash_input = { fed.slice fed_rivals };

    ghost respects_eq = { hashed_alike };

    fn hash<H: Hasher>(&self, state: &mut H) {
        self.as_slice().hash(state);
    }
}
