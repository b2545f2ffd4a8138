//! Sets of comparisons.

ghost use Rattle.std.specs.Prelude.{◌≡◌, ◌≤◌};
ghost use Rattle.kb_diffwa.specs.RivalSets.{any_less, is_none, joined, outcome_place, outcomes};

/// How the words that have one difference compare, in the shortlex order, with the suffixes that they are beside: which
/// of four things is true of some of them. None is longer than its suffix.
#[derive(Clone, Copy, Debug, PartialEq, Eq, Hash)]
pub struct Comparisons {
    /// Some word is the one that it is beside.
    pub equal: bool,
    /// Some word is as long, and less.
    pub less: bool,
    /// Some word is as long, and greater.
    pub greater: bool,
    /// Some word is shorter, and so less.
    pub ended: bool,
}

impl Comparisons {
    /// No comparison.
    pub(crate) const NONE: Comparisons = Comparisons {
        equal: false,
        less: false,
        greater: false,
        ended: false,
    };

    /// That of the empty word beside the empty suffix.
    pub(crate) const FIRST: Comparisons = Comparisons {
        equal: true,
        less: false,
        greater: false,
        ended: false,
    };

    /// Whether there is none.
    pub(crate) fn is_none(self) -> bool
        ensures { result ≡ is_none self }
    {
        !(self.equal || self.less || self.greater || self.ended)
    }

    /// Whether some word is less.
    pub(crate) fn any_less(self) -> bool
        ensures { result ≡ any_less self }
    {
        self.less || self.ended
    }

    /// Those of both.
    pub(crate) fn joined(self, other: Comparisons) -> Comparisons
        ensures { result ≡ joined self other }
    {
        Comparisons {
            equal: self.equal | other.equal,
            less: self.less | other.less,
            greater: self.greater | other.greater,
            ended: self.ended | other.ended,
        }
    }

    /// How the words compare once the longer ones have a letter more: where the others have a lesser letter, the same
    /// one, a greater one, and none. A word that has ended has no further letter.
    pub(crate) fn outcomes(self) -> [Comparisons; 4]
        ensures { result ≡ outcomes self }
    {
        let lesser = Comparisons {
            equal: false,
            less: self.less | self.equal,
            greater: self.greater,
            ended: false,
        };
        let same = Comparisons {
            ended: false,
            ..self
        };
        let greater = Comparisons {
            equal: false,
            less: self.less,
            greater: self.greater | self.equal,
            ended: false,
        };
        let ended = Comparisons {
            ended: !self.is_none(),
            ..Comparisons::NONE
        };
        [lesser, same, greater, ended]
    }
}

/// Which of the outcomes is that of the letter b beside the letter a, where the padding is letter n + 1.
pub(crate) fn outcome_place(n: u16, a: u16, b: u16) -> usize
    requires { n ≤ 65534 }
    ensures { result ≡ outcome_place n a b }
{
    if b == n + 1 {
        3
    } else {
        usize::from(b >= a) + usize::from(b > a)
    }
}
