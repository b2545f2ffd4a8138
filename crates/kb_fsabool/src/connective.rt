//! How the answers of two automata are joined.

ghost use Rattle.std.specs.Prelude.{◌≡◌};
ghost use Rattle.kb_fsabool.specs.Products.{holds, paired};

/// What is asked of the two automata of a product.
#[derive(Clone, Copy, Debug, PartialEq, Eq)]
pub enum Connective {
    /// Both accept.
    And,
    /// Either accepts.
    Or,
    /// Exactly one accepts.
    Xor,
}

/// A state of each of two automata, 0 standing for none.
#[derive(Clone, Copy, Debug, PartialEq, Eq, Hash)]
pub struct StatePair {
    /// The state of the first.
    pub first: u32,
    /// The state of the second.
    pub second: u32,
}

impl Connective {
    /// The product's state, if acceptance is possible from these: `And` asks for a state of both, the others
    /// for a state of either.
    pub fn pair(self, first: u32, second: u32) -> Option<StatePair>
        ensures { result ≡ paired self first second }
    {
        let is_state = match self {
            Connective::And => first != 0 && second != 0,
            Connective::Or | Connective::Xor => first != 0 || second != 0,
        };
        is_state.then_some(StatePair { first, second })
    }

    /// What the answers of the two give.
    pub fn holds(self, first: bool, second: bool) -> bool
        ensures { result ≡ holds self first second }
    {
        match self {
            Connective::And => first && second,
            Connective::Or => first || second,
            Connective::Xor => first != second,
        }
    }
}
