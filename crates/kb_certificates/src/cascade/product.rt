//! The product.

ghost use Rattle.std.specs.Prelude.{◌≡◌, ◌↔◌, List, ℕ, IfOk, IfSome, IfNone};
ghost use Rattle.kb_fsa.specs.Language.{AcceptsText, symbols};
ghost use Rattle.kb_certificates.specs.Cascade.{AcceptsLed, IsLeastLed, cascade};
ghost use Rattle.kb_certificates.specs.LedStates.{same_led};

use crate::cascade::follower::Follower;
use crate::cascade::led::Led;
use kb_explore::{Machine, explore, first_accepted};
use kb_fsa::Fsa;
use kb_word::Memory;
use std::alloc::Global;

/// An automaton and its follower.
#[derive(Drop)]
struct Cascade<'a, F: Follower> {
    leader: &'a Fsa,
    follower: &'a F,
}

impl<'a, F: Follower> Machine for Cascade<'a, F> {
    type State = Led<F::State>;

    ghost machine = { λ it. cascade it.leader.now.table (F.follower it.follower.now) };

    ghost symbols = { λ it. symbols it.leader.now.alphabet };

    ghost same_state = { same_led F.State.eq F.same_state };

    fn start(&self, _alloc: Global) -> Result<Option<Led<F::State>>, Memory> {
        let leader = self.leader.initial();
        if leader == 0 {
            return Ok(None);
        }
        let follower = self.follower.start();
        Ok(Some(Led { leader, follower }))
    }

    fn moves(
        &self,
        alloc: Global,
        both: &Led<F::State>,
    ) -> Result<Vec<(u32, Led<F::State>)>, Memory> {
        let mut moves = Vec::new(alloc);
        let table = self.leader.table();
        for (symbol, leader) in table.moves(both.leader).as_slice() {
            let follower = self.follower.next(both.leader, &both.follower, *symbol);
            moves.push((
                *symbol,
                Led {
                    leader: *leader,
                    follower,
                },
            ))?;
        }
        Ok(moves)
    }

    fn accepts(&self, both: &Led<F::State>) -> bool {
        self.follower.accepts(both.leader, &both.follower)
    }
}

/// An automaton of the texts that lead the leader and its follower to acceptance.
pub(crate) fn cascade_product<F: Follower>(
    alloc: Global,
    leader: &Fsa,
    follower: &F,
) -> Result<Fsa, Memory>
    ensures language { IfOk result (λ fsa. (text : List ℕ)
        → AcceptsText fsa text ↔ AcceptsLed leader.now.table (F.follower follower.now) text) }
    ensures alphabet { IfOk result (λ fsa. fsa.alphabet ≡ leader.now.alphabet) }
{
    let machine = Cascade { leader, follower };
    match explore(alloc, &machine, u32::MAX) {
        Ok(exploration) => Ok(Fsa::new(leader.alphabet(), exploration.table)),
        Err(_) => Err(Memory),
    }
}

/// The least text that leads the leader and its follower to acceptance.
pub(crate) fn least_led<F: Follower>(
    alloc: Global,
    leader: &Fsa,
    follower: &F,
) -> Result<Option<Vec<u32>>, Memory>
    ensures found { IfOk result (λ found. IfSome found (λ text.
        IsLeastLed leader.now.table (F.follower follower.now) text.items)) }
    ensures none { IfOk result (λ found. IfNone found
        ((text : List ℕ) → ¬ AcceptsLed leader.now.table (F.follower follower.now) text)) }
{
    let machine = Cascade { leader, follower };
    match first_accepted(alloc, &machine, u32::MAX) {
        Ok(found) => Ok(found),
        Err(_) => Err(Memory),
    }
}
