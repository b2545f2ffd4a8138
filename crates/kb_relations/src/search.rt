//! The first relation whose sides don't act alike.

ghost use Rattle.std.specs.Prelude.{IfOk};
ghost use Rattle.kb_word.specs.Relations.{IsOver};
ghost use Rattle.kb_fsa.specs.Language.{Accepts, generators};
ghost use Rattle.kb_structure.specs.Structure.{Follows};
ghost use Rattle.kb_structure.specs.StructureOf.{FitTogether, OfAutomata};
ghost use Rattle.kb_relations.specs.Images.{CanBeFollowed};
ghost use Rattle.kb_relations.specs.Acts.{AreOver, IsActing};

use crate::acting::Acting;
use crate::following::follow;
use crate::sides::least_led_apart;
use crate::stop::Stop;
use kb_draw::{Crew, Search, first_found};
use kb_explore::Det;
use kb_fsa::Fsa;
use kb_io::Gate;
use kb_word::{Memory, Word};
use std::alloc::Global;
use std::sync::Wait;
use std::thread::Threads;

/// The relations of a group, which are searched for one whose sides don't act alike.
#[derive(Drop)]
struct Relations<'a> {
    acceptor: &'a Fsa,
    multipliers: &'a [Fsa],
    relations: &'a [(Word, Word)],
    limit: u32,
    ghost fit: { FitTogether acceptor.now multipliers.now },
    ghost over: { AreOver acceptor.now relations.now },
}

/// A place is a relation's index.
impl<'a> Search for Relations<'a> {
    ghost use Rattle.std.specs.Prelude.{length};
    ghost use Rattle.kb_relations.specs.Stops.{GoesOnAt, StopsAt};

    type Found = Stop;

    ghost places = { λ it. length it.relations.now };

    ghost has = { λ it place stop.
        StopsAt it.relations.now it.acceptor.now it.multipliers.now it.limit place stop };

    ghost lacks = { λ it place.
        GoesOnAt it.relations.now it.acceptor.now it.multipliers.now it.limit place };

    fn places(&self) -> u64 {
        self.relations.len() as u64
    }

    fn look(&self, alloc: Global, place: u64) -> Result<Option<Stop>, Memory> {
        let index = place as usize;
        let relation = &self.relations[index];
        match least_led_apart(alloc, self.acceptor, self.multipliers, relation, self.limit) {
            Ok(None) => Ok(None),
            Ok(Some(word)) => Ok(Some(Stop::LedApart { index, word })),
            Err(Det::TooManyStates { .. }) => Ok(Some(Stop::TooManyStates { index })),
            Err(Det::Memory) => Err(Memory),
        }
    }
}

/// The first relation whose sides don't act alike, with the least word from which they lead to different words. The
/// composites along both sides of a relation, and their comparison, are counted in full before. Several workers are a
/// thread each, and share the relations; how many there are changes nothing of the answer.
pub fn broken_relation<G: Gate, T: Threads + Wait + Sync>(
    rt: &T,
    alloc: Global,
    acceptor: &Fsa,
    multipliers: &[Fsa],
    relations: &[(Word, Word)],
    limit: u32,
    crew: &Crew<'_, G>,
) -> Result<Acting, Memory>
    requires automata { CanBeFollowed acceptor.now multipliers.now }
    requires relations { AreOver acceptor.now relations.now }
    ensures { IfOk result (IsActing relations.now acceptor.now multipliers.now limit) }
{
    let search = Relations {
        acceptor,
        multipliers,
        relations,
        limit,
    };
    match first_found(rt, alloc, &search, crew)? {
        None => Ok(Acting::Alike),
        Some(Stop::TooManyStates { index }) => Ok(Acting::TooManyStates {
            relation: index + 1,
        }),
        Some(Stop::LedApart { index, word }) => {
            let relation = &relations[index];
            let (left, right) = both_ends(alloc, acceptor, multipliers, relation, &word)?;
            Ok(Acting::Broken {
                relation: index + 1,
                word,
                left,
                right,
            })
        }
    }
}

/// The words to which the sides of a relation lead from an accepted word.
fn both_ends(
    alloc: Global,
    acceptor: &Fsa,
    multipliers: &[Fsa],
    relation: &(Word, Word),
    word: &Word,
) -> Result<(Word, Word), Memory>
    requires automata { CanBeFollowed acceptor.now multipliers.now }
    requires left { IsOver (generators acceptor.now.alphabet) relation.now.0 }
    requires right { IsOver (generators acceptor.now.alphabet) relation.now.1 }
    requires word { Accepts acceptor.now word.now }
    ensures left { IfOk result (λ ends. OfAutomata acceptor.now multipliers.now
        (λ structure. Follows structure relation.now.0 word.now ends.0)) }
    ensures right { IfOk result (λ ends. OfAutomata acceptor.now multipliers.now
        (λ structure. Follows structure relation.now.1 word.now ends.1)) }
{
    let left = follow(alloc, acceptor, multipliers, &relation.0, word)?;
    let right = follow(alloc, acceptor, multipliers, &relation.1, word)?;
    Ok((left, right))
}
