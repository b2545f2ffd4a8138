//! Through what readers look.

ghost use Rattle.std.specs.Prelude.{◌≡◌, ◌≢◌, ℕ, List, [], Some, IfOk, IfErr};
ghost use mathlib.Core.List.{IsPrefix};
ghost use Rattle.left_right.specs.Sides.{view};
ghost use Rattle.kb_publish.specs.Versions.{last, state_of};

use crate::notes::Note;
use crate::versions::{Looks, Place, TakenPlace};
use left_right::Absorb;
use std::marker::Model;

/// Through what a reader looks. It has seen versions, whose states contracts list, and may refuse a look; it counts
/// its refusals, as far as a `u64` goes.
pub trait Glass {
    ghost use Rattle.kb_publish.specs.Versions.{last, counted};

    /// What is published.
    type Version;

    /// By what contracts know a version.
    type State;

    /// A glass through which the reader is looking.
    type Reading;

    ghost state: { Self.Version → Self.State };

    // What was seen, in the order in which it was published.
    ghost seen: { Self → List Self.State };

    ghost refusals: { Self → ℕ };

    // What was seen, and is seen now: its last one is the state of the version that the reader looks at.
    ghost shown: { Self.Reading → List Self.State };

    ghost refused: { Self.Reading → ℕ };

    /// Looks at the version that was published last.
    fn read(self) -> Result<Self::Reading, Self>
        ensures looks { IfOk result (λ reading.
            IsPrefix (seen self) (shown reading) × (shown reading ≢ [])
            × (refused reading ≡ refusals self)) }
        ensures refuses { IfErr result (λ glass.
            (seen glass ≡ seen self) × (refusals glass ≡ counted (refusals self))) };

    /// The version that the reader looks at.
    fn version(reading: &Self::Reading) -> &Self::Version
        ensures { last (shown reading.now) ≡ Some (state result.now) };

    /// Ends the look.
    fn back(reading: Self::Reading) -> Self
        ensures { (seen result ≡ shown reading) × (refusals result ≡ refused reading) };
}

/// A place from which a reader looks; or, where none was free, a note of what the reader was told.
pub type Window<V, S, O> = Result<Place<V, S, O>, Note<V, S>>;

/// The glass of a publisher. It refuses a look where the publisher is gone or the glass has no place.
#[derive(Drop)]
pub struct RuledGlass<V: Absorb<O> + Drop, O: Drop> {
    window: Window<V, V::State, O>,
    refusals: u64,
}

/// A look through the glass of a publisher. Contracts see it as what is seen, and the count of refusals.
pub struct RuledReading<V: Absorb<O> + Drop, O: Drop> {
    place: TakenPlace<V, V::State, O>,
    refusals: u64,
}

impl<V: Absorb<O> + Drop, O: Drop> Model for RuledReading<V, O> {
    ghost use Rattle.std.specs.Prelude.{◌≡◌, Some};
    ghost use Rattle.kb_publish.specs.Looking.{Looking};

    ghost Value = { Looking V.State };

    ghost use Rattle.left_right.specs.Sides as sides;
    ghost use Rattle.kb_publish.specs.Versions.{last};

    ghost view = { λ reading. record {
      seen = (sides.view reading.place.place).seen;
      refusals = reading.refusals;
    } };

    ghost invariant = { λ reading.
        last (sides.view reading.place.place).seen
        ≡ Some (V.state reading.place.part.value.version) };
}

impl<V: Absorb<O> + Drop, O: Drop> RuledGlass<V, O> {
    ghost use Rattle.kb_publish.specs.Versions.{counted};
    ghost use Rattle.kb_publish.specs.Readers.{seen_through};

    pub(crate) fn new(window: Window<V, V::State, O>, refusals: u64) -> RuledGlass<V, O>
        ensures { (result.window ≡ window) × (result.refusals ≡ refusals) }
    {
        RuledGlass { window, refusals }
    }

    /// The glass after one refusal more.
    fn refusing(window: Window<V, V::State, O>, refusals: u64) -> RuledGlass<V, O>
        ensures { (result.window ≡ window) × (result.refusals ≡ counted refusals) }
    {
        RuledGlass {
            window,
            refusals: refusals.saturating_add(1),
        }
    }

    /// How often a look was refused.
    pub fn refusals(&self) -> u64
        ensures { result ≡ self.now.refusals }
    {
        self.refusals
    }

    /// Looks from a place.
    fn look_from(
        place: Place<V, V::State, O>,
        refusals: u64,
    ) -> Result<RuledReading<V, O>, RuledGlass<V, O>>
        ensures looks { IfOk result (λ reading.
            IsPrefix (view place.place).seen reading.seen × (reading.seen ≢ [])
            × (reading.refusals ≡ refusals)) }
        ensures refuses { IfErr result (λ glass.
            (seen_through glass ≡ (view place.place).seen) × (glass.refusals ≡ counted refusals)) }
    {
        match place.enter_as::<Looks<O>>() {
            Ok(taken) => RuledReading::over(taken, refusals),
            Err(place) => Err(RuledGlass::refusing(Ok(place), refusals)),
        }
    }
}

impl<V: Absorb<O> + Drop, O: Drop> RuledReading<V, O> {
    ghost use Rattle.kb_publish.specs.Versions.{counted};
    ghost use Rattle.kb_publish.specs.Readers.{seen_through};

    /// A look from a place, where publishing has begun.
    fn over(
        place: TakenPlace<V, V::State, O>,
        refusals: u64,
    ) -> Result<RuledReading<V, O>, RuledGlass<V, O>>
        requires { last (view place.place).seen ≡ state_of V.state place.part.value }
        ensures looks { IfOk result (λ reading.
            (reading.seen ≡ (view place.place).seen) × (reading.seen ≢ [])
            × (reading.refusals ≡ refusals)) }
        ensures refuses { IfErr result (λ glass.
            ((view place.place).seen ≡ []) × (seen_through glass ≡ [])
            × (glass.refusals ≡ counted refusals)) }
    {
        if place.get().begun {
            return Ok(RuledReading { place, refusals });
        }
        let window = Ok(place.leave());
        Err(RuledGlass::refusing(window, refusals))
    }
}

impl<V: Absorb<O> + Drop, O: Drop> Glass for RuledGlass<V, O> {
    ghost use Rattle.kb_publish.specs.Readers.{seen_through};

    type Version = V;

    type State = V::State;

    type Reading = RuledReading<V, O>;

    ghost state = { V.state };

    ghost seen = { seen_through };

    ghost refusals = { λ glass. glass.refusals };

    ghost shown = { λ reading. reading.seen };

    ghost refused = { λ reading. reading.refusals };

    fn read(self) -> Result<RuledReading<V, O>, RuledGlass<V, O>> {
        let RuledGlass { window, refusals } = self;
        match window {
            Ok(place) => RuledGlass::look_from(place, refusals),
            Err(note) => Err(RuledGlass::refusing(Err(note), refusals)),
        }
    }

    fn version(reading: &RuledReading<V, O>) -> &V {
        &reading.place.get().version
    }

    fn back(reading: RuledReading<V, O>) -> RuledGlass<V, O> {
        let RuledReading { place, refusals } = reading;
        RuledGlass::new(Ok(place.leave()), refusals)
    }
}
