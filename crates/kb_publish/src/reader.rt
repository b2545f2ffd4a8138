//! Readers, and their looks.

ghost use Rattle.std.specs.Prelude.{◌≡◌, ◌≢◌, [], Some, IfOk, IfErr};
ghost use mathlib.Core.List.{IsPrefix};
ghost use Rattle.kb_publish.specs.Versions.{last, counted};

use crate::Glass;

/// A reader that isn't looking.
#[derive(Drop)]
pub struct VersionReader<G> {
    pub(crate) glass: G,
}

/// A look at the version that was published last. It is not `Drop`: end it by `leave`.
pub struct Look<G: Glass> {
    reading: G::Reading,
}

impl<G: Glass> VersionReader<G> {
    /// A reader that looks through a glass.
    pub fn new(glass: G) -> VersionReader<G>
        ensures { result.glass ≡ glass }
    {
        VersionReader { glass }
    }

    /// Through what the reader looks.
    pub fn glass(&self) -> &G
        ensures { result.now ≡ self.now.glass }
    {
        &self.glass
    }

    /// Looks at the version that was published last, and waits for nobody. The reader comes back where the look is
    /// refused.
    pub fn look(self) -> Result<Look<G>, VersionReader<G>>
        ensures looks { IfOk result (λ look.
            IsPrefix (G.seen self.glass) (G.shown look.reading) × (G.shown look.reading ≢ [])
            × (G.refused look.reading ≡ G.refusals self.glass)) }
        ensures refuses { IfErr result (λ reader.
            (G.seen reader.glass ≡ G.seen self.glass)
            × (G.refusals reader.glass ≡ counted (G.refusals self.glass))) }
    {
        match self.glass.read() {
            Ok(reading) => Ok(Look { reading }),
            Err(glass) => Err(VersionReader { glass }),
        }
    }
}

impl<G: Glass> Look<G> {
    /// The version that was published last before the look.
    pub fn version(&self) -> &G::Version
        ensures { last (G.shown self.now.reading) ≡ Some (G.state result.now) }
    {
        G::version(&self.reading)
    }

    /// Ends the look.
    pub fn leave(self) -> VersionReader<G>
        ensures seen { G.seen result.glass ≡ G.shown self.reading }
        ensures refusals { G.refusals result.glass ≡ G.refused self.reading }
    {
        let Look { reading } = self;
        VersionReader {
            glass: G::back(reading),
        }
    }
}
