//! What the automata show, whatever the rules of the group are.

ghost use Rattle.std.specs.Prelude.{◌≡◌, IfOk};
ghost use Rattle.kb_structure.specs.StructureOf.{FitTogether};
ghost use Rattle.kb_relations.specs.Acts.{AreOver, IsActing};
ghost use Rattle.kb_structure.specs.declared.cert.Cert.TheVariants.{N2, N5, N6, N7};
ghost use Rattle.kb_axioms.specs.Checked.{AutomataSay, Checked, PassesImages, PassesLeast, checked_of};

use crate::answers::{Automata, Construction};
use kb_certificates::{
    Images, check_images, image_not_least, missing_extension, pair_outside_acceptor,
    prefix_not_accepted, two_images,
};
use kb_draw::Crew;
use kb_fsa::Fsa;
use kb_io::Gate;
use kb_relations::{Acting, broken_relation};
use kb_structure::Cert;
use kb_word::{Letter, Memory, Word};
use std::alloc::Global;
use std::sync::Wait;
use std::thread::Threads;

/// The first certificate of the kinds N1, N2 and N4 to N8 against a word acceptor and multipliers, if there is one.
/// Several workers are a thread each, and share the generators, and then the relations; how many there are changes
/// nothing of the answer.
pub fn check_automata<G: Gate, T: Threads + Wait + Sync>(
    rt: &T,
    alloc: Global,
    acceptor: &Fsa,
    multipliers: &[Fsa],
    relations: &[(Word, Word)],
    limit: u32,
    crew: &Crew<'_, G>,
) -> Result<Automata, Memory>
    requires fit { FitTogether acceptor.now multipliers.now }
    requires over { AreOver acceptor.now relations.now }
    ensures { IfOk result
        (AutomataSay (checked_of acceptor.now multipliers.now relations.now limit)) }
{
    if let Some(u) = prefix_not_accepted(alloc, acceptor)? {
        return Ok(Automata::No(Cert::N1 { u }));
    }
    if let Some(pair) = pair_outside_acceptor(rt, alloc, acceptor, multipliers, crew)? {
        return Ok(Automata::No(n2(pair)));
    }
    match check_images(rt, alloc, acceptor, multipliers, limit, crew)? {
        Images::Given => { look_further(rt, alloc, acceptor, multipliers, relations, limit, crew) }
        Images::Lacking { x, word } => Ok(Automata::No(Cert::N4 { x, u: word })),
        Images::TooManyStates { x } => Ok(Automata::TooManyStates {
            which: Construction::Images(x),
        }),
    }
}

/// The first certificate of the kinds N5 to N8, where there is none of the others.
fn look_further<G: Gate, T: Threads + Wait + Sync>(
    rt: &T,
    alloc: Global,
    acceptor: &Fsa,
    multipliers: &[Fsa],
    relations: &[(Word, Word)],
    limit: u32,
    crew: &Crew<'_, G>,
) -> Result<Automata, Memory>
    requires fit { FitTogether acceptor.now multipliers.now }
    requires over { AreOver acceptor.now relations.now }
    requires passes { PassesImages (checked_of acceptor.now multipliers.now relations.now limit) }
    ensures { IfOk result
        (AutomataSay (checked_of acceptor.now multipliers.now relations.now limit)) }
{
    if let Some(words) = two_images(rt, alloc, acceptor, multipliers, crew)? {
        return Ok(Automata::No(n5(words)));
    }
    if let Some(word) = missing_extension(rt, alloc, acceptor, multipliers, crew)? {
        return Ok(Automata::No(n6(word)));
    }
    if let Some(pair) = image_not_least(rt, alloc, acceptor, multipliers, crew)? {
        return Ok(Automata::No(n7(pair)));
    }
    let acting = broken_relation(rt, alloc, acceptor, multipliers, relations, limit, crew)?;
    Ok(acted(acting))
}

/// What is answered where relations are looked at last.
fn acted(acting: Acting) -> Automata
    ensures { (checked : Checked) → PassesLeast checked
        → IsActing checked.relations checked.acceptor checked.multipliers checked.limit acting
        → AutomataSay checked result }
{
    match acting {
        Acting::Alike => Automata::Pass,
        Acting::Broken {
            relation,
            word,
            left,
            right,
        } => Automata::No(Cert::N8 {
            relation,
            u: word,
            a: left,
            b: right,
        }),
        Acting::TooManyStates { relation } => Automata::TooManyStates {
            which: Construction::Relation(relation),
        },
    }
}

/// A generator with a pair outside the acceptor, as a certificate.
fn n2(pair: (Letter, Word, Word)) -> Cert
    ensures { result ≡ N2 pair.0 pair.1 pair.2 }
{
    let (x, u, v) = pair;
    Cert::N2 { x, u, v }
}

/// A generator with two images of a word, as a certificate.
fn n5(words: (Letter, Word, Word, Word)) -> Cert
    ensures { result ≡ N5 words.0 words.1 words.2 words.3 }
{
    let (x, u, v, other) = words;
    Cert::N5 { x, u, v, other }
}

/// A generator with a word whose extension is missing, as a certificate.
fn n6(word: (Letter, Word)) -> Cert
    ensures { result ≡ N6 word.0 word.1 }
{
    let (x, prefix) = word;
    Cert::N6 { x, prefix }
}

/// A generator with an image that isn't least, as a certificate.
fn n7(pair: (Letter, Word, Word)) -> Cert
    ensures { result ≡ N7 pair.0 pair.1 pair.2 }
{
    let (x, u, v) = pair;
    Cert::N7 { x, u, v }
}
