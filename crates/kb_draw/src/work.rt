//! Work that is shared out by the numbers of a draw.

ghost use Rattle.std.specs.Prelude.{◌≡◌, ℕ, ◌+◌, ◌^◌, ◌<◌, ◌≤◌, All, IfOk, OnOk, length};
ghost use Rattle.kb_draw.specs.Seats.{IsNewSeatOf};
ghost use Rattle.kb_draw.specs.Sharing.{IsShared};
ghost use Rattle.kb_draw.specs.Workers.{AreSeated, IsDrawnOf, AreTaken};

use crate::crew::Crew;
use crate::draw::{Draw, Seat};
use kb_io::{Gate, Point};
use kb_word::Memory;
use std::alloc::Global;
use std::sync::Wait;
use std::thread;
use std::thread::Threads;

/// Work in parts, which are numbered from 0 on. Each worker takes the numbers that it draws into a share of its own.
pub trait Work {
    /// What a worker makes of the parts that it draws.
    type Share: Drop;

    /// How many parts there are.
    ghost parts: { Self → ℕ };

    /// What holds of a share, whatever was drawn.
    ghost sound: { Self → Self.Share → Type 0 };

    /// The part with this number is done in the share.
    ghost done: { Self → Self.Share → ℕ → Type 0 };

    /// How many parts there are.
    fn parts(&self) -> u64
        ensures { result ≡ parts self.now };

    /// The share of a worker that has drawn nothing. Workers are numbered from 1 on.
    fn begin(&self, alloc: Global, worker: u32) -> Result<Self::Share, Memory>
        ensures { IfOk result (sound self.now) };

    /// A worker is about to draw.
    fn attend(&self, _worker: u32) {}

    /// Does a part, and takes it into the share.
    fn take(&self, part: u64, share: &mut Self::Share) -> Result<(), Memory>
        requires part { part < parts self.now }
        requires sound { sound self.now share.old }
        ensures sound { OnOk result (sound self.now share.new) }
        ensures done { OnOk result (done self.now share.new part) }
        ensures earlier { OnOk result
            ((other : ℕ) → done self.now share.old other → done self.now share.new other) };
}

/// A worker: its number, from 1 on, and its seat at the draw of the parts.
#[derive(Drop)]
struct Worker {
    number: u32,
    seat: Seat,
}

/// What a worker brings back: its dry seat, and its share.
#[derive(Drop)]
struct Drawn<S> {
    seat: Seat,
    share: S,
}

/// A work whose workers come to a gate before each draw.
#[derive(Drop)]
struct Gated<'a, W: Work, G: Gate> {
    work: &'a W,
    gate: &'a G,
}

impl<'a, W: Work, G: Gate> Work for Gated<'a, W, G> {
    type Share = W::Share;

    ghost parts = { λ it. W.parts it.work.now };

    ghost sound = { λ it share. W.sound it.work.now share };

    ghost done = { λ it share part. W.done it.work.now share part };

    fn parts(&self) -> u64 {
        self.work.parts()
    }

    fn begin(&self, alloc: Global, worker: u32) -> Result<W::Share, Memory> {
        self.work.begin(alloc, worker)
    }

    fn attend(&self, worker: u32) {
        self.gate.at(worker, Point::Draw);
    }

    fn take(&self, part: u64, share: &mut W::Share) -> Result<(), Memory> {
        self.work.take(part, share)
    }
}

/// Does all parts of a work, by the workers of a crew. Each part is done in one of the shares.
pub fn share_out<W: Work + Sync, G: Gate, T: Threads + Wait + Sync>(
    rt: &T,
    alloc: Global,
    work: &W,
    crew: &Crew<'_, G>,
) -> Result<Vec<W::Share>, Memory>
where
    W::Share: Send,
    requires { W.parts work.now ≤ 2 ^ 62 }
    ensures count { IfOk result (λ shares. length shares.items ≡ crew.now) }
    ensures sound { IfOk result (λ shares. All (W.sound work.now) shares.items) }
    ensures done { IfOk result
        (λ shares. IsShared (W.parts work.now) (W.done work.now) shares.items) }
{
    if crew.count() == 1 {
        do_all(alloc, work)
    } else {
        let gated = Gated {
            work,
            gate: crew.gate(),
        };
        draw_all(rt, alloc, &gated, crew.count())
    }
}

/// Does all parts of a work, one after another, in one share.
fn do_all<W: Work>(alloc: Global, work: &W) -> Result<Vec<W::Share>, Memory>
    ensures count { IfOk result (λ shares. length shares.items ≡ 1) }
    ensures sound { IfOk result (λ shares. All (W.sound work.now) shares.items) }
    ensures done { IfOk result
        (λ shares. IsShared (W.parts work.now) (W.done work.now) shares.items) }
{
    let mut shares = Vec::with_capacity(alloc, 1)?;
    let mut share = work.begin(alloc, 1)?;
    for part in 0..work.parts() {
        work.take(part, &mut share)?;
    }
    shares.push(share)?;
    Ok(shares)
}

/// Does all parts of a work by threads, which draw them.
fn draw_all<W: Work + Sync, T: Threads + Wait + Sync>(
    rt: &T,
    alloc: Global,
    work: &W,
    workers: u32,
) -> Result<Vec<W::Share>, Memory>
where
    W::Share: Send,
    requires parts { W.parts work.now ≤ 2 ^ 62 }
    requires workers { (1 ≤ workers) × (workers ≤ 64) }
    ensures count { IfOk result (λ shares. length shares.items ≡ workers) }
    ensures sound { IfOk result (λ shares. All (W.sound work.now) shares.items) }
    ensures done { IfOk result
        (λ shares. IsShared (W.parts work.now) (W.done work.now) shares.items) }
{
    let (draw, seats) = Draw::new(alloc, 0, work.parts(), workers)?;
    let crew = seated(alloc, seats)?;
    let drawn = thread::map_vec(
        rt,
        crew,
        &|worker: Worker| -> Result<Drawn<W::Share>, Memory>
            requires seat { IsNewSeatOf draw worker.seat }
            requires end { draw.bounds.end ≡ W.parts work.now }
            ensures { IfOk result
                (IsDrawnOf draw (W.parts work.entry.now) (W.sound work.entry.now)
                (W.done work.entry.now)) }
        { draw_to_end(rt, alloc, work, &draw, worker) },
    )?;
    let (seats, shares) = taken(alloc, drawn)?;
    draw.close(seats);
    Ok(shares)
}

/// A worker at each seat.
fn seated(alloc: Global, mut seats: Vec<Seat>) -> Result<Vec<Worker>, Memory>
    requires { length seats.items ≤ 64 }
    ensures { IfOk result (λ made. AreSeated seats.items made.items) }
{
    let mut made = Vec::with_capacity(alloc, seats.len())?;
    while let Some(seat) = seats.pop() {
        let number = made.len() as u32 + 1;
        made.push(Worker { number, seat })?;
    }
    Ok(made)
}

/// Draws parts until the seat is dry, and takes each into the share.
fn draw_to_end<W: Work, T: Wait>(
    rt: &T,
    alloc: Global,
    work: &W,
    draw: &Draw,
    worker: Worker,
) -> Result<Drawn<W::Share>, Memory>
    requires seat { IsNewSeatOf draw.now worker.seat }
    requires end { draw.now.bounds.end ≡ W.parts work.now }
    ensures { IfOk result
        (IsDrawnOf draw.now (W.parts work.now) (W.sound work.now) (W.done work.now)) }
{
    let Worker { number, mut seat } = worker;
    let mut share = work.begin(alloc, number)?;
    for _ in rt.forever() {
        work.attend(number);
        let Some(part) = draw.next(&mut seat) else {
            return Ok(Drawn { seat, share });
        };
        work.take(part, &mut share)?;
    }
    unreachable!()
}

/// The seats and the shares of all workers.
fn taken<S: Drop>(
    alloc: Global,
    drawn: Vec<Result<Drawn<S>, Memory>>,
) -> Result<(Vec<Seat>, Vec<S>), Memory>
    ensures { IfOk result (λ all. AreTaken drawn.items all.0.items all.1.items) }
{
    let mut seats = Vec::new(alloc);
    let mut shares = Vec::new(alloc);
    for one in drawn {
        let Drawn { seat, share } = one?;
        seats.push(seat)?;
        shares.push(share)?;
    }
    Ok((seats, shares))
}
