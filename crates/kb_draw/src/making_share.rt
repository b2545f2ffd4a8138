//! What a worker makes.

/// Something that was made, and its place.
#[derive(Drop)]
pub struct Placed<M> {
    pub place: u64,
    pub made: M,
}

/// A worker's share of the places: what it made, each with its place.
#[derive(Drop)]
pub struct MakingShare<M> {
    pub made: Vec<Placed<M>>,
}
