//! What a worker finds.

/// A worker's share of the places: the earliest at which it found something, and what it found. Where it found nothing
/// the place is the end.
#[derive(Drop)]
pub struct SearchShare<F> {
    pub place: u64,
    pub found: Option<F>,
}
