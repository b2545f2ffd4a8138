//! What workers make of the rows that they take, and how it is put together.

ghost use Rattle.std.specs.Prelude.{◌≡◌, All, IsTrue};
ghost use Rattle.kb_confluence.specs.Rows.{IsEarlier, named_row};
ghost use Rattle.kb_confluence.specs.Shares.{IsEarliestOf};

use crate::confluence::Verdict;
use crate::rows::Buffers;

/// A worker's share of the rows of prime overlaps: whether all rows that it took are joined.
#[derive(Drop)]
pub struct PrimeShare {
    pub buffers: Buffers,
    pub joined: bool,
}

/// A worker's share of the rows of all overlaps: the verdict on the rows that it took.
#[derive(Drop)]
pub struct RowShare {
    pub buffers: Buffers,
    pub verdict: Verdict,
}

/// Whether all rows are joined that any share took.
pub fn all_joined(shares: &[PrimeShare]) -> bool
    ensures { IsTrue result → All (λ share. IsTrue share.joined) shares.now }
{
    shares.iter().all(|share| share.joined)
}

/// The earliest verdict of the shares.
pub fn earliest(shares: Vec<RowShare>) -> Verdict
    ensures { IsEarliestOf shares.items result }
{
    let mut earliest = Verdict::Yes;
    for share in shares {
        let RowShare {
            buffers: _,
            verdict,
        } = share;
        earliest = earlier(earliest, verdict);
    }
    earliest
}

/// Of two verdicts the one that names the earlier row. `Yes` names none, and comes last.
fn earlier(one: Verdict, other: Verdict) -> Verdict
    ensures { IsEarlier one other result }
{
    if one.named_row() <= other.named_row() {
        one
    } else {
        other
    }
}

impl Verdict {
    /// The number of the row that the verdict names, and for `Yes` one that is past all rows.
    pub(crate) fn named_row(&self) -> u64
        ensures { result ≡ named_row self.now }
    {
        match self {
            Verdict::Yes => 1 << 32,
            Verdict::No { i, .. } => u64::from(*i),
        }
    }
}
