//! Lines that show that a long completion lives, and a last one that says how the run ended.
//!
//! [`Progress`] watches a completion (`kb_share::Watch`) and writes to a sink, as `docs/formats.md` has it. No clause
//! speaks of what it writes, and what fails in that is ignored: a command promises nothing of standard error but faults
//! and refusals.
//!
//! - `progress` shows how far a completion has come; `summary` has the last line: what was found and stored, or the
//!   limit that was reached.
//!
//! Below are `kb_book`, whose figures are shown, and `kb_share`, which lets somebody watch.
#![tactic(auto)]

mod progress;
mod summary;

pub use progress::Progress;
pub use summary::{Evidence, Limit, Stored, Summary};
