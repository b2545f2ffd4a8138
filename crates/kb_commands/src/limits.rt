//! The options of a completion on the command line: its workers and its limits.
//!
//! Commands of several families complete presentations, and take the same options. [`with_limits`] adds them to
//! a command, by `with_limits` of `specs/Limits.antt`, and [`limits_given`] returns the limits that they give
//! (`GivesLimits`), and none exactly where they give none. [`with_all_limits`] and [`all_limits_given`] are the
//! same for a command that keeps word differences.

mod definition;
mod reading;

pub use self::definition::{with_all_limits, with_limits};
pub use self::reading::{all_limits_given, limits_given};
