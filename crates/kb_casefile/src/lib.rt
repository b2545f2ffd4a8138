//! Files of worked cases: from their text to cases.
//!
//! A case is a run of `kb` as a mathematician writes it down: the command line, the files that
//! there are, the input, and what has to come of them. `crates/kb_cases/data/README.md` describes
//! the form. [`sections`] cuts a file into sections, [`Draft`] collects those of a case, [`rows`]
//! reads the rows under them, and [`Draft::case`] makes the case that they are by a row. A
//! malformed file is a [`Mistake`] on a line ([`Stop`]). No contract says more than that all of
//! this is safe and returns: what a case means is seen where it is run.
//!
//! - `section` cuts a file into sections: a keyword, what is behind it on its line, and the indented lines under it.
//! - `token`, `texts` and `terms` read texts: quoted, repeated, by a name, or from a file of data.
//! - `draft`, `row` and `case` make cases of sections.
//!
//! Nothing is below but `std`.
#![tactic(auto)]

mod case;
mod draft;
mod mistake;
mod row;
mod section;
mod terms;
mod texts;
mod token;

pub use case::{Case, Wanted};
pub use draft::Draft;
pub use mistake::{Mistake, Stop, on_line};
pub use row::rows;
pub use section::{Section, sections};
pub use terms::text_of;
pub use texts::{Named, find};
