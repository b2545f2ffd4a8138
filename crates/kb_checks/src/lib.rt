//! Tests of what no clause says and no run of the program shows, in one crate, so that no other crate is proved twice.
//!
//! - `workers`: a pass by workers who sift and enter side by side, and what it enters.
//! - `parts`: a book that is settled part by part, while another worker sweeps the part before.
//! - `versions`: what a look at the versions of a book shows.
//! - `calls`: calls that no command makes. That a call succeeds where there is memory is stated by no contract, since
//!   want of memory is an answer that is free.
//! - `outside`: the adapter over real files.
//!
//! The others are shared by tests: `books` has books to begin from, `meeting` the gate at which two workers meet, and
//! `batches` words that are answered together.
//!
//! Below are the libraries that are tested.
#![tactic(auto)]

#[cfg(test)]
mod batches;
#[cfg(test)]
mod books;
#[cfg(test)]
mod calls;
#[cfg(test)]
mod meeting;
#[cfg(test)]
mod outside;
#[cfg(test)]
mod parts;
#[cfg(test)]
mod versions;
#[cfg(test)]
mod workers;
