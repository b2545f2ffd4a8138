//! Runs the worked cases of the program, which are plain text, and says what comes of each otherwise than wanted.
//!
//! The files named in `data/cases.list` have the cases, in the form that `data/README.md` describes. Each case is
//! one call of `kb_cli::run` over memory: a shelf with files, an input, and what has to come of them. What a run's
//! status says is proved in `kb_cli`; the cases show what no clause says: that runs succeed where there is
//! memory, how texts are printed, which of several faults is named, and that the definitions say what was meant.
//!
//! # How it is made
//!
//! - `suite` goes through the sections of a file, which `kb_casefile` reads.
//! - `trial` runs a case, and `report` prints what differs.
//! - `meeting` is the gate of the run, at which its workers are counted.
//! - `dialogue` has its input and its out, which go in turns where the case says so, and `noted_shelf` its files.
//! - `no_memory` has what no case can show, since no case can want memory.
//!
//! Below are `kb_casefile` and `kb_cli`.
#![tactic(auto)]

mod dialogue;
mod meeting;
mod no_memory;
mod noted_shelf;
mod report;
mod suite;
mod trial;

use anyhow::{Context, ensure};
use std::fs;

/// The file with the names of the files of cases, one on each line.
const LIST: &str = "cases.list";

fn main(rt: HostRuntime) -> anyhow::Result<()> {
    let list = fs::read_to_string(&rt, LIST).context(LIST)?;
    let mut differing = 0u64;
    for name in list.lines() {
        let tally = suite::try_file(rt.alloc(), &rt, name).context(format_args!("{name}"))?;
        println!(rt; "{name}: {} cases", tally.cases)?;
        differing = differing.saturating_add(tally.differing);
    }
    ensure!(differing == 0, "{differing} cases differ");
    ensure!(
        no_memory::is_told(rt.alloc(), &rt),
        "want of memory is told otherwise"
    );
    Ok(())
}
