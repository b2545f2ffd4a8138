//! A file of cases.

use crate::report::print_differences;
use crate::trial::differences;
use kb_casefile::{Draft, Mistake, Named, Section, Stop, on_line, rows, sections, text_of};
use std::alloc::Global;
use std::fs;
use std::rt::Files;
use std::sync::Wait;
use std::thread::Threads;

/// How many cases were run, and how many of them came otherwise than wanted.
#[derive(Clone, Copy)]
pub(crate) struct Tally {
    pub cases: u64,
    pub differing: u64,
}

/// The texts that have a name so far, and the tally.
#[derive(Drop)]
struct Suite {
    texts: Vec<Named>,
    tally: Tally,
}

/// Runs the cases of the file of this name, and prints what differs.
pub(crate) fn try_file<R: Files + AllocGlobal + Print + Threads + Wait + Sync>(
    alloc: Global,
    rt: &R,
    name: &str,
) -> Result<Tally, Stop> {
    let text = fs::read_to_string(rt, name)?;
    let mut suite = Suite {
        texts: Vec::new(alloc),
        tally: Tally {
            cases: 0,
            differing: 0,
        },
    };
    let mut draft: Option<Draft> = None;
    for section in sections(alloc, text.as_str())? {
        match section.keyword.as_str() {
            "case" => suite.end(rt, draft.replace(Draft::begun(alloc, section)))?,
            "text" => {
                suite.end(rt, draft.take())?;
                suite.add_text(rt, &section)?;
            }
            _ => add_section(&mut draft, section)?,
        }
    }
    suite.end(rt, draft)?;
    Ok(suite.tally)
}

/// Adds a section to the case that is begun.
fn add_section(draft: &mut Option<Draft>, section: Section) -> Result<(), Stop> {
    match draft {
        Some(draft) => {
            draft.sections.push(section)?;
            Ok(())
        }
        None => on_line(section.line, Err(Mistake::NoCase)),
    }
}

impl Suite {
    /// Adds the text of a section under its name.
    fn add_text<R: Files + AllocGlobal>(&mut self, rt: &R, section: &Section) -> Result<(), Stop> {
        let bytes = on_line(section.line, text_of(rt, section, self.texts.as_slice()))?;
        self.texts
            .push(Named::new(rt.alloc(), section.argument.as_str(), bytes)?)?;
        Ok(())
    }

    /// Runs the cases of a draft, where there is one.
    fn end<R: Files + AllocGlobal + Print + Threads + Wait + Sync>(
        &mut self,
        rt: &R,
        draft: Option<Draft>,
    ) -> Result<(), Stop> {
        let Some(draft) = draft else {
            return Ok(());
        };
        let outer = self.texts.len();
        for row in rows(rt.alloc(), &draft)? {
            for column in row.columns {
                self.texts.push(column)?;
            }
            self.try_case(rt, &draft, row.line, row.shows.as_str())?;
            self.texts.truncate(outer);
        }
        Ok(())
    }

    /// Runs the case that a draft is by the texts so far.
    fn try_case<R: Files + AllocGlobal + Print + Threads + Wait + Sync>(
        &mut self,
        rt: &R,
        draft: &Draft,
        line: usize,
        shows: &str,
    ) -> Result<(), Stop> {
        let case = draft.case(rt, self.texts.as_slice())?;
        let differences = differences(rt.alloc(), rt, &case)?;
        self.tally.cases = self.tally.cases.saturating_add(1);
        if !differences.is_empty() {
            self.tally.differing = self.tally.differing.saturating_add(1);
            print_differences(rt.alloc(), rt, line, shows, differences.as_slice())?;
        }
        Ok(())
    }
}
