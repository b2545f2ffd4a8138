//! The sections of a case, and its rows.

use crate::case::Case;
use crate::mistake::{Mistake, Stop, on_line};
use crate::section::Section;
use crate::texts::Named;
use std::alloc::Global;
use std::rt::Files;

/// The sections of a case.
#[derive(Drop)]
pub struct Draft {
    /// The line on which the case begins.
    pub line: usize,
    /// What it shows.
    pub shows: String,
    /// The sections below its first line.
    pub sections: Vec<Section>,
}

impl Draft {
    /// A case that begins with this section.
    pub fn begun(alloc: Global, section: Section) -> Draft {
        Draft {
            line: section.line,
            shows: section.argument,
            sections: Vec::new(alloc),
        }
    }

    /// The section with the rows.
    pub fn heading(&self) -> Option<&Section> {
        self.sections
            .iter()
            .find(|section| section.keyword.as_str() == "each")
    }

    /// The case that these sections are, by texts that have a name.
    pub fn case<R: Files + AllocGlobal>(&self, rt: &R, texts: &[Named]) -> Result<Case, Stop> {
        let mut case = Case::new(rt.alloc());
        for section in &self.sections {
            on_line(section.line, case.add(rt, section, texts))?;
        }
        if !case.has_command {
            return on_line(self.line, Err(Mistake::NoCommand));
        }
        Ok(case)
    }
}
