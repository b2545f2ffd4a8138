//! The sections of a file of cases.

use crate::mistake::{Mistake, Stop, on_line};
use std::alloc::Global;

/// A line that is not indented, and the indented lines below it.
#[derive(Drop)]
pub struct Section {
    /// The number of its first line, counted from 1.
    pub line: usize,
    /// The first word.
    pub keyword: String,
    /// What is behind the first word, up to the text.
    pub argument: String,
    /// The text on the first line, behind a colon.
    pub terms: Option<String>,
    /// The lines below, without their two blanks.
    pub block: Vec<Line>,
}

/// A line of a block.
#[derive(Drop)]
pub struct Line {
    /// Its number in the file, counted from 1.
    pub number: usize,
    pub text: String,
}

impl Section {
    /// The section that begins with this line.
    fn begun(alloc: Global, line: usize, text: &str) -> Result<Section, Mistake> {
        if is_whole(text) {
            return Section::without_terms(alloc, line, text);
        }
        match text.split_once(": ") {
            Some((head, terms)) => {
                let terms = Some(String::from_str(alloc, terms)?);
                let section = Section::without_terms(alloc, line, head)?;
                Ok(Section { terms, ..section })
            }
            None => Section::without_terms(alloc, line, text),
        }
    }

    /// The section of a keyword and what is behind it.
    fn without_terms(alloc: Global, line: usize, head: &str) -> Result<Section, Mistake> {
        let (keyword, argument) = match head.split_once(' ') {
            Some((keyword, argument)) => (keyword, argument),
            None => (head, ""),
        };
        Ok(Section {
            line,
            keyword: String::from_str(alloc, keyword)?,
            argument: String::from_str(alloc, argument)?,
            terms: None,
            block: Vec::new(alloc),
        })
    }

    /// Whether there is a text, on the line or below.
    pub fn has_text(&self) -> bool {
        self.terms.is_some() || !self.block.is_empty()
    }
}

/// Whether a colon on this line is a colon of what is behind the first word.
fn is_whole(text: &str) -> bool {
    text.starts_with("case ") || text.starts_with("kb ")
}

/// The sections of a text. A line that begins with `#` is a comment. Empty lines between two lines of a block belong
/// to it, and others separate sections.
pub fn sections(alloc: Global, text: &str) -> Result<Vec<Section>, Stop> {
    let mut sections = Vec::new(alloc);
    let mut empty_lines = 0usize;
    let mut number = 0usize;
    for line in text.lines() {
        number = number.saturating_add(1);
        if line.is_empty() {
            empty_lines = empty_lines.saturating_add(1);
        } else if let Some(text) = line.strip_prefix("  ") {
            let added = add_line(alloc, &mut sections, empty_lines, number, text);
            on_line(number, added)?;
            empty_lines = 0;
        } else if !line.starts_with('#') {
            sections.push(on_line(number, Section::begun(alloc, number, line))?)?;
            empty_lines = 0;
        }
    }
    Ok(sections)
}

/// Adds the line to the block of the last section, behind so many empty ones.
fn add_line(
    alloc: Global,
    sections: &mut Vec<Section>,
    empty_lines: usize,
    number: usize,
    text: &str,
) -> Result<(), Mistake> {
    let Some(section) = sections.last_mut() else {
        return Err(Mistake::Indented);
    };
    if !section.block.is_empty() {
        for _ in 0..empty_lines {
            let text = String::new(alloc);
            section.block.push(Line { number, text })?;
        }
    }
    let text = String::from_str(alloc, text)?;
    section.block.push(Line { number, text })?;
    Ok(())
}
