//! The rows of a case, each of which gives texts to the names of the columns.

use crate::draft::Draft;
use crate::mistake::{Mistake, Stop, on_line};
use crate::section::{Line, Section};
use crate::texts::Named;
use crate::token::{number, tokens};
use std::alloc::Global;

/// What is between two columns of a row.
const BETWEEN: &str = " => ";

/// A row, or a case without rows.
#[derive(Drop)]
pub struct Row {
    /// Its line in the file.
    pub line: usize,
    /// What the case with this row shows.
    pub shows: String,
    /// The texts in its columns, by the columns' names.
    pub columns: Vec<Named>,
}

/// The rows of a case: those below `each`, or the numbers from one to another. A case without has
/// one row of no columns.
pub fn rows(alloc: Global, draft: &Draft) -> Result<Vec<Row>, Stop> {
    let Some(heading) = draft.heading() else {
        let mut rows = Vec::new(alloc);
        rows.push(Row {
            line: draft.line,
            shows: draft.shows.clone()?,
            columns: Vec::new(alloc),
        })?;
        return Ok(rows);
    };
    match heading.argument.split_once(" from ") {
        Some((name, range)) => {
            let range = on_line(heading.line, range_of(range))?;
            counted_rows(alloc, draft, heading.line, name, range)
        }
        None => listed_rows(alloc, draft, heading),
    }
}

/// A row for each line below the heading that is not empty.
fn listed_rows(alloc: Global, draft: &Draft, heading: &Section) -> Result<Vec<Row>, Stop> {
    let mut rows = Vec::new(alloc);
    for line in &heading.block {
        if !line.text.is_empty() {
            let row = on_line(line.number, listed(alloc, draft, heading, line))?;
            rows.push(row)?;
        }
    }
    Ok(rows)
}

/// A row for each number of the range.
fn counted_rows(
    alloc: Global,
    draft: &Draft,
    line: usize,
    name: &str,
    range: Range,
) -> Result<Vec<Row>, Stop> {
    let mut rows = Vec::new(alloc);
    for number in range.first..=range.last {
        rows.push(counted(alloc, draft, line, name, number)?)?;
    }
    Ok(rows)
}

/// The numbers from one to another.
#[derive(Clone, Copy)]
struct Range {
    first: u32,
    last: u32,
}

/// The range that is written as two numbers with `to` between them.
fn range_of(text: &str) -> Result<Range, Mistake> {
    let (first, last) = text.split_once(" to ").ok_or(Mistake::Number)?;
    Ok(Range {
        first: number::<u32>(first)?,
        last: number::<u32>(last)?,
    })
}

/// The row with a number in its one column.
fn counted(
    alloc: Global,
    draft: &Draft,
    line: usize,
    name: &str,
    number: u32,
) -> Result<Row, Stop> {
    let text = format!(in alloc; "{number}")?;
    let bytes = Vec::from_slice(alloc, text.as_bytes())?;
    let mut columns = Vec::new(alloc);
    columns.push(Named::new(alloc, name, bytes)?)?;
    let shows = format!(in alloc; "{}: {text}", draft.shows)?;
    Ok(Row {
        line,
        shows,
        columns,
    })
}

/// The row on a line.
fn listed(alloc: Global, draft: &Draft, heading: &Section, line: &Line) -> Result<Row, Mistake> {
    let mut columns = Vec::new(alloc);
    let mut names = heading.argument.split(BETWEEN);
    for column in line.text.split(BETWEEN) {
        let name = names.next().ok_or(Mistake::Columns)?;
        let bytes = column_of(alloc, column.trim())?;
        columns.push(Named::new(alloc, name.trim(), bytes)?)?;
    }
    if names.next().is_some() {
        return Err(Mistake::Columns);
    }
    Ok(Row {
        line: line.number,
        shows: format!(in alloc; "{}: {}", draft.shows, line.text)?,
        columns,
    })
}

/// The bytes of a column: it stands as it is, unless it is one quoted text.
fn column_of(alloc: Global, column: &str) -> Result<Vec<u8>, Mistake> {
    if column.starts_with('"') && column.ends_with('"') {
        let tokens = tokens(alloc, column)?;
        let [token] = tokens.as_slice() else {
            return Err(Mistake::Unclosed);
        };
        return Ok(Vec::from_slice(alloc, token.bytes.as_slice())?);
    }
    Ok(Vec::from_slice(alloc, column.as_bytes())?)
}
