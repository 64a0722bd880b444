use crate::moment::{Moment, shown};
use crate::row::Row;
use crate::status::Status;
use safe_text::SafeText;
use std::alloc::{AllocError, Global};

/// How many columns there are.
const COLUMNS: usize = 6;

/// What stands over them.
static TITLES: [&str; COLUMNS] = ["NAME", "STATUS", "SINCE", "WHY", "EXPECTED", "REPORTED"];

/// The fewest spaces between two cells.
const GAP: usize = 2;

const RED: &str = "\x1b[31m";

const GREEN: &str = "\x1b[32m";

const YELLOW: &str = "\x1b[33m";

const DIM: &str = "\x1b[2m";

const PLAIN: &str = "\x1b[0m";

/// A place of the table, and the colour of its text if it has one.
#[derive(Drop)]
struct Cell {
    text: String,
    colour: Option<&'static str>,
}

impl Cell {
    fn plain(text: String) -> Cell {
        Cell { text, colour: None }
    }

    /// How many characters of it can be seen.
    fn width(&self) -> usize {
        self.text.chars().count()
    }

    fn push_to(&self, text: &mut String) -> Result<(), AllocError> {
        let Some(colour) = self.colour else {
            return text.push_str(self.text.as_str());
        };
        text.push_str(colour)?;
        text.push_str(self.text.as_str())?;
        text.push_str(PLAIN)
    }
}

/// All rows as a table under a line of titles. Each line ends in LF.
pub fn table(alloc: Global, rows: &[Row], is_coloured: bool) -> Result<String, AllocError> {
    let mut lines = Vec::new(alloc);
    push_lines(alloc, &mut lines, rows, is_coloured)?;
    aligned(alloc, &lines)
}

/// Adds the line of titles and a line for each row.
fn push_lines(
    alloc: Global,
    lines: &mut Vec<Vec<Cell>>,
    rows: &[Row],
    is_coloured: bool,
) -> Result<(), AllocError> {
    lines.push(titles(alloc)?)?;
    for row in rows {
        lines.push(cells(alloc, row, is_coloured)?)?;
    }
    Ok(())
}

/// The text of these lines, with each column as wide as its widest cell.
fn aligned(alloc: Global, lines: &[Vec<Cell>]) -> Result<String, AllocError> {
    let widths = widths(lines);
    let mut text = String::new(alloc);
    for line in lines {
        push_line(&mut text, line, &widths)?;
    }
    Ok(text)
}

fn titles(alloc: Global) -> Result<Vec<Cell>, AllocError> {
    let mut line = Vec::new(alloc);
    for title in &TITLES {
        push_text(alloc, &mut line, title)?;
    }
    Ok(line)
}

/// A row's cells, in the order of the titles.
fn cells(alloc: Global, row: &Row, is_coloured: bool) -> Result<Vec<Cell>, AllocError> {
    let mut line = Vec::new(alloc);
    push_cells(alloc, &mut line, row, is_coloured)?;
    Ok(line)
}

fn push_cells(
    alloc: Global,
    line: &mut Vec<Cell>,
    row: &Row,
    is_coloured: bool,
) -> Result<(), AllocError> {
    push_text(alloc, line, row.name.as_str())?;
    line.push(status_cell(alloc, row.status, is_coloured)?)?;
    push_moment(alloc, line, &row.since)?;
    push_text(alloc, line, why_of(row))?;
    line.push(Cell::plain(shown_seconds(alloc, row.expected)?))?;
    push_moment(alloc, line, &row.reported)
}

/// Adds a text that can be printed, and seen where it is empty too.
fn push_text(alloc: Global, line: &mut Vec<Cell>, text: &str) -> Result<(), AllocError> {
    let shown = if text.is_empty() { "-" } else { text };
    line.push(Cell::plain(SafeText(shown).to_string(alloc)?))?;
    Ok(())
}

fn push_moment(
    alloc: Global,
    line: &mut Vec<Cell>,
    moment: &Option<Moment>,
) -> Result<(), AllocError> {
    push_text(alloc, line, &shown(alloc, moment)?)
}

fn status_cell(alloc: Global, status: Status, is_coloured: bool) -> Result<Cell, AllocError> {
    let text = String::from_str(alloc, status.word())?;
    let colour = if is_coloured {
        Some(colour_of(status))
    } else {
        None
    };
    Ok(Cell { text, colour })
}

fn colour_of(status: Status) -> &'static str {
    match status {
        Status::Serving => GREEN,
        Status::NotServing => RED,
        Status::Unknown => YELLOW,
        Status::Absent => DIM,
    }
}

fn why_of(row: &Row) -> &str {
    match &row.why {
        Some(why) => why.as_str(),
        None => "",
    }
}

fn shown_seconds(alloc: Global, seconds: Option<u32>) -> Result<String, AllocError> {
    match seconds {
        Some(seconds) => format!(in alloc; "{seconds} s"),
        None => String::from_str(alloc, "-"),
    }
}

/// The width of each column's widest cell.
fn widths(lines: &[Vec<Cell>]) -> [usize; COLUMNS] {
    let mut widths = [0; COLUMNS];
    for line in lines {
        widen(&mut widths, line);
    }
    widths
}

fn widen(widths: &mut [usize], line: &[Cell]) {
    for (width, cell) in widths.iter_mut().zip(line) {
        *width = cell.width().max(*width);
    }
}

/// The spaces that align a cell stand before it, so that none end the line.
fn push_line(text: &mut String, line: &[Cell], widths: &[usize]) -> Result<(), AllocError> {
    let mut spaces = 0;
    for (cell, width) in line.iter().zip(widths) {
        push_spaces(text, spaces)?;
        cell.push_to(text)?;
        spaces = width.saturating_sub(cell.width()).saturating_add(GAP);
    }
    text.push_str("\n")
}

fn push_spaces(text: &mut String, count: usize) -> Result<(), AllocError> {
    for _ in 0..count {
        text.push(' ')?;
    }
    Ok(())
}
