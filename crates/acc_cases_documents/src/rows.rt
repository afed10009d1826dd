//! Rows of tables that show a refusal.
use std::alloc::{AllocError, Global};

/// What stands in a row's place for a bar that parts no cells.
const BAR: &str = "\u{1}";

/// A row of a table that shows a refusal.
#[derive(Drop)]
pub struct DocumentRow {
    pub first: String,
    pub second: String,
    pub refusal: String,
}

/// The code of a cell that is code alone.
fn code(cell: Option<&str>) -> Option<&str> {
    cell?.trim().strip_prefix("`")?.strip_suffix("`")
}

/// A text with its bars.
fn with_bars(alloc: Global, text: &str) -> Result<String, AllocError> {
    text.replace(alloc, BAR, "|")
}

/// The row with the code of these cells.
fn row_of_codes(
    alloc: Global,
    first: &str,
    second: &str,
    refusal: &str,
) -> Result<DocumentRow, AllocError> {
    Ok(DocumentRow {
        first: with_bars(alloc, first)?,
        second: with_bars(alloc, second)?,
        refusal: with_bars(alloc, refusal)?,
    })
}

/// The row of three cells, if all are code and the third is a refusal.
fn row_of_cells(
    alloc: Global,
    first: Option<&str>,
    second: Option<&str>,
    third: Option<&str>,
) -> Result<Option<DocumentRow>, AllocError> {
    match (code(first), code(second), code(third)) {
        (Some(first), Some(second), Some(refusal)) if refusal.starts_with("refused ") => {
            Ok(Some(row_of_codes(alloc, first, second, refusal)?))
        }
        _ => Ok(None),
    }
}

/// The row that a line shows, if it shows a refusal.
pub fn row_of(alloc: Global, line: &str) -> Result<Option<DocumentRow>, AllocError> {
    let line = line.replace(alloc, "\\|", BAR)?;
    let mut cells = line.as_str().split('|');
    cells.next();
    row_of_cells(alloc, cells.next(), cells.next(), cells.next())
}
