//! Questions about the rows of a store.
use crate::words::{list, small};
use acc_base::bounds::MOST_KEY_PARTS;
use acc_base::tables::Row;
use acc_store::{Store, StoreError};
use std::alloc::{AllocError, Global};
use std::fmt::Write;

/// Pushes a row: its table, its key and its columns.
pub fn push_row(out: &mut String, row: &Row) -> Result<(), AllocError> {
    let table = row.table;
    write!(
        out,
        "{table} {:?} {:?}",
        row.key.parts.as_slice(),
        row.cols.as_slice()
    )
}

fn push_each(out: &mut String, rows: &[Row]) -> Result<(), AllocError> {
    for row in rows {
        out.push_str(" ")?;
        push_row(out, row)?;
    }
    Ok(())
}

/// Pushes the rows of a store.
fn push_rows<S: Store>(alloc: Global, out: &mut String, store: &S) -> Result<(), AllocError> {
    out.push_str("rows")?;
    match store.rows(alloc) {
        Ok(plain) => push_each(out, plain.rows.as_slice()),
        Err(StoreError::Memory) => Err(AllocError),
    }
}

/// Pushes what a look-up of a key answers.
fn push_look_up<S: Store>(
    out: &mut String,
    store: &S,
    verb: &str,
    table: u32,
    key: &[i64],
    col: u32,
) -> Result<(), AllocError> {
    if key.len() > MOST_KEY_PARTS {
        return out.push_str("no key");
    }
    match verb {
        "has" => write!(out, "{}", store.has(table, key)),
        "get" => write!(out, "{}", store.get(table, key, col)),
        "columns" => write!(out, "{:?}", store.columns(table, key)),
        "count" => write!(out, "{}", store.count(table, key)),
        "sum" => write!(out, "{}", store.sum(table, key, col)),
        "least" => write!(out, "{}", store.least(table, key)),
        "greatest" => write!(out, "{}", store.greatest(table, key)),
        _ => out.push_str("no question"),
    }
}

/// Pushes what a look-up of a key in words answers.
fn push_at<S: Store>(
    alloc: Global,
    out: &mut String,
    store: &S,
    verb: &str,
    table: u32,
    key: &str,
    col: u32,
) -> Result<(), AllocError> {
    let key = list(alloc, key)?;
    push_look_up(out, store, verb, table, key.as_slice(), col)
}

/// Pushes what a question about the rows answers.
pub fn push_row_answer<S: Store>(
    alloc: Global,
    out: &mut String,
    store: &S,
    words: &[&str],
) -> Result<(), AllocError> {
    match words {
        ["rows"] => push_rows(alloc, out, store),
        [verb, table, key] => push_at(alloc, out, store, verb, small(table), key, 0),
        [verb, table, key, col] => push_at(alloc, out, store, verb, small(table), key, small(col)),
        _ => out.push_str("no question"),
    }
}
