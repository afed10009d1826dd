//! Designs as they are spelled: what proofs see of them.
use acc_base::designs::{Design, TxType};
use acc_base::sequences::{Seq, Text};
use acc_base::tables::Table;
use acc_cert_read::parts::Part;
use serde_json::Value;
use std::alloc::{AllocError, Global};

/// Of each table how many parts its keys have, and 1 where it is private, else 0; and of each type how many locals it has.
type SpelledDesign = (Seq<(u32, u32)>, Seq<u32>);

/// So many names.
pub fn names(alloc: Global, count: u32) -> Result<Seq<Text>, AllocError> {
    let mut names = Seq::new(alloc);
    for _ in 0..count {
        names.push(Seq::new(alloc))?;
    }
    Ok(names)
}

fn table(alloc: Global, (width, own): (u32, u32)) -> Table {
    Table {
        name: Seq::new(alloc),
        width,
        cols: Seq::new(alloc),
        own: own == 1,
    }
}

fn tables(alloc: Global, spelled: Seq<(u32, u32)>) -> Result<Seq<Table>, AllocError> {
    let mut tables = Seq::new(alloc);
    for one in spelled.into_vec() {
        tables.push(table(alloc, one))?;
    }
    Ok(tables)
}

fn with_locals(alloc: Global, locals: Seq<Text>) -> TxType {
    TxType {
        name: Seq::new(alloc),
        params: 0,
        locals,
        points: Seq::new(alloc),
        posts: Seq::new(alloc),
        repairs: Seq::new(alloc),
        returns: Seq::new(alloc),
        limit: 1,
    }
}

fn types(alloc: Global, counts: Seq<u32>) -> Result<Seq<TxType>, AllocError> {
    let mut types = Seq::new(alloc);
    for count in counts.into_vec() {
        types.push(with_locals(alloc, names(alloc, count)?))?;
    }
    Ok(types)
}

fn spelled(alloc: Global, text: &str) -> Option<SpelledDesign> {
    let value = Value::from_str(alloc, text).ok()?;
    Part::read(alloc, &value).ok()
}

fn design(alloc: Global, (tables_of, types_of): SpelledDesign) -> Result<Design, AllocError> {
    let tables = tables(alloc, tables_of)?;
    Ok(Design {
        tables,
        always: Seq::new(alloc),
        types: types(alloc, types_of)?,
        entries: Seq::new(alloc),
        hints: Seq::new(alloc),
    })
}

/// The design of a text, if it is one.
pub fn read(alloc: Global, text: &str) -> Result<Option<Design>, AllocError> {
    match spelled(alloc, text) {
        Some(spelled) => Ok(Some(design(alloc, spelled)?)),
        None => Ok(None),
    }
}
