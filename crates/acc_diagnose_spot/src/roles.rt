//! What a name stands for where it is used or defined, and what is said where that is wrong.
use acc_diagnose_words::{Spot, push_quoted};
use acc_lex::Token;
use acc_page::Page;

/// What a name stands for.
#[derive(Clone, Copy)]
pub enum NameRole<'a> {
    Table,
    /// A column of a table.
    Column(&'a [u8]),
    Type,
    /// A point of a type.
    Point(&'a [u8]),
    /// A local of a type, or of a `forall`.
    Variable,
    /// A name of a `forall` outside of types.
    Bound,
}

/// A name that isn't defined, or that is defined a second time.
#[derive(Clone, Copy)]
pub struct NameFault<'a> {
    pub token: &'a Token,
    pub role: NameRole<'a>,
    /// Where it was defined first, if it is defined a second time.
    pub first: Option<&'a Token>,
}

/// Puts what a name is, as a message begins.
fn push_role(out: &mut Page, role: NameRole) {
    match role {
        NameRole::Table => out.push(b"table"),
        NameRole::Column(table) => {
            out.push(b"column of ");
            push_quoted(out, table)
        }
        NameRole::Type => out.push(b"type"),
        NameRole::Point(ty) => {
            out.push(b"point of the type ");
            push_quoted(out, ty)
        }
        NameRole::Variable => out.push(b"local"),
        NameRole::Bound => out.push(b"name of a `forall`"),
    }
}

/// How a name is defined.
fn definition_hint(role: NameRole) -> &'static [u8] {
    match role {
        NameRole::Table => b"tables are defined at the beginning: `table NAME COMPONENTS COLUMNS`",
        NameRole::Column(_) =>
            b"the columns of a table stand in its own line, behind the number of its key's components",
        NameRole::Type => b"a type is defined by `type NAME PARAMETERS`",
        NameRole::Point(_) => b"a point is defined by `point NAME`, within the type",
        NameRole::Variable =>
            b"a type's locals are its parameters and the names behind `local`; in a clause also the names of its `forall`",
        NameRole::Bound =>
            b"outside of types a clause has the names of its `forall` alone, as in `always forall s : RELATION`",
    }
}

/// Says that a name is defined a second time.
fn push_again(spot: &mut Spot, role: NameRole, name: &[u8], first: &Token) {
    spot.what.push(b"there is a second ");
    push_role(&mut spot.what, role);
    spot.what.push(b" called ");
    push_quoted(&mut spot.what, name);
    spot.hint.push(b"the first stands on line ");
    spot.hint.push_number(first.line);
    spot.hint.push(b": choose another name for one of the two")
}

/// Says that a name isn't defined.
fn push_none(spot: &mut Spot, role: NameRole, name: &[u8]) {
    spot.what.push(b"there is no ");
    push_role(&mut spot.what, role);
    spot.what.push(b" called ");
    push_quoted(&mut spot.what, name);
    spot.hint.push(definition_hint(role))
}

/// Says what is wrong with a name.
pub fn push_fault(spot: &mut Spot, fault: NameFault, name: &[u8]) {
    match fault.first {
        Some(first) => push_again(spot, fault.role, name, first),
        None => push_none(spot, fault.role, name),
    }
}
