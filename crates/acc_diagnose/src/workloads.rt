//! What is told of a design that lacks a table of TPC-C, or a call of its workload, and of conditions that are false.
use crate::obligations::File;
use acc_base::designs::Design;
use acc_diagnose_words::{begin_note, end_note, push_note, push_quoted};
use acc_page::Page;
use std::alloc::{AllocError, Global};
use tpcc_tables::kinds::{CONDITIONS, Condition};
use tpcc_tables::{SCHEMA, SchemaError, SchemaTable, schema};

/// Writes the statement of a table of TPC-C.
fn push_statement(out: &mut Page, wanted: SchemaTable) {
    out.push(b"`table ");
    out.push(wanted.name());
    out.push(b" ");
    out.push_number(wanted.width());
    for column in wanted.columns() {
        out.push(b" ");
        out.push(column);
    }
    out.push(b"`");
}

/// Whether a design has a table of this name.
fn has_table(d: &Design, name: &[u8]) -> bool {
    d.tables
        .as_slice()
        .iter()
        .any(|table| table.name.as_slice() == name)
}

/// Says that a design lacks this table of TPC-C, for which the command of the verb asks, or has another of its name.
fn push_lack(out: &mut Page, d: &Design, design: File, verb: &[u8], wanted: SchemaTable) {
    begin_note(out, design.name);
    push_quoted(out, verb);
    if has_table(d, wanted.name()) {
        out.push(b" asks for TPC-C's tables, and the table ");
        push_quoted(out, wanted.name());
        out.push(b" has another width or other columns; it is to be ");
    } else {
        out.push(b" asks for TPC-C's tables, and there is no table ");
        push_quoted(out, wanted.name());
        out.push(b"; it is to be ");
    }
    push_statement(out, wanted);
    end_note(
        out,
        b"`acc tpcc design` prints a design that has all of them",
    );
}

/// What is so where a condition is false of the row whose key is told.
fn false_text(condition: Condition) -> &'static [u8] {
    match condition {
        Condition::WarehouseDistricts => b"what this warehouse took isn't what its districts took",
        Condition::LastOrders =>
            b"the order before this district's next isn't its last, or isn't the last of its orders that wait for delivery",
        Condition::WaitingOrders =>
            b"among this district's orders that wait for delivery, numbers are missing between the first and the last",
        Condition::DistrictLines =>
            b"this district's orders haven't as many lines as they say, together",
        Condition::Carriers =>
            b"this order has a carrier and waits for delivery, or has none and doesn't wait",
        Condition::OrderLines => b"this order hasn't as many lines as it says",
        Condition::Dates =>
            b"this line has a date and its order no carrier, or the other way round",
        Condition::WarehousePayments => b"what this warehouse took isn't what its payments were",
        Condition::DistrictPayments => b"what this district took isn't what its payments were",
    }
}

/// The number of the condition that a line tells of; 0 where it tells of none.
fn condition_number(line: &[u8]) -> usize {
    let mut number: usize = 0;
    if let Some(told) = line.strip_prefix(b"condition ".as_slice()) {
        for byte in told {
            if !byte.is_ascii_digit() {
                break;
            }
            number = number
                .saturating_mul(10)
                .saturating_add((*byte - b'0') as usize);
        }
    }
    number
}

/// The condition that a line tells to be false.
fn false_condition(line: &[u8]) -> Option<Condition> {
    if line.ends_with(b" true") {
        return None;
    }
    let at = condition_number(line).checked_sub(1)?;
    CONDITIONS.get(at).copied()
}

/// Says what is so where conditions are false, by the lines that are printed of them.
fn push_false(out: &mut Page, printed: &[u8]) {
    for line in printed.split(|byte| *byte == b'\n') {
        if let Some(condition) = false_condition(line) {
            begin_note(out, line);
            out.push(false_text(condition));
            end_note(out, b"");
        }
    }
}

/// What is said of a workload with a call that its design hasn't.
const FOREIGN_CALL: &[u8] =
    b"the load that `acc tpcc load` prints, or else the mix of `acc tpcc mix`, has a call in that line that isn't one of the design";

/// Says that a design lacks a call of the workload, if a generated line of that is told as refused.
fn push_unfit(out: &mut Page, design: File, printed: &[u8]) {
    if printed.starts_with(b"refused script ") {
        push_note(
            out,
            design.name,
            FOREIGN_CALL,
            b"`acc tpcc design` prints a design that has all of their calls",
        );
    }
}

/// Says that an accepted design isn't the shipped booking design, if it is refused for that.
pub fn push_other(out: &mut Page, design: File, printed: &[u8]) {
    if printed.starts_with(b"refused schema ") {
        push_note(
            out,
            design.name,
            b"`booking verify` asks for the booking design that the program brings along, and this is another",
            b"`acc booking design` prints it; comments and blanks may differ, and nothing else",
        );
    }
}

/// Says which table of TPC-C an accepted design lacks, for which the command of the verb asks; or, where it has them all, which call of the
/// workload it lacks, or what is so where conditions are false.
pub fn push_verified(
    alloc: Global,
    out: &mut Page,
    d: &Design,
    design: File,
    verb: &[u8],
    printed: &[u8],
) -> Result<(), AllocError> {
    match schema(alloc, d) {
        Ok(_) => {
            push_unfit(out, design, printed);
            push_false(out, printed);
        }
        Err(SchemaError::Lacks(number)) => {
            if let Some(wanted) = SCHEMA.get(number as usize - 1) {
                push_lack(out, d, design, verb, *wanted);
            }
        }
        Err(SchemaError::Memory) => return Err(AllocError),
    }
    Ok(())
}
