//! The consistency conditions of TPC-C, tried on the rows of a store.
ghost use Rattle.std.specs.Prelude.{◌≡◌, ◌≤◌, ◌&&◌, false, is_none, length, None, Some, IfOk};
ghost use Rattle.acc_base.specs.Tables.{IsInOrder};
ghost use Rattle.acc_page.specs.Written.{Adds};
ghost use Rattle.acc_store.specs.Rows.{SumsFit};
ghost use Rattle.acc_journalled.specs.Conditions.{false_key, condition_line, conditions_text, ending_by, EndsByRows};

use crate::answers::{Answer, Ending};
use acc_base::tables::{Key, Plain};
use acc_dump::push_parts;
use acc_page::Page;
use acc_store::{Store, StoreError};
use std::alloc::{AllocError, Global};
use tpcc_tables::kinds::CONDITIONS;
use tpcc_tables::{CheckError, TableSet, condition};

/// Writes the line of a condition with this number that the key shows to be false.
pub fn push_false(out: &mut Page, number: u32, key: &Key)
    ensures { Adds out.old out.new (condition_line number (Some key.now)) }
{
    out.push(b"condition ");
    out.push_number(number);
    out.push(b" false");
    push_parts(out, key.parts.as_slice());
    out.push(b"\n");
}

/// Writes the line of a condition with this number that is true.
fn push_true(out: &mut Page, number: u32)
    ensures { Adds out.old out.new (condition_line number None) }
{
    out.push(b"condition ");
    out.push_number(number);
    out.push(b" true\n");
}

/// Writes the line of the condition with this number: that it is true, or the key that shows it to be false.
fn push_condition(out: &mut Page, number: u32, found: &Option<Key>)
    ensures { Adds out.old out.new (condition_line number found.now) }
{
    match found {
        Some(key) => push_false(out, number, key),
        None => push_true(out, number),
    }
}

/// The key of the first row that shows the condition with this number to be false, and none where it is true.
pub fn key_against(
    alloc: Global,
    s: &TableSet,
    number: u32,
    rows: &Plain,
) -> Result<Option<Key>, AllocError>
    requires whole { length s.now.tables ≡ 11 }
    requires from { 1 ≤ number }
    requires to { number ≤ 9 }
    requires order { IsInOrder rows.now.rows }
    requires fits { SumsFit rows.now.rows }
    ensures { IfOk result (λ found. found ≡ false_key s.now rows.now.rows number) }
{
    match condition(alloc, s, number, rows) {
        Ok(found) => Ok(found),
        Err(CheckError::Memory) => Err(AllocError),
    }
}

/// How a command ends by the conditions.
fn ending_by(all_true: bool) -> Ending
    ensures { result ≡ ending_by all_true }
{
    if all_true {
        Ending::Done
    } else {
        Ending::ConditionFalse
    }
}

/// What is told of the conditions, and whether each is true.
#[derive(Drop)]
struct Verdicts {
    text: Page,
    all_true: bool,
}

/// Whether those that were tried are true, and no key shows one more to be false.
fn stays_true(all_true: bool, found: &Option<Key>) -> bool
    ensures { result ≡ (all_true && is_none found.now) }
{
    all_true && found.is_none()
}

/// Tries each condition on rows, and tells of each whether it is true.
fn judge_rows(alloc: Global, s: &TableSet, rows: &Plain) -> Result<Verdicts, AllocError>
    requires whole { length s.now.tables ≡ 11 }
    requires order { IsInOrder rows.now.rows }
    requires fits { SumsFit rows.now.rows }
    ensures text { IfOk result (λ v. v.text.cut ≡ false → v.text.text ≡ conditions_text s.now rows.now.rows) }
    ensures ending { IfOk result (λ v. EndsByRows s.now rows.now.rows (ending_by v.all_true)) }
{
    let mut text = Page::new(alloc);
    let mut all_true = true;
    for at in 0..CONDITIONS.len() as u32 {
        let found = key_against(alloc, s, at + 1, rows)?;
        all_true = stays_true(all_true, &found);
        push_condition(&mut text, at + 1, &found);
    }
    Ok(Verdicts { text, all_true })
}

/// How a command ends that tries each condition on rows, and what it prints.
fn judge(alloc: Global, s: &TableSet, rows: &Plain) -> Result<Answer, AllocError>
    requires whole { length s.now.tables ≡ 11 }
    requires order { IsInOrder rows.now.rows }
    requires fits { SumsFit rows.now.rows }
    ensures text { IfOk result (λ a. a.text.items ≡ conditions_text s.now rows.now.rows) }
    ensures ending { IfOk result (λ a. EndsByRows s.now rows.now.rows a.ending) }
{
    let Verdicts { text, all_true } = judge_rows(alloc, s, rows)?;
    let ending = ending_by(all_true);
    match text.finish() {
        Some(text) => Ok(Answer { ending, text }),
        None => Err(AllocError),
    }
}

/// Tries each condition on the rows of a store, and tells of each whether it is true.
pub fn judge_store<S: Store>(alloc: Global, s: &TableSet, store: &S) -> Result<Answer, AllocError>
    requires whole { length s.now.tables ≡ 11 }
    requires order { IsInOrder (S.rows store.now) }
    requires fits { SumsFit (S.rows store.now) }
    ensures text { IfOk result (λ a. a.text.items ≡ conditions_text s.now (S.rows store.now)) }
    ensures ending { IfOk result (λ a. EndsByRows s.now (S.rows store.now) a.ending) }
{
    match store.rows(alloc) {
        Ok(rows) => judge(alloc, s, &rows),
        Err(StoreError::Memory) => Err(AllocError),
    }
}
