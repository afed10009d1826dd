//! What the reads of a step assign.
ghost use Rattle.std.specs.Prelude.{◌≡◌, ◌<◌, ◌^◌, [], length, All, Some, None, pos, ◌*ℤ◌, ◌<ℤ◌, IfNone, IfSome};
ghost use Rattle.std.specs.Int.{int_div_euclid};
ghost use Rattle.acc_base.specs.Linear.{var, lin_value, lin_values};
ghost use Rattle.acc_base.specs.Reads.{at_after, unread, after_reads};
ghost use Rattle.acc_base.specs.Tables.{column_of, has_row, count_of, sum_of, least_of, greatest_of};
ghost use Rattle.acc_base.specs.Runnable.{IsKey, CanRead, IsSmallFrame};
ghost use Rattle.acc_step.specs.InRange.{value_read};
ghost use Rattle.acc_step.specs.ReadValues.{read_of};
ghost use Rattle.acc_step.specs.Variables.{values_of};

use crate::values::{in_range, key_in_range, linear_in_range, times, widened};
use crate::variables::Variables;
use acc_base::forms::Lin;
use acc_base::machines::Frame;
use acc_base::steps::Read;
use acc_store::Store;

/// A product of two variables.
fn product(y: u32, z: u32, variables: &Variables) -> i128
    ensures { result ≡ var (values_of variables.now) y *ℤ var (values_of variables.now) z }
{
    times(variables.value(y), variables.value(z))
}

/// A quotient, rounded down.
fn quotient(y: u32, c: i64, variables: &Variables) -> i128
    requires divisor { pos 0 <ℤ c }
    ensures { result ≡ int_div_euclid (var (values_of variables.now) y) c }
{
    divided(variables.value(y), c)
}

/// A quotient, rounded down.
fn divided(y: i64, c: i64) -> i128
    requires divisor { pos 0 <ℤ c }
    ensures { result ≡ int_div_euclid y c }
{
    widened(y.div_euclid(c))
}

/// The number of the tape at a place, which is 0 past its end.
fn taken(tape: &[i64], at: u32) -> i64
    ensures { result ≡ var tape.now at }
{
    match tape.get(at as usize) {
        Some(number) => *number,
        None => 0,
    }
}

/// A linear value, in range.
fn read_let(l: &Lin, variables: &Variables) -> Option<i64>
    ensures { result ≡ value_read [] (lin_value (values_of variables.now) l.now) }
{
    linear_in_range(l, variables)
}

/// A column, in range.
fn read_column<S: Store>(
    s: &S,
    table: u32,
    key: &[Lin],
    col: u32,
    variables: &Variables,
) -> Option<i64>
    requires key { IsKey key.now }
    ensures { result ≡ value_read (lin_values (values_of variables.now) key.now)
        (column_of (S.rows s.now) table (lin_values (values_of variables.now) key.now) col) }
{
    match key_in_range(key, variables) {
        Some(key) => in_range(s.get(table, key.as_slice(), col)),
        None => None,
    }
}

/// Whether there is a row, as a number.
fn row_there<S: Store>(s: &S, table: u32, key: &[i64]) -> i64
    ensures { result ≡ has_row (S.rows s.now) table key.now }
{
    if s.has(table, key) { 1 } else { 0 }
}

/// Whether there is a row, where its key is in range.
fn read_row<S: Store>(s: &S, table: u32, key: &[Lin], variables: &Variables) -> Option<i64>
    requires key { IsKey key.now }
    ensures { result ≡ value_read (lin_values (values_of variables.now) key.now)
        (has_row (S.rows s.now) table (lin_values (values_of variables.now) key.now)) }
{
    match key_in_range(key, variables) {
        Some(key) => in_range(widened(row_there(s, table, key.as_slice()))),
        None => None,
    }
}

/// A number of rows.
fn rows_counted<S: Store>(s: &S, table: u32, prefix: &[i64]) -> i128
    ensures { result ≡ count_of (S.rows s.now) table prefix.now }
{
    s.count(table, prefix) as i128
}

/// How many rows there are, in range.
fn read_count<S: Store>(s: &S, table: u32, prefix: &[Lin], variables: &Variables) -> Option<i64>
    requires key { IsKey prefix.now }
    ensures { result ≡ value_read (lin_values (values_of variables.now) prefix.now)
        (count_of (S.rows s.now) table (lin_values (values_of variables.now) prefix.now)) }
{
    match key_in_range(prefix, variables) {
        Some(key) => in_range(rows_counted(s, table, key.as_slice())),
        None => None,
    }
}

/// The sum of a column, in range.
fn read_sum<S: Store>(
    s: &S,
    table: u32,
    prefix: &[Lin],
    col: u32,
    variables: &Variables,
) -> Option<i64>
    requires key { IsKey prefix.now }
    ensures { result ≡ value_read (lin_values (values_of variables.now) prefix.now)
        (sum_of (S.rows s.now) table (lin_values (values_of variables.now) prefix.now) col) }
{
    match key_in_range(prefix, variables) {
        Some(key) => in_range(s.sum(table, key.as_slice(), col)),
        None => None,
    }
}

/// The least part after a prefix, in range.
fn read_least<S: Store>(s: &S, table: u32, prefix: &[Lin], variables: &Variables) -> Option<i64>
    requires key { IsKey prefix.now }
    ensures { result ≡ value_read (lin_values (values_of variables.now) prefix.now)
        (least_of (S.rows s.now) table (lin_values (values_of variables.now) prefix.now)) }
{
    match key_in_range(prefix, variables) {
        Some(key) => in_range(widened(s.least(table, key.as_slice()))),
        None => None,
    }
}

/// The greatest part after a prefix, in range.
fn read_greatest<S: Store>(s: &S, table: u32, prefix: &[Lin], variables: &Variables) -> Option<i64>
    requires key { IsKey prefix.now }
    ensures { result ≡ value_read (lin_values (values_of variables.now) prefix.now)
        (greatest_of (S.rows s.now) table (lin_values (values_of variables.now) prefix.now)) }
{
    match key_in_range(prefix, variables) {
        Some(key) => in_range(widened(s.greatest(table, key.as_slice()))),
        None => None,
    }
}

/// What a read assigns, if its numbers are in range.
fn read_one<S: Store>(
    s: &S,
    read: &Read,
    variables: &Variables,
    tape: &[i64],
    at: u32,
) -> Option<i64>
    requires can { CanRead read.now }
    ensures { result ≡ read_of (S.rows s.now) tape.now at (values_of variables.now) read.now }
{
    match read {
        Read::Let(_, l) => read_let(l, variables),
        Read::Col(_, table, key, col) => read_column(s, *table, key.as_slice(), *col, variables),
        Read::Has(_, table, key) => read_row(s, *table, key.as_slice(), variables),
        Read::Count(_, table, prefix) => read_count(s, *table, prefix.as_slice(), variables),
        Read::Sum(_, table, prefix, col) => {
            read_sum(s, *table, prefix.as_slice(), *col, variables)
        }
        Read::Least(_, table, prefix) => read_least(s, *table, prefix.as_slice(), variables),
        Read::Greatest(_, table, prefix) => read_greatest(s, *table, prefix.as_slice(), variables),
        Read::Take(_) => in_range(widened(taken(tape, at))),
        Read::Mul(_, y, z) => in_range(product(*y, *z, variables)),
        Read::Div(_, y, c) => in_range(quotient(*y, *c, variables)),
    }
}

/// The place on the tape after a read.
fn place_after(tape: &[i64], at: u32, read: &Read) -> u32
    requires few { length tape.now < 2 ^ 32 }
    ensures { result ≡ at_after (length tape.now) at read.now }
{
    match read {
        Read::Take(_) => {
            if (at as usize) < tape.len() {
                at + 1
            } else {
                at
            }
        }
        Read::Let(_, _)
        | Read::Col(_, _, _, _)
        | Read::Has(_, _, _)
        | Read::Count(_, _, _)
        | Read::Sum(_, _, _, _)
        | Read::Least(_, _, _)
        | Read::Greatest(_, _, _)
        | Read::Mul(_, _, _)
        | Read::Div(_, _, _) => at,
    }
}

/// The reads of a step, one after the other: they assign the locals, and give the place on the tape, if their numbers are in range.
pub fn take_reads<S: Store>(
    s: &S,
    f: &Frame,
    reads: &[Read],
    variables: &mut Variables,
) -> Option<u32>
    requires fits { IsSmallFrame f.now }
    requires can { All CanRead reads.now }
    requires locals { variables.old.locals ≡ f.now.locals }
    requires number { variables.old.number ≡ f.now.t }
    ensures none { IfNone result (after_reads (S.rows s.now) f.now reads.now (unread f.now) ≡ None) }
    ensures some { IfSome result (λ at. after_reads (S.rows s.now) f.now reads.now (unread f.now)
        ≡ Some (record { locals = variables.new.locals; at = at })) }
    ensures number { variables.new.number ≡ f.now.t }
    ensures kept { length variables.new.locals ≡ length f.now.locals }
{
    let tape = f.tape.as_slice();
    let mut at = f.pos;
    for read in reads {
        let value = read_one(s, read, variables, tape, at)?;
        variables.assign(read.assigned(), value);
        at = place_after(tape, at, read);
    }
    Some(at)
}
