//! The orders that each district has from the beginning.
ghost use Rattle.std.specs.Prelude.{◌≡◌, ◌≤◌};
ghost use Rattle.tpcc_gen.specs.Loads.{is_delivered, carrier, dated, amount, order_part, order_tape, order_line};
ghost use Rattle.tpcc_gen.specs.Writing.{Writes};

use crate::bounds::{MOST_CUSTOMERS, MOST_ITEMS};
use crate::pushes::{push_head, push_numbers};
use crate::scales::Scale;
use crate::words::Words;
use acc_page::Page;

/// Whether order o is delivered from the beginning: the first seven tenths are.
fn is_delivered(customers: u64, o: u64) -> bool
    requires customers { customers ≤ MOST_CUSTOMERS }
    requires order { o ≤ customers }
    ensures { result ≡ is_delivered customers o }
{
    10 * o <= 7 * customers
}

/// The carrier, and 0 where the order isn't delivered.
#[tactic(auto, unfolding(crate::specs::Loads::carrier))]
fn draw_carrier(words: &mut Words, delivered: bool) -> u64
    ensures value { result ≡ (carrier delivered words.old).0 }
    ensures moved { words.new ≡ (carrier delivered words.old).1 }
{
    if delivered { words.random(1, 10) } else { 0 }
}

/// 1 where an order's lines have a date of delivery, and 0 where they have none.
fn dated(delivered: bool) -> u64
    ensures { result ≡ dated delivered }
{
    if delivered { 1 } else { 0 }
}

/// The amount of a line in cents, and 0 where the order is delivered.
#[tactic(auto, unfolding(crate::specs::Loads::amount))]
fn draw_amount(words: &mut Words, delivered: bool) -> u64
    ensures value { result ≡ (amount delivered words.old).0 }
    ensures moved { words.new ≡ (amount delivered words.old).1 }
{
    if delivered {
        0
    } else {
        words.random(1, 999_999)
    }
}

/// Writes what a tape has of a line: an item, the supplier and an amount.
#[tactic(auto, unfolding(crate::specs::Loads::order_part))]
fn push_part(out: &mut Page, words: &mut Words, scale: Scale, w: u64, delivered: bool)
    ensures { Writes out.old words.old out.new words.new (order_part scale.items w delivered) }
{
    let item = words.random(1, scale.items);
    let cents = draw_amount(words, delivered);
    push_numbers(out, &[item, w, cents]);
}

/// Writes the tape of an order of so many lines.
fn push_parts(out: &mut Page, words: &mut Words, scale: Scale, w: u64, delivered: bool, count: u64)
    requires { count ≤ 15 }
    ensures { Writes out.old words.old out.new words.new (order_tape scale.items w delivered count) }
{
    for _line in 1..count + 1 {
        push_part(out, words, scale, w, delivered);
    }
}

/// Writes the line of order o of a district.
pub fn push_order(out: &mut Page, words: &mut Words, scale: Scale, w: u64, d: u64, o: u64)
    requires { o ≤ scale.customers }
    ensures { Writes out.old words.old out.new words.new (order_line scale.items scale.customers w d o) }
{
    let delivered = is_delivered(scale.customers, o);
    let count = words.random(5, 15);
    let carrier = draw_carrier(words, delivered);
    let customer = scale.customers + 1 - o;
    let flag = dated(delivered);
    push_head(out, b"ldorder", &[w, d, customer, count, 1, carrier, flag]);
    push_parts(out, words, scale, w, delivered, count);
    out.push(b"\n");
}
