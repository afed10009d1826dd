//! The line of a New-Order.
ghost use Rattle.std.specs.Prelude.{◌≡◌, ◌≤◌};
ghost use Rattle.tpcc_gen.specs.Draws.{each};
ghost use Rattle.tpcc_gen.specs.Mixes.{drawn_lines, item, new_order_part, new_order_line};
ghost use Rattle.tpcc_gen.specs.Writing.{Writes};

use crate::homes::{draw_customer, draw_district, draw_supplier};
use crate::pushes::{push_head, push_numbers};
use crate::scales::Scale;
use crate::words::Words;
use acc_page::Page;

/// How many lines an order has, and whether its last item is an unused one.
#[derive(Clone, Copy)]
pub struct Lines {
    pub count: u64,
    pub fails: bool,
}

/// The item of line k.
#[tactic(auto, unfolding(crate::specs::Mixes::item))]
fn draw_item(words: &mut Words, scale: Scale, lines: Lines, k: u64) -> u64
    ensures value { result ≡ (item scale.items lines k words.old).0 }
    ensures moved { words.new ≡ (item scale.items lines k words.old).1 }
{
    let drawn = words.uneven(8191, 1, scale.items);
    if lines.fails && k == lines.count {
        scale.items + 1
    } else {
        drawn
    }
}

/// Writes what a tape has of line k: an item, its supplier and a number of pieces.
#[tactic(auto, unfolding(crate::specs::Mixes::new_order_part))]
fn push_part(out: &mut Page, words: &mut Words, scale: Scale, w: u64, lines: Lines, k: u64)
    ensures { Writes out.old words.old out.new words.new
        (new_order_part scale.warehouses scale.items w lines k) }
{
    let thing = draw_item(words, scale, lines, k);
    let supplier = draw_supplier(words, scale, w);
    let pieces = words.random(1, 10);
    push_numbers(out, &[thing, supplier, pieces]);
}

/// Writes the tape of an order.
fn push_parts(out: &mut Page, words: &mut Words, scale: Scale, w: u64, lines: Lines)
    requires { lines.count ≤ 15 }
    ensures { Writes out.old words.old out.new words.new
        (each (new_order_part scale.warehouses scale.items w lines) lines.count 1) }
{
    for k in 1..lines.count + 1 {
        push_part(out, words, scale, w, lines, k);
    }
}

/// How many lines there are, and whether the order fails.
#[tactic(auto, unfolding(crate::specs::Mixes::drawn_lines))]
fn draw_lines(words: &mut Words) -> Lines
    ensures value { result ≡ (drawn_lines words.old).0 }
    ensures moved { words.new ≡ (drawn_lines words.old).1 }
    ensures few { result.count ≤ 15 }
{
    let count = words.random(5, 15);
    let fails = words.random(1, 100) == 1;
    Lines { count, fails }
}

/// Writes the line of a New-Order at a place.
pub fn push_new_order(out: &mut Page, words: &mut Words, scale: Scale, place: u64, w: u64)
    ensures { Writes out.old words.old out.new words.new
        (new_order_line scale.warehouses scale.items scale.customers place w) }
{
    let d = draw_district(words);
    let c = draw_customer(words, scale);
    let lines = draw_lines(words);
    push_head(out, b"neworder", &[w, d, c, lines.count, place]);
    push_parts(out, words, scale, w, lines);
    out.push(b"\n");
}
