//! The script of a mix.
ghost use Rattle.std.specs.Prelude.{◌≡◌, ◌≤◌, ◌<◌, ◌^◌, length, IfOk};
ghost use Rattle.tpcc_gen.specs.Bounds.{IsScale, IsMix};
ghost use Rattle.tpcc_gen.specs.Mixes.{payment_line, order_status_line, delivery_line, stock_level_line, kind_line, place_line, mix, mix_text};
ghost use Rattle.tpcc_gen.specs.Writing.{Writes};

use crate::bounds::MOST_TRANSACTIONS;
use crate::homes::{District, draw_customer, draw_district, draw_payer};
use crate::kinds::{Kind, kind_of};
use crate::new_orders::push_new_order;
use crate::pushes::push_line;
use crate::scales::Scale;
use crate::words::Words;
use acc_page::Page;
use std::alloc::{AllocError, Global};

#[tactic(auto, unfolding(crate::specs::Mixes::payment_line))]
fn push_payment(out: &mut Page, words: &mut Words, scale: Scale, w: u64)
    ensures { Writes out.old words.old out.new words.new (payment_line scale.warehouses scale.customers w) }
{
    let d = draw_district(words);
    let home = draw_payer(
        words,
        scale,
        District {
            warehouse: w,
            number: d,
        },
    );
    let c = draw_customer(words, scale);
    let cents = words.random(100, 500_000);
    push_line(
        out,
        b"payment",
        &[w, d, home.warehouse, home.number, c, cents],
    );
}

#[tactic(auto, unfolding(crate::specs::Mixes::order_status_line))]
fn push_order_status(out: &mut Page, words: &mut Words, scale: Scale, w: u64)
    ensures { Writes out.old words.old out.new words.new (order_status_line scale.customers w) }
{
    let d = draw_district(words);
    let c = draw_customer(words, scale);
    push_line(out, b"orderstatus", &[w, d, c]);
}

#[tactic(auto, unfolding(crate::specs::Mixes::delivery_line))]
fn push_delivery(out: &mut Page, words: &mut Words, place: u64, w: u64)
    ensures { Writes out.old words.old out.new words.new (delivery_line place w) }
{
    let carrier = words.random(1, 10);
    push_line(out, b"delivery", &[w, carrier, place]);
}

#[tactic(auto, unfolding(crate::specs::Mixes::stock_level_line))]
fn push_stock_level(out: &mut Page, words: &mut Words, w: u64)
    ensures { Writes out.old words.old out.new words.new (stock_level_line w) }
{
    let d = draw_district(words);
    let threshold = words.random(10, 20);
    push_line(out, b"stocklevel", &[w, d, threshold]);
}

/// Writes the line of a kind, for a warehouse.
#[tactic(auto, unfolding(crate::specs::Mixes::kind_line))]
fn push_kind(out: &mut Page, words: &mut Words, scale: Scale, place: u64, kind: Kind, w: u64)
    ensures { Writes out.old words.old out.new words.new
        (kind_line scale.warehouses scale.items scale.customers place kind w) }
{
    match kind {
        Kind::NewOrder => push_new_order(out, words, scale, place, w),
        Kind::Payment => push_payment(out, words, scale, w),
        Kind::OrderStatus => push_order_status(out, words, scale, w),
        Kind::Delivery => push_delivery(out, words, place, w),
        Kind::StockLevel => push_stock_level(out, words, w),
    }
}

/// Writes the line of a place.
#[tactic(auto, unfolding(crate::specs::Mixes::place_line))]
fn push_place(out: &mut Page, words: &mut Words, scale: Scale, place: u64)
    ensures { Writes out.old words.old out.new words.new (place_line scale.warehouses scale.items scale.customers place) }
{
    let kind = kind_of(words.random(1, 100));
    let w = words.random(1, scale.warehouses);
    push_kind(out, words, scale, place, kind, w);
}

/// Writes a line each place.
pub fn push_mix(out: &mut Page, words: &mut Words, scale: Scale, count: u64)
    requires { count ≤ MOST_TRANSACTIONS }
    ensures { Writes out.old words.old out.new words.new (mix scale.warehouses scale.items scale.customers count) }
{
    for place in 1..count + 1 {
        push_place(out, words, scale, place);
    }
}

/// The script of a mix.
fn written(alloc: Global, scale: Scale, count: u64, start: u64) -> Result<Vec<u8>, AllocError>
    requires { count ≤ MOST_TRANSACTIONS }
    ensures { IfOk result (λ text. text.items ≡ mix_text scale.warehouses scale.items scale.customers count start) }
{
    let mut out = Page::new(alloc);
    push_mix(&mut out, &mut Words::new(start), scale, count);
    out.finish().ok_or(AllocError)
}

/// The script of a mix of so many transactions (0 to 20,000) over so many warehouses, items and customers of each district, as `load`
/// loads them, drawn from the number `start` (0 to 2^45). Its one error is want of memory.
pub fn mix(
    alloc: Global,
    warehouses: u64,
    items: u64,
    customers: u64,
    count: u64,
    start: u64,
) -> Result<Vec<u8>, AllocError>
    requires scale { IsScale warehouses items customers }
    requires mix { IsMix count start }
    ensures text { IfOk result (λ text. text.items ≡ mix_text warehouses items customers count start) }
    ensures short { IfOk result (λ text. length text.items < 2 ^ 24) }
{
    let scale = Scale {
        warehouses,
        items,
        customers,
    };
    written(alloc, scale, count, start)
}
