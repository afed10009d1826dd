//! The script of a load.
ghost use Rattle.std.specs.Prelude.{◌≡◌, ◌≤◌, ◌<◌, ◌^◌, length, IfOk};
ghost use Rattle.tpcc_gen.specs.Bounds.{IsScale};
ghost use Rattle.tpcc_gen.specs.Draws.{each};
ghost use Rattle.tpcc_gen.specs.Loads.{runs, warehouse_line, items_line, stock_line, stock_of, load, load_text};
ghost use Rattle.tpcc_gen.specs.Writing.{Writes};

use crate::districts::{Part, push_all_districts};
use crate::pushes::{push_head, push_line};
use crate::runs::{push_run, run_count, run_of};
use crate::scales::Scale;
use crate::words::Words;
use acc_page::Page;
use std::alloc::{AllocError, Global};

#[tactic(auto, unfolding(crate::specs::Loads::warehouse_line))]
fn push_warehouse(out: &mut Page, words: &mut Words, w: u64)
    ensures { Writes out.old words.old out.new words.new (warehouse_line w) }
{
    let tax = words.random(0, 2000);
    push_line(out, b"ldwh", &[w, tax]);
}

fn push_warehouses(out: &mut Page, words: &mut Words, scale: Scale)
    ensures { Writes out.old words.old out.new words.new (each warehouse_line scale.warehouses 1) }
{
    for w in 1..scale.warehouses + 1 {
        push_warehouse(out, words, w);
    }
}

/// Writes the line of a run of items.
fn push_items(out: &mut Page, words: &mut Words, scale: Scale, r: u64)
    requires some { 1 ≤ r }
    requires within { r ≤ runs scale.items }
    ensures { Writes out.old words.old out.new words.new (items_line scale.items r) }
{
    let run = run_of(scale.items, r);
    push_head(out, b"lditem", &[run.count]);
    push_run(out, words, 100, 10_000, run);
    out.push(b"\n");
}

fn push_all_items(out: &mut Page, words: &mut Words, scale: Scale)
    ensures { Writes out.old words.old out.new words.new (each (items_line scale.items) (runs scale.items) 1) }
{
    let count = run_count(scale.items);
    for r in 1..count + 1 {
        push_items(out, words, scale, r);
    }
}

/// Writes the line of a warehouse's stock of a run of items.
fn push_stock(out: &mut Page, words: &mut Words, scale: Scale, w: u64, r: u64)
    requires some { 1 ≤ r }
    requires within { r ≤ runs scale.items }
    ensures { Writes out.old words.old out.new words.new (stock_line scale.items w r) }
{
    let run = run_of(scale.items, r);
    push_head(out, b"ldstock", &[w, run.count]);
    push_run(out, words, 10, 100, run);
    out.push(b"\n");
}

/// Writes the lines of a warehouse's stock.
fn push_stock_of(out: &mut Page, words: &mut Words, scale: Scale, w: u64)
    ensures { Writes out.old words.old out.new words.new (stock_of scale.items w) }
{
    let count = run_count(scale.items);
    for r in 1..count + 1 {
        push_stock(out, words, scale, w, r);
    }
}

fn push_all_stock(out: &mut Page, words: &mut Words, scale: Scale)
    ensures { Writes out.old words.old out.new words.new (each (stock_of scale.items) scale.warehouses 1) }
{
    for w in 1..scale.warehouses + 1 {
        push_stock_of(out, words, scale, w);
    }
}

/// Writes the load, part by part.
fn push_load(out: &mut Page, words: &mut Words, scale: Scale)
    ensures { Writes out.old words.old out.new words.new (load scale.warehouses scale.items scale.customers) }
{
    push_warehouses(out, words, scale);
    push_all_districts(out, words, scale, Part::Districts);
    push_all_items(out, words, scale);
    push_all_stock(out, words, scale);
    push_all_districts(out, words, scale, Part::Customers);
    push_all_districts(out, words, scale, Part::Orders);
}

/// The script of a load.
fn written(alloc: Global, scale: Scale) -> Result<Vec<u8>, AllocError>
    ensures { IfOk result (λ text. text.items ≡ load_text scale.warehouses scale.items scale.customers) }
{
    let mut out = Page::new(alloc);
    push_load(&mut out, &mut Words::new(1), scale);
    out.finish().ok_or(AllocError)
}

/// The script that loads so many warehouses (1 to 10), items (1 to 100,000), and customers of each district (1 to 3,000). It is the
/// same at each call. Its one error is want of memory.
pub fn load(
    alloc: Global,
    warehouses: u64,
    items: u64,
    customers: u64,
) -> Result<Vec<u8>, AllocError>
    requires { IsScale warehouses items customers }
    ensures text { IfOk result (λ text. text.items ≡ load_text warehouses items customers) }
    ensures short { IfOk result (λ text. length text.items < 2 ^ 27) }
{
    written(
        alloc,
        Scale {
            warehouses,
            items,
            customers,
        },
    )
}
