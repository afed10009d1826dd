//! What is loaded for each district.
ghost use Rattle.std.specs.Prelude.{◌≡◌, ◌≤◌};
ghost use Rattle.tpcc_gen.specs.Draws.{each};
ghost use Rattle.tpcc_gen.specs.Loads.{runs, order_line, district_line, customers_line, district_part, districts_part, all_districts};
ghost use Rattle.tpcc_gen.specs.Writing.{Writes};

use crate::first_orders::push_order;
use crate::pushes::{push_head, push_line};
use crate::runs::{push_run, run_count, run_of};
use crate::scales::Scale;
use crate::words::Words;
use acc_page::Page;

/// Districts of a warehouse.
const DISTRICTS: u64 = 10;

/// A part of the load that is made district by district.
#[derive(Clone, Copy)]
pub enum Part {
    /// The district itself.
    Districts,
    /// Its customers.
    Customers,
    /// Its first orders.
    Orders,
}

#[tactic(auto, unfolding(crate::specs::Loads::district_line))]
fn push_district(out: &mut Page, words: &mut Words, w: u64, d: u64)
    ensures { Writes out.old words.old out.new words.new (district_line w d) }
{
    let tax = words.random(0, 2000);
    push_line(out, b"lddist", &[w, d, tax]);
}

/// Writes the line of a run of customers.
fn push_customers(out: &mut Page, words: &mut Words, scale: Scale, w: u64, d: u64, r: u64)
    requires some { 1 ≤ r }
    requires within { r ≤ runs scale.customers }
    ensures { Writes out.old words.old out.new words.new (customers_line scale.customers w d r) }
{
    let run = run_of(scale.customers, r);
    push_head(out, b"ldcust", &[w, d, run.count]);
    push_run(out, words, 0, 5000, run);
    out.push(b"\n");
}

/// Writes the lines of a district's customers.
fn push_all_customers(out: &mut Page, words: &mut Words, scale: Scale, w: u64, d: u64)
    ensures { Writes out.old words.old out.new words.new (each (customers_line scale.customers w d) (runs scale.customers) 1) }
{
    let count = run_count(scale.customers);
    for r in 1..count + 1 {
        push_customers(out, words, scale, w, d, r);
    }
}

/// Writes the lines of a district's first orders.
fn push_orders(out: &mut Page, words: &mut Words, scale: Scale, w: u64, d: u64)
    ensures { Writes out.old words.old out.new words.new (each (order_line scale.items scale.customers w d) scale.customers 1) }
{
    for o in 1..scale.customers + 1 {
        push_order(out, words, scale, w, d, o);
    }
}

/// Writes a part for one district.
#[tactic(auto, unfolding(crate::specs::Loads::district_part))]
fn push_part(out: &mut Page, words: &mut Words, scale: Scale, part: Part, w: u64, d: u64)
    ensures { Writes out.old words.old out.new words.new (district_part part scale.items scale.customers w d) }
{
    match part {
        Part::Districts => push_district(out, words, w, d),
        Part::Customers => push_all_customers(out, words, scale, w, d),
        Part::Orders => push_orders(out, words, scale, w, d),
    }
}

/// Writes a part for each district of a warehouse.
fn push_parts(out: &mut Page, words: &mut Words, scale: Scale, part: Part, w: u64)
    ensures { Writes out.old words.old out.new words.new (districts_part part scale.items scale.customers w) }
{
    for d in 1..DISTRICTS + 1 {
        push_part(out, words, scale, part, w, d);
    }
}

/// Writes a part for each district of each warehouse.
pub fn push_all_districts(out: &mut Page, words: &mut Words, scale: Scale, part: Part)
    ensures { Writes out.old words.old out.new words.new (all_districts part scale.warehouses scale.items scale.customers) }
{
    for w in 1..scale.warehouses + 1 {
        push_parts(out, words, scale, part, w);
    }
}
