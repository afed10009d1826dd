//! Types, entries and whole designs.
ghost use Rattle.std.specs.Prelude.{◌≡◌, IfOk, codes};
ghost use Rattle.std.specs.List.{flat_map};
ghost use Rattle.acc_page.specs.Written.{Adds};
ghost use Rattle.acc_print.specs.Lists.{listed};
ghost use Rattle.acc_print.specs.Designs.{scope_at, pair_text};
ghost use Rattle.acc_draw.specs.Pictures.{cluster_line, label_line, type_head, type_nodes, type_picture};
ghost use Rattle.acc_draw.specs.Pictures.{entry_label, at_node, entry_arrow, opening_lines, drawn};

use crate::nodes::{push_end_line, push_point_lines, push_quoted, push_two_words};
use crate::paths::{push_arrows, side_word};
use acc_base::designs::{At, Design, Entry, TxType};
use acc_page::{Page, push_at};
use acc_print::{PrintError, push_pair_of};
use std::alloc::Global;

#[tactic(auto, unfolding(crate::specs::Pictures::cluster_line))]
fn push_cluster(out: &mut Page, name: &[u8])
    ensures { Adds out.old out.new (cluster_line name.now) }
{
    out.push(b"subgraph ");
    push_two_words(out, b"cluster", name);
    out.push(b" {\n")
}

#[tactic(auto, unfolding(crate::specs::Pictures::label_line))]
fn push_label(out: &mut Page, name: &[u8])
    ensures { Adds out.old out.new (label_line name.now) }
{
    out.push(b"label=");
    push_quoted(out, name);
    out.push(b"\n")
}

#[tactic(auto, unfolding(crate::specs::Pictures::type_head))]
fn push_head(out: &mut Page, ty: &TxType)
    ensures { Adds out.old out.new (type_head ty.now) }
{
    push_cluster(out, ty.name.as_slice());
    push_label(out, ty.name.as_slice())
}

#[tactic(auto, unfolding(crate::specs::Pictures::type_nodes))]
fn push_nodes(out: &mut Page, ty: &TxType)
    ensures { Adds out.old out.new (type_nodes ty.now) }
{
    push_point_lines(out, ty.name.as_slice(), ty.points.as_slice());
    push_end_line(out, ty.name.as_slice(), b"committed");
    push_end_line(out, ty.name.as_slice(), b"compensated")
}

/// A type, as a cluster of its points and ends with the arrows between them.
#[tactic(auto, unfolding(crate::specs::Pictures::type_picture))]
fn push_type(out: &mut Page, ty: &TxType)
    ensures { Adds out.old out.new (type_picture ty.now) }
{
    push_head(out, ty);
    push_nodes(out, ty);
    push_arrows(out, ty, ty.points.as_slice());
    out.push(b"}\n")
}

fn push_types(out: &mut Page, types: &[TxType])
    ensures { Adds out.old out.new (flat_map type_picture types.now) }
{
    for ty in types {
        push_type(out, ty);
    }
}

fn push_pairs(out: &mut Page, d: &Design, entry: &Entry)
    ensures { Adds out.old out.new (listed (pair_text (scope_at d.now entry.now.held).names (scope_at d.now entry.now.step).names)
        (codes " : ") entry.now.pairs) }
{
    let mut before: &[u8] = b" : ";
    for pair in entry.pairs.as_slice() {
        out.push(before);
        push_pair_of(out, d, entry.held, entry.step, *pair);
        before = b", ";
    }
}

#[tactic(auto, unfolding(crate::specs::Pictures::entry_label))]
fn push_entry_label(out: &mut Page, d: &Design, entry: &Entry)
    ensures { Adds out.old out.new (entry_label d.now entry.now) }
{
    out.push(b"\"");
    out.push(side_word(entry.side));
    push_pairs(out, d, entry);
    out.push(b"\"")
}

/// A point of a design, as `TYPE.POINT` in quotes.
#[tactic(auto, unfolding(crate::specs::Pictures::at_node))]
fn push_at_node(out: &mut Page, d: &Design, at: At)
    ensures { Adds out.old out.new (at_node d.now at) }
{
    out.push(b"\"");
    push_at(out, d, at);
    out.push(b"\"")
}

/// The arrow of an entry.
#[tactic(auto, unfolding(crate::specs::Pictures::entry_arrow))]
fn push_entry(out: &mut Page, d: &Design, entry: &Entry)
    ensures { Adds out.old out.new (entry_arrow d.now entry.now) }
{
    push_at_node(out, d, entry.held);
    out.push(b" -> ");
    push_at_node(out, d, entry.step);
    out.push(b" [label=");
    push_entry_label(out, d, entry);
    out.push(b", style=dotted, color=red, fontcolor=red, constraint=false]\n")
}

fn push_entries(out: &mut Page, d: &Design, entries: &[Entry])
    ensures { Adds out.old out.new (flat_map (entry_arrow d.now) entries.now) }
{
    for entry in entries {
        push_entry(out, d, entry);
    }
}

/// How the picture begins.
#[tactic(auto, unfolding(crate::specs::Pictures::opening_lines))]
fn push_opening(out: &mut Page)
    ensures { Adds out.old out.new opening_lines }
{
    out.push(b"digraph design {\nrankdir=LR\nnode [shape=box]\n")
}

#[tactic(auto, unfolding(crate::specs::Pictures::drawn))]
fn push_design(out: &mut Page, d: &Design)
    ensures { Adds out.old out.new (drawn d.now) }
{
    push_opening(out);
    push_types(out, d.types.as_slice());
    push_entries(out, d, d.entries.as_slice());
    out.push(b"}\n")
}

/// The picture of a design, in DOT: a cluster a type, with a box a point and its two ends; an arrow a path, dashed where its step undoes;
/// a dotted red arrow an entry, from the point that is held to the point whose step waits. The cost is that of going over the design and
/// the text.
///
/// `Memory` where memory ran out.
pub fn draw(alloc: Global, d: &Design) -> Result<Vec<u8>, PrintError>
    ensures value { IfOk result (λ text. text.items ≡ drawn d.now) }
{
    let mut out = Page::new(alloc);
    push_design(&mut out, d);
    out.finish().ok_or(PrintError::Memory)
}
