//! What the entry for a held point and a step leaves to be shown.
ghost use Rattle.std.specs.Prelude.{◌≡◌, ⊤, [], ◌∷◌, ◌++◌, map, All, IfOk, OnOk, MatchOption, option_copied};
ghost use Rattle.acc_oblig.specs.Settings.{last_now};
ghost use Rattle.acc_oblig.specs.Spares.{is_for, entry_for, pair_lin, pairs_differ};
ghost use Rattle.acc_oblig_places.specs.Rooms.{HasFewLocals, IsSmallEntry};
ghost use Rattle.acc_oblig_clauses.specs.Seen.{seen, HasRoom};
ghost use Rattle.acc_oblig_paths.specs.Openings.{judged_among, open_by};

use acc_base::designs::{At, Entry, Side};
use acc_base::forms::{Lin, Rel};
use acc_base::sequences::Seq;
use acc_oblig_clauses::{Setting, last_names, step_vars};
use acc_oblig_goals::not_all_none;
use acc_oblig_places::places::PathPlace;
use std::alloc::{AllocError, Global};

/// Whether an entry is for a held point and a step.
fn is_for(held: At, step: At, side: Side, e: &Entry) -> bool
    ensures { result ≡ is_for held step side e.now }
{
    e.held == held && e.step == step && e.side == side
}

/// The entry for a held point and a step, if there is one.
fn entry_for(entries: &[Entry], held: At, step: At, side: Side) -> Option<&Entry>
    requires { All IsSmallEntry entries.now }
    ensures value { option_copied result ≡ entry_for entries.now held step side }
    ensures small { MatchOption result ⊤ (λ e. IsSmallEntry e.now) }
{
    for e in entries {
        if is_for(held, step, side, e) {
            return Some(e);
        }
    }
    None
}

/// The variable by which an entry judges a local of the step, where the locals have these after its reads.
fn judged_var(last: &Seq<u32>, side: Side, y: u32) -> u32
    ensures { result ≡ judged_among last.now side y }
{
    match side {
        Side::Undo => y,
        Side::Next => match last.as_slice().get(y as usize) {
            Some(x) => *x,
            None => 0,
        },
    }
}

/// The difference of a pair, the held local minus that of the step.
fn pair_lin(
    alloc: Global,
    s: &Setting<'_>,
    last: &Seq<u32>,
    side: Side,
    pair: (u32, u32),
) -> Result<Lin, AllocError>
    requires room { HasRoom s.now }
    requires last { last.now ≡ last_now (seen s.now) }
    requires few { HasFewLocals pair }
    ensures { IfOk result (λ l. l ≡ pair_lin (seen s.now) side pair) }
{
    let mut coeffs = Seq::new(alloc);
    coeffs.push((step_vars(s) + pair.0, 1))?;
    coeffs.push((judged_var(last, side, pair.1), -1))?;
    Ok(Lin {
        coeffs,
        constant: 0,
    })
}

/// Adds the differences of pairs.
fn add_pair_lins(
    alloc: Global,
    out: &mut Seq<Lin>,
    s: &Setting<'_>,
    side: Side,
    pairs: &[(u32, u32)],
) -> Result<(), AllocError>
    requires room { HasRoom s.now }
    requires few { All HasFewLocals pairs.now }
    ensures { OnOk result (out.new ≡ out.old ++ map (pair_lin (seen s.now) side) pairs.now) }
{
    let last = last_names(alloc, s)?;
    for pair in pairs {
        out.push(pair_lin(alloc, s, &last, side, *pair)?)?;
    }
    Ok(())
}

/// That a pair differs.
fn pairs_differ(
    alloc: Global,
    s: &Setting<'_>,
    side: Side,
    pairs: &[(u32, u32)],
) -> Result<Rel, AllocError>
    requires room { HasRoom s.now }
    requires few { All HasFewLocals pairs.now }
    ensures { IfOk result (λ r. r ≡ pairs_differ (seen s.now) side pairs.now) }
{
    let mut under = Seq::new(alloc);
    add_pair_lins(alloc, &mut under, s, side, pairs)?;
    not_all_none(alloc, under)
}

/// The relation that a pair differs, alone.
fn only_pairs(
    alloc: Global,
    s: &Setting<'_>,
    side: Side,
    pairs: &[(u32, u32)],
) -> Result<Seq<Rel>, AllocError>
    requires room { HasRoom s.now }
    requires few { All HasFewLocals pairs.now }
    ensures { IfOk result (λ rs. rs ≡ pairs_differ (seen s.now) side pairs.now ∷ []) }
{
    let mut rels = Seq::new(alloc);
    rels.push(pairs_differ(alloc, s, side, pairs)?)?;
    Ok(rels)
}

/// What an entry leaves to be shown.
fn open_by_entry(
    alloc: Global,
    s: &Setting<'_>,
    side: Side,
    e: &Entry,
) -> Result<Option<Seq<Rel>>, AllocError>
    requires room { HasRoom s.now }
    requires few { IsSmallEntry e.now }
    ensures { IfOk result (λ o. o ≡ open_by (seen s.now) side (Some e.now)) }
{
    if e.pairs.is_empty() {
        return Ok(None);
    }
    Ok(Some(only_pairs(alloc, s, side, e.pairs.as_slice())?))
}

/// What the entry for a held point and a path leaves to be shown: all where there is none, nothing where it has no pairs, else
/// what happens where a pair differs.
pub fn open_by(
    alloc: Global,
    entries: &[Entry],
    held: At,
    q: &PathPlace<'_>,
    s: &Setting<'_>,
) -> Result<Option<Seq<Rel>>, AllocError>
    requires room { HasRoom s.now }
    requires few { All IsSmallEntry entries.now }
    ensures { IfOk result (λ o. o ≡ open_by (seen s.now) q.now.side (entry_for entries.now held q.now.at q.now.side)) }
{
    match entry_for(entries, held, q.at, q.side) {
        None => Ok(Some(Seq::new(alloc))),
        Some(e) => open_by_entry(alloc, s, q.side, e),
    }
}
