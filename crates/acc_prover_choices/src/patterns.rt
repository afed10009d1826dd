//! The table atoms of a hypothesis as patterns, the targets that fit them, and the patterns that are taken.
ghost use Rattle.std.specs.Prelude.{◌≡◌, ◌+◌, ◌<◌, ◌^◌, [], IfOk, OnOk};
ghost use Rattle.std.specs.List.{fold, list_all, list_any};
ghost use Rattle.acc_prover_choices.specs.Choices.{places_of, is_there, is_whole, reaches, fits, place_at, has_place, is_had, new_place, news_of};
ghost use Rattle.acc_prover_choices.specs.Choices.{have_all};
ghost use Rattle.acc_prover_choices.specs.Walks.{patterns_in, take_pattern, has_targets};

use crate::atoms::place_in;
use crate::targets::Target;
use acc_base::forms::Lin;
use acc_base::sequences::Seq;
use std::alloc::{AllocError, Global};

/// The table of an atom, and for each own variable the place of its key at which it stands alone.
#[derive(Drop)]
pub struct Pattern {
    pub table: u32,
    pub places: Seq<Option<usize>>,
}

/// A pattern that is taken, and its places without those of the variables that stand alone in patterns before it.
#[derive(Drop)]
pub struct Taken {
    pub pattern: Pattern,
    pub news: Seq<Option<usize>>,
}

/// For each of so many own variables, numbered from a first one on, the first place at which it stands alone.
#[tactic(auto, using(crate::proofs::Numbers::map_more))]
pub fn places_of(
    alloc: Global,
    first: u32,
    count: usize,
    key: &[Lin],
) -> Result<Seq<Option<usize>>, AllocError>
    requires { first + count < 2 ^ 32 }
    ensures { IfOk result (λ v. v ≡ places_of first count key.now) }
{
    let mut places = Seq::new(alloc);
    for i in 0..count {
        places.push(place_in(first + i as u32, key))?;
    }
    Ok(places)
}

fn all_there(places: &[Option<usize>]) -> bool
    ensures { result ≡ list_all is_there places.now }
{
    for place in places {
        if place.is_none() {
            return false;
        }
    }
    true
}

fn any_there(places: &[Option<usize>]) -> bool
    ensures { result ≡ list_any is_there places.now }
{
    for place in places {
        if place.is_some() {
            return true;
        }
    }
    false
}

/// Whether every own variable stands alone in a pattern.
pub fn is_whole(pattern: &Pattern) -> bool
    ensures { result ≡ is_whole pattern.now }
{
    all_there(pattern.places.as_slice())
}

fn reaches(len: usize, place: Option<usize>) -> bool
    ensures { result ≡ reaches len place }
{
    match place {
        None => true,
        Some(i) => i < len,
    }
}

fn all_reach(len: usize, places: &[Option<usize>]) -> bool
    ensures { result ≡ list_all (reaches len) places.now }
{
    for place in places {
        if !reaches(len, *place) {
            return false;
        }
    }
    true
}

/// Whether a target is of the pattern's table and has a component at each of its places.
pub fn fits(pattern: &Pattern, target: &Target) -> bool
    ensures { result ≡ fits pattern.now target.now }
{
    pattern.table == target.table && all_reach(target.key.len(), pattern.places.as_slice())
}

/// A variable's place, if it has one.
pub fn place_at(places: &[Option<usize>], i: usize) -> Option<usize>
    ensures { result ≡ place_at places.now i }
{
    match places.get(i) {
        Some(place) => *place,
        None => None,
    }
}

fn has_place(i: usize, pattern: &Pattern) -> bool
    ensures { result ≡ has_place i pattern.now }
{
    match place_at(pattern.places.as_slice(), i) {
        None => false,
        Some(_) => true,
    }
}

/// Whether the variable stands alone in a taken pattern.
fn is_had(taken: &[Taken], i: usize) -> bool
    ensures { result ≡ is_had (patterns_in taken.now) i }
{
    for one in taken {
        if has_place(i, &one.pattern) {
            return true;
        }
    }
    false
}

fn new_place(taken: &[Taken], places: &[Option<usize>], i: usize) -> Option<usize>
    ensures { result ≡ new_place (patterns_in taken.now) places.now i }
{
    if is_had(taken, i) {
        None
    } else {
        place_at(places, i)
    }
}

/// The places of the variables that stand alone in no taken pattern.
#[tactic(auto, using(crate::proofs::Numbers::map_one_more))]
fn news_of(
    alloc: Global,
    taken: &[Taken],
    places: &[Option<usize>],
) -> Result<Seq<Option<usize>>, AllocError>
    ensures { IfOk result (λ v. v ≡ news_of (patterns_in taken.now) places.now) }
{
    let mut news = Seq::new(alloc);
    for i in 0..places.len() {
        news.push(new_place(taken, places, i))?;
    }
    Ok(news)
}

fn copied_places(alloc: Global, places: &[Option<usize>]) -> Result<Seq<Option<usize>>, AllocError>
    ensures { IfOk result (λ v. v ≡ places.now) }
{
    let mut again = Seq::new(alloc);
    for place in places {
        again.push(*place)?;
    }
    Ok(again)
}

fn add_taken(alloc: Global, taken: &mut Vec<Taken>, pattern: &Pattern) -> Result<(), AllocError>
    ensures { OnOk result (taken.new.items ≡ take_pattern taken.old.items pattern.now) }
{
    let news = news_of(alloc, taken.as_slice(), pattern.places.as_slice())?;
    if !any_there(news.as_slice()) {
        return Ok(());
    }
    let pattern = Pattern {
        table: pattern.table,
        places: copied_places(alloc, pattern.places.as_slice())?,
    };
    taken.push(Taken { pattern, news })?;
    Ok(())
}

/// The patterns in which a variable stands alone that does so in none taken before.
pub fn taken_of(alloc: Global, patterns: &[Pattern]) -> Result<Vec<Taken>, AllocError>
    ensures { IfOk result (λ v. v.items ≡ fold take_pattern [] patterns.now) }
{
    let mut taken = Vec::new(alloc);
    for pattern in patterns {
        add_taken(alloc, &mut taken, pattern)?;
    }
    Ok(taken)
}

/// Whether every own variable stands alone in some pattern.
pub fn any_whole(patterns: &[Pattern]) -> bool
    ensures { result ≡ list_any is_whole patterns.now }
{
    for pattern in patterns {
        if is_whole(pattern) {
            return true;
        }
    }
    false
}

fn has_targets(targets: &[Target], pattern: &Pattern) -> bool
    ensures { result ≡ has_targets targets.now pattern.now }
{
    for target in targets {
        if fits(pattern, target) {
            return true;
        }
    }
    false
}

/// Whether each taken pattern has a target.
pub fn all_have_targets(targets: &[Target], taken: &[Taken]) -> bool
    ensures { result ≡ list_all (has_targets targets.now) (patterns_in taken.now) }
{
    for one in taken {
        if !has_targets(targets, &one.pattern) {
            return false;
        }
    }
    true
}

/// Whether each of so many own variables stands alone in a taken pattern.
pub fn have_all(taken: &[Taken], count: usize) -> bool
    ensures { result ≡ have_all count (patterns_in taken.now) }
{
    for i in 0..count {
        if !is_had(taken, i) {
            return false;
        }
    }
    true
}
