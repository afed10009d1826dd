//! The numbers of a path's actions: of each its key's, and then its operands.
ghost use Rattle.std.specs.Prelude.{◌≡◌, ◌/◌, [], ◌∷◌, map, slice_get, option_map, count_by};
ghost use Rattle.acc_base.specs.declared.bounds.TheConstants.{LARGEST_NUMBER};
ghost use Rattle.acc_base.specs.Soundness.{adds_to};
ghost use Rattle.acc_oblig.specs.Ranges.{in_range, one_action_numbers, numbers_of};
ghost use Rattle.acc_oblig_ranges.specs.Numbers.{action_key, operands, seen_action, StandsAt};

use crate::found::Found;
use acc_base::bounds::LARGEST_NUMBER;
use acc_base::forms::Lin;
use acc_base::steps::Action;

/// A number of an action, and how far from 0 it may lie.
#[derive(Clone, Copy)]
pub struct ActionNumber<'a> {
    pub value: &'a Lin,
    pub most: u64,
}

/// A number that may lie anywhere within the range.
fn in_range(value: &Lin) -> ActionNumber<'_>
    ensures { seen_action result ≡ in_range value.now }
{
    ActionNumber {
        value,
        most: LARGEST_NUMBER,
    }
}

/// Whether an action is an `add` on this table and column.
fn adds_to(t: u32, c: u32, a: &Action) -> bool
    ensures { result ≡ adds_to t c a.now }
{
    match a {
        Action::Add(u, _, e, _) => t == *u && c == *e,
        Action::Put(_, _, _) | Action::Del(_, _) | Action::Set(_, _, _, _) => false,
    }
}

/// How many of the actions are an `add` on this table and column.
fn adders(actions: &[Action], t: u32, c: u32) -> usize
    ensures { result ≡ count_by (adds_to t c) actions.now }
{
    let mut count = 0;
    for a in actions {
        if adds_to(t, c, a) {
            count += 1;
        }
    }
    count
}

/// How far from 0 the operand of an `add` on this table and column may lie: each has the same share of the range.
fn share(actions: &[Action], t: u32, c: u32) -> u64
    ensures { result ≡ LARGEST_NUMBER / count_by (adds_to t c) actions.now }
{
    match adders(actions, t, c) {
        0 => 0,
        count => LARGEST_NUMBER / count as u64,
    }
}

/// The key of the row that an action changes.
fn action_key(a: &Action) -> &[Lin]
    ensures { result.now ≡ action_key a.now }
{
    match a {
        Action::Put(_, k, _) | Action::Del(_, k) => k.as_slice(),
        Action::Set(_, k, _, _) | Action::Add(_, k, _, _) => k.as_slice(),
    }
}

/// What stands at a place of a list that may lie anywhere within the range.
fn among(values: &[Lin], place: usize) -> Found<ActionNumber<'_>>
    ensures { StandsAt seen_action (map in_range values.now) place result }
{
    match values.get(place) {
        Some(value) => Found::Number(in_range(value)),
        None => Found::Behind(place - values.len()),
    }
}

/// What stands at a place where there is one number alone.
fn alone(number: ActionNumber<'_>, place: usize) -> Found<ActionNumber<'_>>
    ensures { StandsAt seen_action (seen_action number.entry ∷ []) place result }
{
    if place == 0 {
        Found::Number(number)
    } else {
        Found::Behind(place - 1)
    }
}

/// What stands at a place among the operands of an action.
fn among_operands<'a>(all: &[Action], a: &'a Action, place: usize) -> Found<ActionNumber<'a>>
    ensures { StandsAt seen_action (operands all.now a.now) place result }
{
    match a {
        Action::Put(_, _, values) => among(values.as_slice(), place),
        Action::Del(_, _) => Found::Behind(place),
        Action::Set(_, _, _, value) => alone(in_range(value), place),
        Action::Add(t, _, c, value) => {
            let most = share(all, *t, *c);
            alone(ActionNumber { value, most }, place)
        }
    }
}

/// What stands at a place among the numbers of an action.
fn among_action<'a>(all: &[Action], a: &'a Action, place: usize) -> Found<ActionNumber<'a>>
    ensures { StandsAt seen_action (one_action_numbers all.now a.now) place result }
{
    match among(action_key(a), place) {
        Found::Number(number) => Found::Number(number),
        Found::Behind(left) => among_operands(all, a, left),
    }
}

/// The number with this place among those of a path's actions, if there is one.
pub fn action_number(actions: &[Action], place: usize) -> Option<ActionNumber<'_>>
    ensures { option_map seen_action result ≡ slice_get (numbers_of actions.now actions.now) place }
{
    let mut left = place;
    for a in actions {
        match among_action(actions, a, left) {
            Found::Number(number) => return Some(number),
            Found::Behind(rest) => left = rest,
        }
    }
    None
}
