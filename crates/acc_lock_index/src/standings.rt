//! Transactions with their keys, and their numbers under these.
ghost use Rattle.std.specs.Prelude.{◌≡◌, ◌<◌, ◌++◌, ◌∷◌, [], MatchOption, vec_len, vec_capacity};
ghost use Rattle.acc_lock_holders.specs.Entries.{HaveRoom};
ghost use Rattle.acc_lock_index.specs.Indexed.{AreUnder, AreApart, HasNumber, IsPlaceOf, TakesOut, PutsIn};

use acc_lock_holders::keys::Key;
use acc_lock_holders::maps::{Holders, add_to_all, forget_all, take_out_of_all};
use std::marker::Model;

/// A transaction's number, and its keys.
#[derive(Drop)]
pub struct Standing {
    pub t: u64,
    pub keys: Vec<Key>,
}

impl Model for Standing {
    ghost use Rattle.acc_lock_index.specs.Indexed.{Standing as Seen};

    ghost Value = { Seen };

    ghost view = { λ s. record { t = s.t; keys = s.keys.items } };
}

/// The place of the transaction with a number.
pub fn place_of(standings: &[Standing], t: u64) -> Option<usize>
    ensures { MatchOption result (¬ HasNumber standings.now t) (IsPlaceOf standings.now t) }
{
    for i in 0..standings.len() {
        let standing = &standings[i];
        if standing.t == t {
            return Some(i);
        }
    }
    None
}

/// Takes a transaction out.
pub fn take_one_out(standings: &mut Vec<Standing>, holders: &mut Holders, t: u64)
    requires there { HasNumber standings.old.items t }
    requires apart { AreApart standings.old.items }
    requires under { AreUnder standings.old.items holders.old.entries }
    ensures under { AreUnder standings.new.items holders.new.entries }
    ensures taken { TakesOut standings.old.items t standings.new.items }
{
    if let Some(place) = place_of(standings.as_slice(), t) {
        let gone = standings.remove(place);
        take_out_of_all(holders, gone.keys.as_slice(), t);
        forget_all(holders, gone.keys.as_slice());
    }
}

/// Puts a transaction in place of the one with its number. There is room under its keys.
pub fn put_one(standings: &mut Vec<Standing>, holders: &mut Holders, next: Standing)
    requires there { HasNumber standings.old.items next.t }
    requires apart { AreApart standings.old.items }
    requires under { AreUnder standings.old.items holders.old.entries }
    requires room { HaveRoom holders.old.entries next.keys }
    ensures under { AreUnder standings.new.items holders.new.entries }
    ensures put { PutsIn standings.old.items next standings.new.items }
{
    if let Some(place) = place_of(standings.as_slice(), next.t) {
        let gone = &standings[place];
        take_out_of_all(holders, gone.keys.as_slice(), next.t);
        add_to_all(holders, next.keys.as_slice(), next.t);
        forget_all(holders, gone.keys.as_slice());
        standings[place] = next;
    }
}

/// Adds a transaction, for which there is room.
pub fn add_one(standings: &mut Vec<Standing>, holders: &mut Holders, next: Standing)
    requires spare { vec_len standings.old < vec_capacity standings.old }
    requires under { AreUnder standings.old.items holders.old.entries }
    requires room { HaveRoom holders.old.entries next.keys }
    ensures under { AreUnder standings.new.items holders.new.entries }
    ensures added { standings.new.items ≡ standings.old.items ++ next ∷ [] }
{
    add_to_all(holders, next.keys.as_slice(), next.t);
    let _pushed = standings.push(next);
}
