//! Numbers by key.
ghost use Rattle.std.specs.Prelude.{◌≡◌, ◌↔◌, true, None, is_some, OnOk, OnErr, IsTrue};
ghost use Rattle.acc_lock_holders.specs.Numbers.{least_but, with_number, without_number};
ghost use Rattle.acc_lock_holders.specs.Entries.{under, found, can_take, HasRoom, KeepsRoom, IsSame, Changes, ChangesAll, CanTakeAll, HaveRoom};
ghost use Rattle.acc_lock_holders.specs.Entries.{IsBlank, HaveNoBlank, MakesNoBlank};

use crate::keys::Key;
use crate::numbers::Numbers;
use indexmap::IndexMap;
use std::alloc::{AllocError, Global};

/// The numbers under each key.
pub type Holders = IndexMap<Key, Numbers>;

/// The lowest of a number, which may be there, and of those but one under a key.
pub fn lowest_under(holders: &Holders, key: &Key, t: u64, best: Option<u64>) -> Option<u64>
    ensures { result ≡ least_but t best (under key.now holders.now.entries) }
{
    match holders.get(key) {
        Some(numbers) => numbers.lowest_but(t, best),
        None => best,
    }
}

/// Makes an entry of a key that has none.
fn make_entry(holders: &mut Holders, alloc: Global, key: Key) -> Result<(), AllocError>
    requires absent { found key holders.old.entries ≡ None }
    ensures same { IsSame holders.old.entries holders.new.entries }
    ensures room { OnOk result (HasRoom holders.new.entries key) }
    ensures kept { KeepsRoom holders.old.entries holders.new.entries }
{
    let numbers = Numbers::with_room(alloc)?;
    holders.insert(key, numbers)?;
    Ok(())
}

/// Makes room in the entry of a key, if there is one.
fn widen(holders: &mut Holders, key: &Key) -> Result<(), AllocError>
    ensures same { IsSame holders.old.entries holders.new.entries }
    ensures room { is_some (found key.now holders.old.entries) ≡ true → OnOk result (HasRoom holders.new.entries key.now) }
    ensures kept { KeepsRoom holders.old.entries holders.new.entries }
{
    match holders.get_mut(key) {
        Some(numbers) => numbers.make_room(),
        None => Ok(()),
    }
}

/// Makes room for one more under a key.
fn make_room(holders: &mut Holders, alloc: Global, key: &Key) -> Result<(), AllocError>
    ensures same { IsSame holders.old.entries holders.new.entries }
    ensures room { OnOk result (HasRoom holders.new.entries key.now) }
    ensures kept { KeepsRoom holders.old.entries holders.new.entries }
{
    if holders.contains_key(key) {
        widen(holders, key)
    } else {
        make_entry(holders, alloc, key.copy(alloc)?)
    }
}

/// Makes room for one more under each of some keys, as far as memory goes.
fn make_room_each(holders: &mut Holders, alloc: Global, keys: &[Key]) -> Result<(), AllocError>
    ensures same { IsSame holders.old.entries holders.new.entries }
    ensures room { OnOk result (HaveRoom holders.new.entries keys.now) }
    ensures kept { KeepsRoom holders.old.entries holders.new.entries }
{
    for key in keys {
        make_room(holders, alloc, key)?;
    }
    Ok(())
}

/// Makes room for one more under each of some keys. Where memory runs out, none of them is left without a number.
pub fn make_room_for(holders: &mut Holders, alloc: Global, keys: &[Key]) -> Result<(), AllocError>
    ensures same { IsSame holders.old.entries holders.new.entries }
    ensures room { OnOk result (HaveRoom holders.new.entries keys.now) }
    ensures none_blank { OnErr result (HaveNoBlank holders.new.entries keys.now) }
{
    match make_room_each(holders, alloc, keys) {
        Ok(()) => Ok(()),
        Err(error) => {
            forget_all(holders, keys);
            Err(error)
        }
    }
}

/// Adds a number under a key. There is room for it, or it is there.
fn add(holders: &mut Holders, key: &Key, t: u64)
    requires room { can_take t key.now holders.old.entries ≡ true }
    ensures added { Changes (with_number t) key.now holders.old.entries holders.new.entries }
    ensures others { CanTakeAll t holders.old.entries holders.new.entries }
{
    if let Some(numbers) = holders.get_mut(key) {
        numbers.add(t);
    }
}

/// Adds a number under each of some keys, where there is room for it.
pub fn add_to_all(holders: &mut Holders, keys: &[Key], t: u64)
    requires room { HaveRoom holders.old.entries keys.now }
    ensures { ChangesAll (with_number t) keys.now holders.old.entries holders.new.entries }
{
    for key in keys {
        add(holders, key, t);
    }
}

/// Takes a number out from under a key. The room stays.
fn take_out(holders: &mut Holders, key: &Key, t: u64)
    ensures taken { Changes (without_number t) key.now holders.old.entries holders.new.entries }
    ensures kept { KeepsRoom holders.old.entries holders.new.entries }
{
    if let Some(numbers) = holders.get_mut(key) {
        numbers.take_out(t);
    }
}

/// Takes a number out from under each of some keys. The room stays.
pub fn take_out_of_all(holders: &mut Holders, keys: &[Key], t: u64)
    ensures taken { ChangesAll (without_number t) keys.now holders.old.entries holders.new.entries }
    ensures kept { KeepsRoom holders.old.entries holders.new.entries }
{
    for key in keys {
        take_out(holders, key, t);
    }
}

/// Whether a key has an entry without a number.
fn is_blank(holders: &Holders, key: &Key) -> bool
    ensures { IsTrue result ↔ IsBlank holders.now.entries key.now }
{
    match holders.get(key) {
        Some(numbers) => numbers.is_empty(),
        None => false,
    }
}

/// Forgets a key without a number.
fn forget(holders: &mut Holders, key: &Key)
    ensures same { IsSame holders.old.entries holders.new.entries }
    ensures gone { ¬ IsBlank holders.new.entries key.now }
    ensures others { MakesNoBlank holders.old.entries holders.new.entries }
{
    if is_blank(holders, key) {
        holders.swap_remove(key);
    }
}

/// Forgets those of some keys that have no number.
pub fn forget_all(holders: &mut Holders, keys: &[Key])
    ensures same { IsSame holders.old.entries holders.new.entries }
    ensures gone { HaveNoBlank holders.new.entries keys.now }
{
    for key in keys {
        forget(holders, key);
    }
}
