//! Places of keys, and how many of them have which value at which place.
ghost use Rattle.std.specs.Prelude.{◌≡◌, [], All, OnOk, IfOk, true, false, map};
ghost use Rattle.std.specs.List.{list_any};
ghost use Rattle.std.specs.BTreeSet.{contains, Updates};
ghost use Rattle.acc_base.specs.Tables.{Place, place_cmp, is_at};
ghost use Rattle.acc_index_store.specs.Indexes.{place_written};
ghost use Rattle.acc_audit_ranges.specs.Parts.{AreCounted};
ghost use Rattle.acc_audit_ranges.specs.Keyed.{Covers, Grows, IsNoted, IsAllBut, Stands, AreWithin, StaysCounted};

use crate::parts::{Parts, Way, count_key};
use acc_base::sequences::{Seq, copied};
use acc_store::{Store, Write};
use std::alloc::{AllocError, Global};
use std::collections::{BTreeMap, BTreeSet};

/// The table and the key of a row.
pub type Place = (u32, Seq<i64>);

/// Places, and how many of them have which value at which place of their keys.
#[derive(Drop)]
pub struct Noted {
    pub places: BTreeSet<Place>,
    pub parts: Parts,
}

/// No places.
pub fn nothing(alloc: Global) -> Noted
    ensures places { result.places.keys ≡ [] }
    ensures counted { AreCounted result.parts result.places }
{
    Noted {
        places: BTreeSet::new(alloc),
        parts: BTreeMap::new(alloc),
    }
}

/// Notes a place.
fn note_at(noted: &mut Noted, alloc: Global, place: Place) -> Result<(), AllocError>
    ensures grows { Grows noted.old.places noted.new.places }
    ensures noted { OnOk result (contains place_cmp noted.new.places place ≡ true) }
    ensures only { IsAllBut place noted.old.places noted.new.places }
    ensures counted { OnOk result (StaysCounted noted.old noted.new) }
{
    if noted.places.contains(&place) {
        return Ok(());
    }
    count_key(
        &mut noted.parts,
        alloc,
        place.0,
        place.1.as_slice(),
        Way::In,
    )?;
    noted.places.insert(place)?;
    Ok(())
}

/// Takes a place out.
fn take_out(noted: &mut Noted, alloc: Global, place: &Place) -> Result<(), AllocError>
    ensures gone { Updates place_cmp noted.old.places noted.new.places place.now false }
    ensures counted { OnOk result (StaysCounted noted.old noted.new) }
{
    if noted.places.remove(place) {
        count_key(
            &mut noted.parts,
            alloc,
            place.0,
            place.1.as_slice(),
            Way::Out,
        )
    } else {
        Ok(())
    }
}

/// Notes where a write puts a row.
fn note(noted: &mut Noted, alloc: Global, write: &Write) -> Result<(), AllocError>
    ensures grows { Grows noted.old.places noted.new.places }
    ensures noted { OnOk result (IsNoted noted.new.places write.now) }
    ensures only { IsAllBut (place_written write.now) noted.old.places noted.new.places }
    ensures counted { OnOk result (StaysCounted noted.old noted.new) }
{
    match write {
        Write::Row(row) => {
            let key = copied(&row.key.parts)?;
            note_at(noted, alloc, (row.table, key))
        }
        Write::Gone(_, _) => Ok(()),
    }
}

/// Notes where writes put rows.
pub fn note_all(noted: &mut Noted, alloc: Global, writes: &[Write]) -> Result<(), AllocError>
    ensures grows { Grows noted.old.places noted.new.places }
    ensures noted { OnOk result (All (IsNoted noted.new.places) writes.now) }
    ensures only { AreWithin writes.now noted.old.places noted.new.places }
    ensures counted { OnOk result (StaysCounted noted.old noted.new) }
{
    for write in writes {
        note(noted, alloc, write)?;
    }
    Ok(())
}

/// The place that a write names.
fn place_named(write: &Write) -> Result<Place, AllocError>
    ensures { IfOk result (λ place. place ≡ place_written write.now) }
{
    match write {
        Write::Row(row) => {
            let key = copied(&row.key.parts)?;
            Ok((row.table, key))
        }
        Write::Gone(table, key) => {
            let key = copied(&key.parts)?;
            Ok((*table, key))
        }
    }
}

/// The places that writes name.
pub fn places_named(alloc: Global, writes: &[Write]) -> Result<Vec<Place>, AllocError>
    ensures { IfOk result (λ places. places.items ≡ map place_written writes.now) }
{
    let mut places = Vec::new(alloc);
    for write in writes {
        let place = place_named(write)?;
        places.push(place)?;
    }
    Ok(places)
}

/// Forgets a place where no row stands.
fn forget<S: Store>(
    noted: &mut Noted,
    alloc: Global,
    rows: &S,
    place: &Place,
) -> Result<(), AllocError>
    ensures covers { Covers noted.old.places (S.rows rows.now) → Covers noted.new.places (S.rows rows.now) }
    ensures within { Grows noted.new.places noted.old.places }
    ensures stands { Stands noted.new.places (S.rows rows.now) place.now }
    ensures counted { OnOk result (StaysCounted noted.old noted.new) }
{
    if rows.has(place.0, place.1.as_slice()) {
        Ok(())
    } else {
        take_out(noted, alloc, place)
    }
}

/// Forgets those of some places where no row stands.
pub fn forget_all<S: Store>(
    noted: &mut Noted,
    alloc: Global,
    rows: &S,
    places: &[Place],
) -> Result<(), AllocError>
    ensures covers { Covers noted.old.places (S.rows rows.now) → Covers noted.new.places (S.rows rows.now) }
    ensures within { Grows noted.new.places noted.old.places }
    ensures stands { OnOk result (All (Stands noted.new.places (S.rows rows.now)) places.now) }
    ensures counted { OnOk result (StaysCounted noted.old noted.new) }
{
    for place in places {
        forget(noted, alloc, rows, place)?;
    }
    Ok(())
}
