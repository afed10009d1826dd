//! Changes of rows in an ordered map.
ghost use Rattle.std.specs.Prelude.{◌≡◌, ◌≤◌, ◌<◌, length, map, OnOk, OnErr, All, true, false};
ghost use Rattle.std.specs.Prelude.{IsOk, IfNone, IfSome, ℕ};
ghost use Rattle.std.specs.List.{list_all};
ghost use Rattle.std.specs.BTreeMap.{is_at as at};
ghost use Rattle.std.specs.Map.{keys_of};
ghost use Rattle.acc_base.specs.Tables.{place_cmp, place_of};
ghost use Rattle.acc_base.specs.Tables.{put, drop_row};
ghost use Rattle.acc_store.specs.Rows.{live, IsUp};
ghost use Rattle.acc_store.specs.Rows.{AreFit, IsFit, write as written_by, written, IsNarrow, has_entry, has_room, has_room_at};
ghost use Rattle.acc_store.specs.Rows.{KeepsRoom, HasNoBlank, BlanksAre, AddsBlanks, ClearsBlanks, WritesBlanks, is_put, is_gone};
ghost use Rattle.acc_store.specs.Rows.{leaves_blank, is_blank_at as is_blank_there};
ghost use Rattle.acc_store.specs.Landings.{AddsNoBlank};

use crate::entries::Entries;
use crate::places::Place;
use crate::slots::{Change, Slot};
use crate::writes::Write;
use acc_base::bounds::{MOST_COLUMNS, MOST_KEY_PARTS};
use acc_base::tables::Row;
use std::alloc::{AllocError, Global};

/// Makes a blank entry with room for some cells.
fn make_blank(
    entries: &mut Entries,
    alloc: Global,
    place: Place,
    room: usize,
) -> Result<(), AllocError>
    requires fit { IsFit place }
    requires absent { has_entry entries.old.entries place ≡ false }
    requires up { IsUp entries.old.entries }
    requires are_fit { AreFit entries.old.entries }
    ensures rows { live entries.new.entries ≡ live entries.old.entries }
    ensures room { OnOk result (has_room_at entries.new.entries place room ≡ true) }
    ensures kept { KeepsRoom entries.old.entries entries.new.entries }
    ensures blanks { AddsBlanks (at (place_cmp place)) entries.old.entries entries.new.entries }
    ensures up { IsUp entries.new.entries }
    ensures fit { AreFit entries.new.entries }
{
    let slot = Slot::blank(alloc, room)?;
    entries.insert(alloc, place, slot)?;
    Ok(())
}

/// Makes room for some cells in the entry at a place, if there is one.
fn widen(entries: &mut Entries, place: &Place, room: usize) -> Result<(), AllocError>
    requires up { IsUp entries.old.entries }
    requires are_fit { AreFit entries.old.entries }
    ensures rows { live entries.new.entries ≡ live entries.old.entries }
    ensures room { has_entry entries.old.entries place.now ≡ true → OnOk result (has_room_at entries.new.entries place.now room ≡ true) }
    ensures enough { has_room_at entries.old.entries place.now room ≡ true → IsOk result }
    ensures kept { KeepsRoom entries.old.entries entries.new.entries }
    ensures blanks { AddsBlanks (at (place_cmp place.now)) entries.old.entries entries.new.entries }
    ensures up { IsUp entries.new.entries }
    ensures fit { AreFit entries.new.entries }
{
    entries.change(place, &Change::Room(room))
}

/// For how many cells there is room in the entry at a place, if there is one.
fn room_there(entries: &Entries, place: &Place) -> Option<usize>
    ensures none { IfNone result (has_entry entries.now.entries place.now ≡ false) }
    ensures some { IfSome result (λ room. has_entry entries.now.entries place.now ≡ true) }
    ensures room { IfSome result (λ room. (n : ℕ) → n ≤ room → has_room_at entries.now.entries place.now n ≡ true) }
{
    match entries.get(place) {
        Some(slot) => Some(slot.room()),
        None => None,
    }
}

/// Makes room for some cells at a place.
fn make_room_at(
    entries: &mut Entries,
    alloc: Global,
    place: Place,
    room: usize,
) -> Result<(), AllocError>
    requires fit { IsFit place }
    requires up { IsUp entries.old.entries }
    requires are_fit { AreFit entries.old.entries }
    ensures rows { live entries.new.entries ≡ live entries.old.entries }
    ensures room { OnOk result (has_room_at entries.new.entries place room ≡ true) }
    ensures enough { has_room_at entries.old.entries place room ≡ true → IsOk result }
    ensures kept { KeepsRoom entries.old.entries entries.new.entries }
    ensures blanks { AddsBlanks (at (place_cmp place)) entries.old.entries entries.new.entries }
    ensures up { IsUp entries.new.entries }
    ensures fit { AreFit entries.new.entries }
{
    match room_there(entries, &place) {
        Some(found) if found >= room => Ok(()),
        Some(_) => widen(entries, &place, room),
        None => make_blank(entries, alloc, place, room),
    }
}

/// Makes room for a write.
fn make_room_for(entries: &mut Entries, alloc: Global, write: &Write) -> Result<(), AllocError>
    requires narrow { IsNarrow write.now }
    requires up { IsUp entries.old.entries }
    requires are_fit { AreFit entries.old.entries }
    ensures rows { live entries.new.entries ≡ live entries.old.entries }
    ensures room { OnOk result (has_room entries.new.entries write.now ≡ true) }
    ensures enough { has_room entries.old.entries write.now ≡ true → IsOk result }
    ensures kept { KeepsRoom entries.old.entries entries.new.entries }
    ensures blanks { AddsBlanks (λ p. is_put p write.now) entries.old.entries entries.new.entries }
    ensures up { IsUp entries.new.entries }
    ensures fit { AreFit entries.new.entries }
{
    match write {
        Write::Row(row) => {
            let place = Place::new(row.table, row.key.parts.as_slice());
            make_room_at(entries, alloc, place, row.cols.len())
        }
        Write::Gone(_, _) => Ok(()),
    }
}

/// Puts a row, for which there is room.
fn put_row(entries: &mut Entries, row: &Row)
    requires short { length row.now.key.parts ≤ MOST_KEY_PARTS }
    requires columns { length row.now.cols ≤ MOST_COLUMNS }
    requires room { has_room_at entries.old.entries (place_of row.now) (length row.now.cols) ≡ true }
    requires up { IsUp entries.old.entries }
    ensures rows { live entries.new.entries ≡ put row.now (live entries.old.entries) }
    ensures keys { keys_of entries.new.entries ≡ keys_of entries.old.entries }
    ensures kept { KeepsRoom entries.old.entries entries.new.entries }
    ensures blanks { ClearsBlanks (at (place_cmp (place_of row.now))) entries.old.entries entries.new.entries }
    ensures up { IsUp entries.new.entries }
{
    let place = Place::new(row.table, row.key.parts.as_slice());
    let _ = entries.change(&place, &Change::Put(row.cols.as_slice()));
}

/// Drops the row at a place, if there is one, and leaves a blank.
fn drop_at(entries: &mut Entries, place: &Place)
    requires up { IsUp entries.old.entries }
    ensures rows { live entries.new.entries ≡ drop_row place.now.0 place.now.1 (live entries.old.entries) }
    ensures keys { keys_of entries.new.entries ≡ keys_of entries.old.entries }
    ensures kept { KeepsRoom entries.old.entries entries.new.entries }
    ensures blanks { AddsBlanks (at (place_cmp place.now)) entries.old.entries entries.new.entries }
    ensures up { IsUp entries.new.entries }
{
    let _ = entries.change(place, &Change::Clear);
}

/// Drops a row, if there is one, and leaves a blank.
fn drop_one(entries: &mut Entries, table: u32, key: &[i64])
    requires up { IsUp entries.old.entries }
    requires are_fit { AreFit entries.old.entries }
    ensures rows { live entries.new.entries ≡ drop_row table key.now (live entries.old.entries) }
    ensures keys { keys_of entries.new.entries ≡ keys_of entries.old.entries }
    ensures kept { KeepsRoom entries.old.entries entries.new.entries }
    ensures blanks { AddsBlanks (at (place_cmp (table, key.now))) entries.old.entries entries.new.entries }
    ensures up { IsUp entries.new.entries }
{
    if let Some(place) = Place::of(table, key) {
        drop_at(entries, &place);
    }
}

/// One write, for which there is room.
fn write_one(entries: &mut Entries, write: &Write)
    requires narrow { IsNarrow write.now }
    requires room { has_room entries.old.entries write.now ≡ true }
    requires up { IsUp entries.old.entries }
    requires are_fit { AreFit entries.old.entries }
    ensures rows { live entries.new.entries ≡ written_by write.now (live entries.old.entries) }
    ensures keys { keys_of entries.new.entries ≡ keys_of entries.old.entries }
    ensures kept { KeepsRoom entries.old.entries entries.new.entries }
    ensures blanks { WritesBlanks write.now entries.old.entries entries.new.entries }
    ensures up { IsUp entries.new.entries }
{
    match write {
        Write::Row(row) => put_row(entries, row),
        Write::Gone(table, key) => drop_one(entries, *table, key.parts.as_slice()),
    }
}

/// Whether there is a blank entry at a place.
fn is_blank_at(entries: &Entries, place: &Place) -> bool
    ensures { result ≡ is_blank_there entries.now.entries place.now }
{
    match entries.get(place) {
        Some(slot) => slot.cells().is_none(),
        None => false,
    }
}

/// Forgets the entry at a place, if it is blank.
fn forget_at(entries: &mut Entries, place: &Place)
    requires up { IsUp entries.old.entries }
    requires are_fit { AreFit entries.old.entries }
    ensures rows { live entries.new.entries ≡ live entries.old.entries }
    ensures blanks { ClearsBlanks (at (place_cmp place.now)) entries.old.entries entries.new.entries }
    ensures up { IsUp entries.new.entries }
    ensures fit { AreFit entries.new.entries }
{
    if is_blank_at(entries, place) {
        entries.remove(place);
    }
}

/// Forgets an entry that is blank.
fn forget(entries: &mut Entries, table: u32, key: &[i64])
    requires up { IsUp entries.old.entries }
    requires are_fit { AreFit entries.old.entries }
    ensures rows { live entries.new.entries ≡ live entries.old.entries }
    ensures blanks { ClearsBlanks (at (place_cmp (table, key.now))) entries.old.entries entries.new.entries }
    ensures up { IsUp entries.new.entries }
    ensures fit { AreFit entries.new.entries }
{
    if let Some(place) = Place::of(table, key) {
        forget_at(entries, &place);
    }
}

/// Forgets the entry of a write, if it is blank. One of a row that was put is not.
fn forget_for(entries: &mut Entries, write: &Write, were_put: bool)
    requires up { IsUp entries.old.entries }
    requires are_fit { AreFit entries.old.entries }
    ensures rows { live entries.new.entries ≡ live entries.old.entries }
    ensures blanks { ClearsBlanks (λ p. leaves_blank were_put p write.now) entries.old.entries entries.new.entries }
    ensures up { IsUp entries.new.entries }
    ensures fit { AreFit entries.new.entries }
{
    match (write, were_put) {
        (Write::Row(row), false) => forget(entries, row.table, row.key.parts.as_slice()),
        (Write::Gone(table, key), true) => forget(entries, *table, key.parts.as_slice()),
        (Write::Row(_), true) | (Write::Gone(_, _), false) => (),
    }
}

/// Makes room for writes.
fn make_room(entries: &mut Entries, alloc: Global, writes: &[Write]) -> Result<(), AllocError>
    requires narrow { All IsNarrow writes.now }
    requires up { IsUp entries.old.entries }
    requires are_fit { AreFit entries.old.entries }
    requires blanks { HasNoBlank entries.old.entries }
    ensures rows { live entries.new.entries ≡ live entries.old.entries }
    ensures room { OnOk result (list_all (has_room entries.new.entries) writes.now ≡ true) }
    ensures kept { KeepsRoom entries.old.entries entries.new.entries }
    ensures enough { list_all (has_room entries.old.entries) writes.now ≡ true → IsOk result }
    ensures blanks { BlanksAre is_put writes.now entries.new.entries }
    ensures up { IsUp entries.new.entries }
    ensures fit { AreFit entries.new.entries }
{
    for write in writes {
        make_room_for(entries, alloc, write)?;
    }
    Ok(())
}

/// Does writes for which there is room.
fn write_all(entries: &mut Entries, writes: &[Write])
    requires narrow { All IsNarrow writes.now }
    requires room { list_all (has_room entries.old.entries) writes.now ≡ true }
    requires up { IsUp entries.old.entries }
    requires are_fit { AreFit entries.old.entries }
    requires blanks { BlanksAre is_put writes.now entries.old.entries }
    ensures rows { live entries.new.entries ≡ written writes.now (live entries.old.entries) }
    ensures blanks { BlanksAre is_gone writes.now entries.new.entries }
    ensures up { IsUp entries.new.entries }
    ensures fit { AreFit entries.new.entries }
{
    for write in writes {
        write_one(entries, write);
    }
}

/// Forgets the entries of writes that are blank.
fn forget_all(entries: &mut Entries, writes: &[Write], were_put: bool)
    requires up { IsUp entries.old.entries }
    requires are_fit { AreFit entries.old.entries }
    requires blanks { BlanksAre (leaves_blank were_put) writes.now entries.old.entries }
    ensures rows { live entries.new.entries ≡ live entries.old.entries }
    ensures blanks { HasNoBlank entries.new.entries }
    ensures up { IsUp entries.new.entries }
    ensures fit { AreFit entries.new.entries }
{
    for write in writes {
        forget_for(entries, write, were_put);
    }
}

/// Does writes for which there is room, and forgets the entries that they leave blank.
fn do_all(entries: &mut Entries, writes: &[Write])
    requires narrow { All IsNarrow writes.now }
    requires room { list_all (has_room entries.old.entries) writes.now ≡ true }
    requires up { IsUp entries.old.entries }
    requires are_fit { AreFit entries.old.entries }
    requires blanks { BlanksAre is_put writes.now entries.old.entries }
    ensures rows { live entries.new.entries ≡ written writes.now (live entries.old.entries) }
    ensures blanks { HasNoBlank entries.new.entries }
    ensures up { IsUp entries.new.entries }
    ensures fit { AreFit entries.new.entries }
{
    write_all(entries, writes);
    forget_all(entries, writes, true);
}

/// Puts a row. Where memory runs out the rows are as before; where there is room for it it takes none.
fn write_row(entries: &mut Entries, alloc: Global, row: &Row) -> Result<(), AllocError>
    requires short { length row.now.key.parts ≤ MOST_KEY_PARTS }
    requires columns { length row.now.cols ≤ MOST_COLUMNS }
    requires up { IsUp entries.old.entries }
    requires are_fit { AreFit entries.old.entries }
    ensures ok { OnOk result (live entries.new.entries ≡ put row.now (live entries.old.entries)) }
    ensures err { OnErr result (live entries.new.entries ≡ live entries.old.entries) }
    ensures enough { has_room_at entries.old.entries (place_of row.now) (length row.now.cols) ≡ true → IsOk result }
    ensures kept { KeepsRoom entries.old.entries entries.new.entries }
    ensures blanks { AddsNoBlank entries.old.entries entries.new.entries }
    ensures up { IsUp entries.new.entries }
    ensures fit { AreFit entries.new.entries }
{
    let place = Place::new(row.table, row.key.parts.as_slice());
    entries.write(alloc, place, row.cols.as_slice())
}

/// Makes room for writes, and then puts a row.
fn make_room_and_put(
    entries: &mut Entries,
    alloc: Global,
    row: &Row,
    rest: &[Write],
) -> Result<(), AllocError>
    requires short { length row.now.key.parts ≤ MOST_KEY_PARTS }
    requires columns { length row.now.cols ≤ MOST_COLUMNS }
    requires narrow { All IsNarrow rest.now }
    requires up { IsUp entries.old.entries }
    requires are_fit { AreFit entries.old.entries }
    requires blanks { HasNoBlank entries.old.entries }
    ensures ok { OnOk result (live entries.new.entries ≡ put row.now (live entries.old.entries)) }
    ensures err { OnErr result (live entries.new.entries ≡ live entries.old.entries) }
    ensures room { OnOk result (list_all (has_room entries.new.entries) rest.now ≡ true) }
    ensures enough { has_room_at entries.old.entries (place_of row.now) (length row.now.cols) ≡ true
        → list_all (has_room entries.old.entries) rest.now ≡ true → IsOk result }
    ensures blanks { BlanksAre is_put rest.now entries.new.entries }
    ensures up { IsUp entries.new.entries }
    ensures fit { AreFit entries.new.entries }
{
    make_room(entries, alloc, rest)?;
    write_row(entries, alloc, row)
}

/// Puts a row and then does the other writes, or nothing. Where there is room for all it takes no memory.
///
/// The row needs no room of its own before the others have theirs: what is put first is all that can still fail. So its place is looked
/// up once.
fn put_and_write(
    entries: &mut Entries,
    alloc: Global,
    row: &Row,
    rest: &[Write],
) -> Result<(), AllocError>
    requires short { length row.now.key.parts ≤ MOST_KEY_PARTS }
    requires columns { length row.now.cols ≤ MOST_COLUMNS }
    requires narrow { All IsNarrow rest.now }
    requires up { IsUp entries.old.entries }
    requires are_fit { AreFit entries.old.entries }
    requires blanks { HasNoBlank entries.old.entries }
    ensures ok { OnOk result (live entries.new.entries ≡ written rest.now (put row.now (live entries.old.entries))) }
    ensures err { OnErr result (live entries.new.entries ≡ live entries.old.entries) }
    ensures enough { has_room_at entries.old.entries (place_of row.now) (length row.now.cols) ≡ true
        → list_all (has_room entries.old.entries) rest.now ≡ true → IsOk result }
    ensures blanks { HasNoBlank entries.new.entries }
    ensures up { IsUp entries.new.entries }
    ensures fit { AreFit entries.new.entries }
{
    let done = make_room_and_put(entries, alloc, row, rest);
    if done.is_ok() {
        do_all(entries, rest);
    } else {
        forget_all(entries, rest, false);
    }
    done
}

/// Makes room for all writes and does them, or none. Where there is room for all it takes no memory.
fn prepare_and_write(
    entries: &mut Entries,
    alloc: Global,
    writes: &[Write],
) -> Result<(), AllocError>
    requires narrow { All IsNarrow writes.now }
    requires up { IsUp entries.old.entries }
    requires are_fit { AreFit entries.old.entries }
    requires blanks { HasNoBlank entries.old.entries }
    ensures ok { OnOk result (live entries.new.entries ≡ written writes.now (live entries.old.entries)) }
    ensures err { OnErr result (live entries.new.entries ≡ live entries.old.entries) }
    ensures enough { list_all (has_room entries.old.entries) writes.now ≡ true → IsOk result }
    ensures blanks { HasNoBlank entries.new.entries }
    ensures up { IsUp entries.new.entries }
    ensures fit { AreFit entries.new.entries }
{
    let room = make_room(entries, alloc, writes);
    if room.is_ok() {
        do_all(entries, writes);
    } else {
        forget_all(entries, writes, false);
    }
    room
}

/// Does all writes, or none. Where there is room for all it takes no memory.
pub fn apply_writes(
    entries: &mut Entries,
    alloc: Global,
    writes: &[Write],
) -> Result<(), AllocError>
    requires narrow { All IsNarrow writes.now }
    requires up { IsUp entries.old.entries }
    requires are_fit { AreFit entries.old.entries }
    requires blanks { HasNoBlank entries.old.entries }
    ensures ok { OnOk result (live entries.new.entries ≡ written writes.now (live entries.old.entries)) }
    ensures err { OnErr result (live entries.new.entries ≡ live entries.old.entries) }
    ensures enough { list_all (has_room entries.old.entries) writes.now ≡ true → IsOk result }
    ensures blanks { HasNoBlank entries.new.entries }
    ensures up { IsUp entries.new.entries }
    ensures fit { AreFit entries.new.entries }
{
    match writes.split_first() {
        Some((Write::Row(row), rest)) => put_and_write(entries, alloc, row, rest),
        Some((Write::Gone(_, _), _)) | None => prepare_and_write(entries, alloc, writes),
    }
}
