//! Runs of entries, each in a map of its own below one map of runs.
//!
//! A node of the map has 15 places, and where it is full it is split in halves. So where memory counts a run that is full is parted where
//! an entry comes in: entries that come in ascending order leave full runs behind them. Where speed counts there is one run.
ghost use Rattle.std.specs.Prelude.{◌≡◌, ◌≤◌, OnOk, OnErr, IfOk, IfSome, Some, [], option_copied, true, false};
ghost use Rattle.std.specs.Prelude.{is_some};
ghost use Rattle.std.specs.Ordering.{is_gt};
ghost use Rattle.std.specs.declared.cmp.Ordering.TheVariants.{Less};
ghost use Rattle.std.specs.Map.{remove_entry, lookup};
ghost use Rattle.std.specs.BTreeMap.{insert_entry, is_at as at};
ghost use Rattle.acc_base.specs.Tables.{place_cmp};
ghost use Rattle.acc_store.specs.Rows.{entry_at};
ghost use Rattle.acc_store.specs.Runs.{seen, AreLaid, all_of, Alters, AreBelow, ArePast, IsRunKey, IsRun, IsRunFor, IsMoved};
ghost use Rattle.acc_store.specs.Runs.{between, joined};
ghost use Rattle.std.specs.Prelude.{◌<◌, length, None, Ok, MatchOption};
ghost use Rattle.acc_store.specs.Changes.{CanChange, HasChanged, HasRefused};
ghost use Rattle.acc_store.specs.Landings.{Lands};
ghost use Rattle.acc_store.specs.declared.runs.Landing.TheVariants.{Came};

use crate::places::Place;
use crate::slots::{Change, Slot};
use acc_base::bounds::MOST_COLUMNS;
use std::alloc::{AllocError, Global};
use std::collections::BTreeMap;
use std::collections::btree_map::Range;

/// Entries in the order of their places.
pub type Run = BTreeMap<Place, Slot>;

/// Runs in the order of their keys. No entry of a run is before its key, and none of an earlier run isn't.
pub type Runs = BTreeMap<Place, Run>;

/// How many entries fill a node of a map.
const FULL: usize = 15;

/// How entries stand in runs.
#[derive(Clone, Copy)]
pub enum Layout {
    /// All in one run: a look-up goes down one map. Where places come in ascending order half of the map's nodes stays empty.
    Whole,
    /// In runs that fill a node each: they take less memory, and a look-up goes down two maps.
    Parted,
}

impl Layout {
    /// How many entries fill a run.
    pub fn full(self) -> usize {
        match self {
            Layout::Whole => usize::MAX,
            Layout::Parted => FULL,
        }
    }
}

/// What became of a row that was to be put in the run where its place belongs.
#[derive(Drop)]
pub enum Landing {
    /// The entry at its place took it.
    There,
    /// It came as an entry.
    Came,
    /// There is no entry at its place, and the run is full, or there is no run.
    Back(Place),
}

/// The run, where there is but one, if a place isn't before its key. To look it up takes no way down.
fn only_run<'a>(runs: &'a Runs, place: &Place) -> Option<(&'a Place, &'a Run)>
    ensures { IfSome result (λ r. IsRunFor place_cmp place.now (seen runs.now.entries) r.0.now r.1.now.entries) }
{
    if runs.len() != 1 {
        return None;
    }
    match runs.first_key_value() {
        Some((key, run)) if key <= place => Some((key, run)),
        Some(_) | None => None,
    }
}

/// The last run whose key isn't past a place.
fn run_before<'a>(runs: &'a Runs, place: &Place) -> Option<(&'a Place, &'a Run)>
    ensures { MatchOption result (ArePast place_cmp place.now (seen runs.now.entries))
        (λ r. IsRunFor place_cmp place.now (seen runs.now.entries) r.0.now r.1.now.entries) }
{
    match only_run(runs, place) {
        Some(found) => Some(found),
        None => runs.range(..=place).next_back(),
    }
}

/// The key of the run where a place belongs: the last key that isn't past the place.
pub fn run_key(runs: &Runs, place: &Place) -> Option<Place>
    ensures { IsRunKey place_cmp place.now (seen runs.now.entries) result }
{
    match run_before(runs, place) {
        Some((key, _)) => Some(key.copied()),
        None => None,
    }
}

/// The run where a place belongs.
fn run_for<'a>(runs: &'a Runs, place: &Place) -> Option<&'a Run>
    ensures { IsRun place_cmp place.now (seen runs.now.entries) (option_copied result) }
{
    match run_before(runs, place) {
        Some((_, run)) => Some(run),
        None => None,
    }
}

/// What stands at a place.
pub fn slot_at<'a>(runs: &'a Runs, place: &Place) -> Option<&'a Slot>
    requires laid { AreLaid runs.now }
    ensures { option_copied result ≡ entry_at place.now (all_of runs.now) }
{
    match run_for(runs, place) {
        Some(run) => run.get(place),
        None => None,
    }
}

/// Changes what stands at a place of a run.
fn change_in(run: &mut Run, place: &Place, change: &Change) -> Result<(), AllocError>
    requires can { IfSome (entry_at place.now run.old.entries) (CanChange change.now) }
    ensures { Alters place.now (HasChanged change.now result) run.old.entries run.new.entries }
{
    match run.get_mut(place) {
        Some(slot) => slot.change(change),
        None => Ok(()),
    }
}

/// Changes what stands at a place.
pub fn change_at(runs: &mut Runs, place: &Place, change: &Change) -> Result<(), AllocError>
    requires laid { AreLaid runs.old }
    requires can { IfSome (entry_at place.now (all_of runs.old)) (CanChange change.now) }
    ensures altered { Alters place.now (HasChanged change.now result) (all_of runs.old) (all_of runs.new) }
    ensures laid { AreLaid runs.new }
{
    let Some(key) = run_key(runs, place) else {
        return Ok(());
    };
    match runs.get_mut(&key) {
        Some(run) => change_in(run, place, change),
        None => Ok(()),
    }
}

/// Puts a row in a run that has no entry at its place, unless it is full.
fn come_in(
    run: &mut Run,
    alloc: Global,
    full: usize,
    place: Place,
    cells: &[i128],
) -> Result<Landing, AllocError>
    requires few { length cells.now ≤ MOST_COLUMNS }
    requires absent { entry_at place run.old.entries ≡ None }
    ensures ok { IfOk result (λ landing. Lands place cells.now landing run.old.entries run.new.entries) }
    ensures err { OnErr result (Alters place (HasRefused cells.now) run.old.entries run.new.entries) }
    ensures came { result ≡ Ok Came → 0 < full }
{
    if run.len() >= full {
        return Ok(Landing::Back(place));
    }
    let slot = Slot::row(alloc, cells)?;
    run.insert(place, slot)?;
    Ok(Landing::Came)
}

/// Puts a row in a run, unless it is full and has no entry at its place.
fn land_in(
    run: &mut Run,
    alloc: Global,
    full: usize,
    place: Place,
    cells: &[i128],
) -> Result<Landing, AllocError>
    requires few { length cells.now ≤ MOST_COLUMNS }
    ensures ok { IfOk result (λ landing. Lands place cells.now landing run.old.entries run.new.entries) }
    ensures err { OnErr result (Alters place (HasRefused cells.now) run.old.entries run.new.entries) }
    ensures came { result ≡ Ok Came → 0 < full }
{
    match run.get_mut(&place) {
        Some(slot) => {
            slot.write(cells)?;
            Ok(Landing::There)
        }
        None => come_in(run, alloc, full, place, cells),
    }
}

/// Puts a row in the run with a key, where its place belongs.
fn land_at(
    runs: &mut Runs,
    alloc: Global,
    full: usize,
    key: &Place,
    place: Place,
    cells: &[i128],
) -> Result<Landing, AllocError>
    requires laid { AreLaid runs.old }
    requires run { IsRunKey place_cmp place (seen runs.old.entries) (Some key.now) }
    requires few { length cells.now ≤ MOST_COLUMNS }
    ensures ok { IfOk result (λ landing. Lands place cells.now landing (all_of runs.old) (all_of runs.new)) }
    ensures err { OnErr result (Alters place (HasRefused cells.now) (all_of runs.old) (all_of runs.new)) }
    ensures came { result ≡ Ok Came → 0 < full }
    ensures laid { AreLaid runs.new }
{
    match runs.get_mut(key) {
        Some(run) => land_in(run, alloc, full, place, cells),
        None => unreachable!(),
    }
}

/// Puts a row at its place, where there is an entry or a run that isn't full. It goes down the map of runs once to find the run, and
/// once to change it.
pub fn land(
    runs: &mut Runs,
    alloc: Global,
    full: usize,
    place: Place,
    cells: &[i128],
) -> Result<Landing, AllocError>
    requires laid { AreLaid runs.old }
    requires few { length cells.now ≤ MOST_COLUMNS }
    ensures ok { IfOk result (λ landing. Lands place cells.now landing (all_of runs.old) (all_of runs.new)) }
    ensures err { OnErr result (Alters place (HasRefused cells.now) (all_of runs.old) (all_of runs.new)) }
    ensures came { result ≡ Ok Came → 0 < full }
    ensures laid { AreLaid runs.new }
{
    match run_key(runs, &place) {
        Some(key) => land_at(runs, alloc, full, &key, place, cells),
        None => Ok(Landing::Back(place)),
    }
}

/// Where a run is parted for a place: at the first entry past it, or at the place where there is none.
fn parting(run: &Run, place: &Place) -> Place
    ensures least { is_gt (place_cmp place.now result) ≡ false }
    ensures most { (q : _) → AreBelow place_cmp q run.now.entries → place_cmp place.now q ≡ Less → place_cmp result q ≡ Less }
{
    match run.range(place..).next() {
        Some((key, _)) => key.copied(),
        None => place.copied(),
    }
}

/// Moves the entries of a run that aren't before a place to the run that has its key there.
fn move_entries(runs: &mut Runs, key: &Place, at: &Place) -> Result<(), AllocError>
    ensures ok { OnOk result (IsMoved key.now at.now (seen runs.old.entries) (seen runs.new.entries)) }
    ensures err { OnErr result (seen runs.new.entries ≡ seen runs.old.entries) }
{
    let Some(run) = runs.get_mut(key) else {
        return Ok(());
    };
    let moved = run.split_off(at)?;
    if let Some(rest) = runs.get_mut(at) {
        *rest = moved;
    }
    Ok(())
}

/// Parts a run at a place, if no run has its key there.
fn part(runs: &mut Runs, alloc: Global, key: &Place, at: &Place) -> Result<(), AllocError>
    requires laid { AreLaid runs.old }
    requires run { IsRunKey place_cmp at.now (seen runs.old.entries) (Some key.now) }
    ensures entries { all_of runs.new ≡ all_of runs.old }
    ensures laid { AreLaid runs.new }
{
    if runs.contains_key(at) {
        return Ok(());
    }
    runs.insert(at.copied(), BTreeMap::new(alloc))?;
    match move_entries(runs, key, at) {
        Ok(()) => Ok(()),
        Err(error) => {
            runs.remove(at);
            Err(error)
        }
    }
}

/// Whether the run with a key is full.
fn is_full(runs: &Runs, layout: Layout, key: &Place) -> bool {
    match runs.get(key) {
        Some(run) => run.len() >= layout.full(),
        None => false,
    }
}

/// Parts the run with a key, where a place belongs, at that place.
fn part_for(runs: &mut Runs, alloc: Global, place: &Place, key: &Place) -> Result<(), AllocError>
    requires laid { AreLaid runs.old }
    requires run { IsRunKey place_cmp place.now (seen runs.old.entries) (Some key.now) }
    ensures entries { all_of runs.new ≡ all_of runs.old }
    ensures laid { AreLaid runs.new }
{
    match runs.get(key) {
        Some(run) => {
            let at = parting(run, place);
            part(runs, alloc, key, &at)
        }
        None => Ok(()),
    }
}

/// Adds a run before all others, which has no entries yet, and gives its key.
fn add_first(runs: &mut Runs, alloc: Global, place: &Place) -> Result<Place, AllocError>
    requires laid { AreLaid runs.old }
    requires past { ArePast place_cmp place.now (seen runs.old.entries) }
    ensures run { IfOk result (λ key. IsRunKey place_cmp place.now (seen runs.new.entries) (Some key)) }
    ensures entries { all_of runs.new ≡ all_of runs.old }
    ensures laid { AreLaid runs.new }
{
    let first = Place::first();
    runs.insert(first.copied(), BTreeMap::new(alloc))?;
    Ok(first)
}

/// The key of the run where a place belongs. If there is none, it is made.
fn key_for(runs: &mut Runs, alloc: Global, place: &Place) -> Result<Place, AllocError>
    requires laid { AreLaid runs.old }
    ensures run { IfOk result (λ key. IsRunKey place_cmp place.now (seen runs.new.entries) (Some key)) }
    ensures entries { all_of runs.new ≡ all_of runs.old }
    ensures laid { AreLaid runs.new }
{
    match run_key(runs, place) {
        Some(key) => Ok(key),
        None => add_first(runs, alloc, place),
    }
}

/// The key of the run where a place belongs, which is parted first if it is full. If there is none, it is made.
fn open_run(
    runs: &mut Runs,
    alloc: Global,
    layout: Layout,
    place: &Place,
) -> Result<Place, AllocError>
    requires laid { AreLaid runs.old }
    ensures run { IfOk result (λ key. IsRunKey place_cmp place.now (seen runs.new.entries) (Some key)) }
    ensures entries { all_of runs.new ≡ all_of runs.old }
    ensures laid { AreLaid runs.new }
{
    let key = key_for(runs, alloc, place)?;
    if !is_full(runs, layout, &key) {
        return Ok(key);
    }
    part_for(runs, alloc, place, &key)?;
    key_for(runs, alloc, place)
}

/// Adds an entry to the run with a key, where its place belongs.
fn put_in(runs: &mut Runs, key: &Place, place: Place, slot: Slot) -> Result<(), AllocError>
    requires laid { AreLaid runs.old }
    requires run { IsRunKey place_cmp place (seen runs.old.entries) (Some key.now) }
    ensures ok { OnOk result (all_of runs.new ≡ insert_entry place_cmp (all_of runs.old) place slot) }
    ensures err { OnErr result (all_of runs.new ≡ all_of runs.old) }
    ensures laid { AreLaid runs.new }
{
    match runs.get_mut(key) {
        Some(run) => {
            run.insert(place, slot)?;
            Ok(())
        }
        None => unreachable!(),
    }
}

/// Adds an entry. Where memory runs out the entries are as before.
pub fn put_at(
    runs: &mut Runs,
    alloc: Global,
    layout: Layout,
    place: Place,
    slot: Slot,
) -> Result<(), AllocError>
    requires laid { AreLaid runs.old }
    ensures ok { OnOk result (all_of runs.new ≡ insert_entry place_cmp (all_of runs.old) place slot) }
    ensures err { OnErr result (all_of runs.new ≡ all_of runs.old) }
    ensures laid { AreLaid runs.new }
{
    let key = open_run(runs, alloc, layout, &place)?;
    put_in(runs, &key, place, slot)
}

/// Whether there is a run with a key that has no entries.
fn is_empty_at(runs: &Runs, key: &Place) -> bool
    ensures { result ≡ true → lookup (at (place_cmp key.now)) (seen runs.now.entries) ≡ Some [] }
{
    match runs.get(key) {
        Some(run) => run.is_empty(),
        None => false,
    }
}

/// Removes a run if it has no entries.
fn forget_empty(runs: &mut Runs, key: &Place)
    requires laid { AreLaid runs.old }
    ensures entries { all_of runs.new ≡ all_of runs.old }
    ensures laid { AreLaid runs.new }
{
    if is_empty_at(runs, key) {
        runs.remove(key);
    }
}

/// Takes the entry at a place out of the run with a key, and says whether there was one.
fn take_from(runs: &mut Runs, key: &Place, place: &Place) -> bool
    requires laid { AreLaid runs.old }
    requires run { IsRunKey place_cmp place.now (seen runs.old.entries) (Some key.now) }
    ensures there { result ≡ is_some (entry_at place.now (all_of runs.old)) }
    ensures entries { all_of runs.new ≡ remove_entry (at (place_cmp place.now)) (all_of runs.old) }
    ensures laid { AreLaid runs.new }
{
    match runs.get_mut(key) {
        Some(run) => run.remove(place).is_some(),
        None => false,
    }
}

/// Removes the entry at a place, and says whether there was one.
pub fn remove_at(runs: &mut Runs, place: &Place) -> bool
    requires laid { AreLaid runs.old }
    ensures there { result ≡ is_some (entry_at place.now (all_of runs.old)) }
    ensures entries { all_of runs.new ≡ remove_entry (at (place_cmp place.now)) (all_of runs.old) }
    ensures laid { AreLaid runs.new }
{
    let Some(key) = run_key(runs, place) else {
        return false;
    };
    let was_there = take_from(runs, &key, place);
    forget_empty(runs, &key);
    was_there
}

/// The runs that may hold entries between two places.
pub fn runs_between<'a>(runs: &'a Runs, start: &Place, last: &Place) -> Range<'a, Place, Run>
    requires laid { AreLaid runs.now }
    requires forward { is_gt (place_cmp start.now last.now) ≡ false }
    ensures { between start.now last.now (joined (seen result)) ≡ between start.now last.now (all_of runs.now) }
{
    match run_key(runs, start) {
        Some(key) => runs.range(&key..=last),
        None => runs.range(start..=last),
    }
}
