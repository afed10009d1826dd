//! The number of an undo step that an obligation on ranges is about.
use crate::keys::action_key;
use crate::names::{locals_of, path_of, resting_at};
use crate::values::push_lin;
use acc_base::designs::{At, Design};
use acc_base::forms::Lin;
use acc_base::sequences::Text;
use acc_base::sequents::{Origin, Rule};
use acc_base::steps::{Action, Read};
use acc_page::Page;

/// A number that a step uses.
enum StepNumber<'a> {
    /// A component of a key, or what an action writes.
    Value(&'a Lin),
    /// What a read assigns to a local.
    Assigned(u32),
}

/// The key, or the front of one, that a read names.
fn read_key(read: &Read) -> &[Lin] {
    match read {
        Read::Col(_, _, key, _) | Read::Sum(_, _, key, _) => key.as_slice(),
        Read::Has(_, _, key) | Read::Count(_, _, key) => key.as_slice(),
        Read::Least(_, _, key) | Read::Greatest(_, _, key) => key.as_slice(),
        Read::Let(_, _) | Read::Take(_) | Read::Mul(_, _, _) | Read::Div(_, _, _) => &[],
    }
}

/// What an action writes that has this place among it.
fn written(action: &Action, place: usize) -> Option<&Lin> {
    match action {
        Action::Put(_, _, values) => values.as_slice().get(place),
        Action::Del(_, _) => None,
        Action::Set(_, _, _, value) | Action::Add(_, _, _, value) if place == 0 => Some(value),
        Action::Set(_, _, _, _) | Action::Add(_, _, _, _) => None,
    }
}

/// How many values an action writes.
fn writes(action: &Action) -> usize {
    match action {
        Action::Put(_, _, values) => values.len(),
        Action::Del(_, _) => 0,
        Action::Set(_, _, _, _) | Action::Add(_, _, _, _) => 1,
    }
}

/// How many numbers some reads use: of each its key's, and its value.
fn count_of(reads: &[Read]) -> usize {
    let mut count: usize = 0;
    for read in reads {
        count = count.saturating_add(read_key(read).len()).saturating_add(1);
    }
    count
}

/// The number of some reads with this place.
fn among_reads(reads: &[Read], place: usize) -> Option<StepNumber<'_>> {
    let mut left = place;
    for read in reads {
        let key = read_key(read);
        if let Some(value) = key.get(left) {
            return Some(StepNumber::Value(value));
        }
        left = left.saturating_sub(key.len());
        if left == 0 {
            return Some(StepNumber::Assigned(read.assigned()));
        }
        left -= 1;
    }
    None
}

/// The number of some actions with this place: of each its key's, and then what it writes.
fn among_actions(actions: &[Action], place: usize) -> Option<StepNumber<'_>> {
    let mut left = place;
    for action in actions {
        let key = action_key(action);
        if let Some(value) = key.get(left) {
            return Some(StepNumber::Value(value));
        }
        left = left.saturating_sub(key.len());
        if let Some(value) = written(action, left) {
            return Some(StepNumber::Value(value));
        }
        left = left.saturating_sub(writes(action));
    }
    None
}

/// The number that an obligation on ranges is about.
fn number_of<'a>(d: &'a Design, at: At, origin: &Origin) -> Option<StepNumber<'a>> {
    let place = origin.clause.checked_sub(1)? as usize;
    let reads = d.step(at, origin.side)?.reads.as_slice();
    match path_of(d, origin) {
        Some(path) => {
            let behind = place.checked_sub(count_of(reads))?;
            among_actions(path.actions.as_slice(), behind)
        }
        None => among_reads(reads, place),
    }
}

/// Writes the name of a local.
fn push_local(out: &mut Page, locals: &[Text], local: u32) {
    if let Some(name) = locals.get(local as usize) {
        out.push(name.as_slice());
    }
}

/// Writes the number that an obligation on ranges is about, as the design spells it.
fn push_ranged(out: &mut Page, d: &Design, origin: &Origin) {
    let Some(at) = origin.at else {
        return;
    };
    match number_of(d, at, origin) {
        Some(StepNumber::Value(value)) => push_lin(out, d, &resting_at(at), value),
        Some(StepNumber::Assigned(local)) => push_local(out, locals_of(d, at), local),
        None => {}
    }
}

/// Writes the number that an obligation on ranges is about, as the design spells it; nothing for an obligation of another rule.
pub fn push_number(out: &mut Page, d: &Design, origin: &Origin) {
    match origin.rule {
        Rule::Ranges => push_ranged(out, d, origin),
        Rule::Begins | Rule::Promises | Rule::Always | Rule::Spares => {}
        Rule::There | Rule::Variants | Rule::Clears | Rule::Empty => {}
    }
}
