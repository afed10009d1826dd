//! The keys of rows, and the variables of atoms.
use acc_base::forms::{Atom, Lin};
use acc_base::steps::Action;

/// Whether a value is this variable alone.
pub fn is_alone(value: &Lin, variable: usize) -> bool {
    match value.coeffs.as_slice() {
        [(x, times)] => *x as usize == variable && *times == 1 && value.constant == 0,
        _ => false,
    }
}

/// The variable that an atom is, if it is one.
pub fn variable_in(atom: &Atom) -> Option<u32> {
    match atom {
        Atom::Var(variable) => Some(*variable),
        Atom::One | Atom::Has(_, _) | Atom::Col(_, _, _) => None,
        Atom::Count(_, _) | Atom::Sum(_, _, _) => None,
    }
}

/// The key of the row that an action changes.
pub fn action_key(action: &Action) -> &[Lin] {
    match action {
        Action::Put(_, key, _) | Action::Del(_, key) => key.as_slice(),
        Action::Set(_, key, _, _) | Action::Add(_, key, _, _) => key.as_slice(),
    }
}
