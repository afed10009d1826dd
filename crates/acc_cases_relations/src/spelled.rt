//! What the words of a line spell. A word that is no number counts as 0, and a name of no atom as `v0`.
use acc_base::forms::{Atom, Form, Lin, Rel, Unknown};
use acc_base::sequences::Seq;
use acc_base::steps::Action;
use std::alloc::{AllocError, Global};

/// What stands before the first mark, and what behind it.
pub fn parted<'a>(word: &'a str, mark: &str) -> (&'a str, &'a str) {
    word.split_once(mark).unwrap_or((word, ""))
}

fn variable(name: &str) -> u32 {
    parted(name, "v").1.parse().unwrap_or(0)
}

/// A variable, or none, and its number: `v1` is `1*v1`.
pub fn piece(word: &str) -> (Option<u32>, i64) {
    if word.starts_with('v') {
        return (Some(variable(word)), 1);
    }
    let (number, name) = parted(word, "*");
    let of = if name.is_empty() {
        None
    } else {
        Some(variable(name))
    };
    (of, number.parse().unwrap_or(0))
}

fn lin(alloc: Global, word: &str) -> Result<Lin, AllocError> {
    let mut coeffs = Vec::new(alloc);
    let mut constant = 0;
    for part in word.split('+') {
        match piece(part) {
            (Some(variable), number) => coeffs.push((variable, number))?,
            (None, number) => constant = number,
        }
    }
    Ok(Lin {
        coeffs: Seq::from_vec(coeffs),
        constant,
    })
}

/// The values of a list with commas, which ends before that mark.
fn lins(alloc: Global, list: &str, end: &str) -> Result<Seq<Lin>, AllocError> {
    let mut lins = Seq::new(alloc);
    for word in parted(list, end).0.split(',') {
        lins.push(lin(alloc, word)?)?;
    }
    Ok(lins)
}

/// Whether the row of that key is there, or what it holds; or how many rows are under it, or their sum. None of
/// another name.
fn row_atom(name: &str, key: Seq<Lin>) -> Option<Atom> {
    match name {
        "has" => Some(Atom::Has(0, key)),
        "col" => Some(Atom::Col(0, key, 0)),
        "count" => Some(Atom::Count(0, key)),
        "sum" => Some(Atom::Sum(0, key, 0)),
        _ => None,
    }
}

fn atom(alloc: Global, word: &str) -> Result<Atom, AllocError> {
    if word == "one" {
        return Ok(Atom::One);
    }
    let Some((name, list)) = word.split_once('[') else {
        return Ok(Atom::Var(variable(word)));
    };
    Ok(row_atom(name, lins(alloc, list, "]")?).unwrap_or(Atom::Var(0)))
}

/// What has to be 0 for a term to count.
fn conditions(alloc: Global, list: &str) -> Result<Seq<Lin>, AllocError> {
    if list.is_empty() {
        return Ok(Seq::new(alloc));
    }
    lins(alloc, list, "}")
}

/// The unknown of a term, without its number.
pub fn unknown(alloc: Global, word: &str) -> Result<Unknown, AllocError> {
    let (of, under) = parted(word, "{");
    let under = conditions(alloc, under)?;
    Ok(Unknown {
        under,
        atom: atom(alloc, of)?,
    })
}

fn add_word(alloc: Global, form: &mut Form, word: &str) -> Result<(), AllocError> {
    let (number, of) = parted(word, "*");
    let number: i128 = number.parse().unwrap_or(0);
    if of.is_empty() {
        form.constant = number;
        return Ok(());
    }
    form.terms.push((unknown(alloc, of)?, number))
}

/// The form of those words.
pub fn form(alloc: Global, words: &str) -> Result<Form, AllocError> {
    let terms = Seq::new(alloc);
    let mut form = Form { terms, constant: 0 };
    for word in words.split(' ') {
        add_word(alloc, &mut form, word)?;
    }
    Ok(form)
}

/// The relation of those words, which end with `= 0` or with `<= 0`.
pub fn relation(alloc: Global, words: &str) -> Result<Rel, AllocError> {
    let (equal, most) = (parted(words, " = 0").0, parted(words, " <= 0").0);
    let is_equal = equal.len() < most.len();
    let form = form(alloc, if is_equal { equal } else { most })?;
    Ok(Rel {
        form,
        equal: is_equal,
    })
}

/// The relations of those words, with `; ` between two; none of `nothing`.
pub fn relations(alloc: Global, words: &str) -> Result<Vec<Rel>, AllocError> {
    let mut relations = Vec::new(alloc);
    if words == "nothing" {
        return Ok(relations);
    }
    for one in words.split("; ") {
        relations.push(relation(alloc, one)?)?;
    }
    Ok(relations)
}

/// A change of the row of that key; none of a word that names no action.
fn change(
    alloc: Global,
    verb: &str,
    key: Seq<Lin>,
    to: &str,
) -> Result<Option<Action>, AllocError> {
    Ok(match verb {
        "put" => Some(Action::Put(0, key, lins(alloc, to, "]")?)),
        "del" => Some(Action::Del(0, key)),
        "set" => Some(Action::Set(0, key, 0, lin(alloc, to)?)),
        "add" => Some(Action::Add(0, key, 0, lin(alloc, to)?)),
        _ => None,
    })
}

fn action(alloc: Global, words: &str) -> Result<Option<Action>, AllocError> {
    let (verb, rest) = parted(words, " [");
    let (key, to) = parted(rest, "] ");
    change(alloc, verb, lins(alloc, key, "]")?, to)
}

/// The actions of those words, with `; ` between two.
pub fn actions(alloc: Global, words: &str) -> Result<Vec<Action>, AllocError> {
    let mut actions = Vec::new(alloc);
    for one in words.split("; ") {
        if let Some(action) = action(alloc, one)? {
            actions.push(action)?;
        }
    }
    Ok(actions)
}
