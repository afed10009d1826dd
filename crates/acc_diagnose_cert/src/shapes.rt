//! The shapes of a certificate's parts, and what each is in words.
use acc_axioms::{Arguments, AxiomKind};
use acc_base::atoms::AtomKind;
use acc_cert_read::words::{NodeWord, atom_word};
use acc_diagnose_words::push_with;
use acc_page::Page;

/// What a part of a certificate should be.
#[derive(Clone, Copy, PartialEq, Eq)]
pub enum PartShape {
    Certificate,
    Proof,
    Node,
    NodeWord,
    AxiomNumber,
    /// The arguments of an axiom.
    Arguments(Arguments),
    Unknown,
    Atom,
    AtomWord,
    Form,
    Terms,
    Term,
    Lin,
    LinTerms,
    LinTerm,
    Key,
    Lists,
    Mults,
    Mult,
    Index,
    Wide,
    Narrow,
    /// Nothing: the array before it is full.
    Surplus,
}

/// The item of an array of items of these shapes.
fn one_of(shapes: &[PartShape], number: u64) -> PartShape {
    for (i, shape) in shapes.iter().enumerate() {
        if i as u64 == number {
            return *shape;
        }
    }
    PartShape::Surplus
}

/// What the arguments of the axiom with this number are; an unknown where there is no such axiom.
fn arguments_of(axiom: u64) -> Arguments {
    let kind = match u32::try_from(axiom) {
        Ok(number) => AxiomKind::of(number),
        Err(_) => None,
    };
    match kind {
        Some(kind) => kind.arguments(),
        None => Arguments::Unknown,
    }
}

/// The word between the quotes of a string, as it stands in the file; none of what is no string.
fn unquoted(string: &[u8]) -> Option<&str> {
    let behind = string.strip_prefix(b"\"")?;
    str::from_utf8(behind.strip_suffix(b"\"")?).ok()
}

/// The item of a node that begins with this word; none is no node's.
fn of_node(word: Option<NodeWord>, axiom: u64, number: u64) -> PartShape {
    match word {
        Some(NodeWord::Split) => one_of(&[PartShape::NodeWord, PartShape::Form], number),
        Some(NodeWord::Inst) => one_of(
            &[
                PartShape::NodeWord,
                PartShape::Index,
                PartShape::Key,
                PartShape::Lists,
            ],
            number,
        ),
        Some(NodeWord::Axiom) => {
            let shapes = [
                PartShape::NodeWord,
                PartShape::AxiomNumber,
                PartShape::Arguments(arguments_of(axiom)),
                PartShape::Lists,
            ];
            one_of(&shapes, number)
        }
        Some(NodeWord::Leaf) => one_of(&[PartShape::NodeWord, PartShape::Mults], number),
        None => PartShape::NodeWord,
    }
}

/// The item of the arguments of an axiom.
fn of_arguments(arguments: Arguments, number: u64) -> PartShape {
    match arguments {
        Arguments::TableKey => one_of(&[PartShape::Index, PartShape::Key], number),
        Arguments::TableKeyNumber => one_of(
            &[PartShape::Index, PartShape::Key, PartShape::Index],
            number,
        ),
        Arguments::UnknownPair => one_of(&[PartShape::Unknown, PartShape::Unknown], number),
        Arguments::Unknown => one_of(&[PartShape::Unknown], number),
        Arguments::UnknownPlaceSide => {
            one_of(
                &[PartShape::Unknown, PartShape::Index, PartShape::Index],
                number,
            )
        }
    }
}

/// The item of an atom that begins with the word of this kind; none is no atom's.
fn of_atom(kind: Option<AtomKind>, number: u64) -> PartShape {
    match kind {
        Some(AtomKind::One) => one_of(&[PartShape::AtomWord], number),
        Some(AtomKind::Var) => one_of(&[PartShape::AtomWord, PartShape::Index], number),
        Some(AtomKind::Has | AtomKind::Count) => {
            one_of(
                &[PartShape::AtomWord, PartShape::Index, PartShape::Key],
                number,
            )
        }
        Some(AtomKind::Col | AtomKind::Sum) => one_of(
            &[
                PartShape::AtomWord,
                PartShape::Index,
                PartShape::Key,
                PartShape::Index,
            ],
            number,
        ),
        None => PartShape::AtomWord,
    }
}

/// The item with this number of a part of this shape, which begins with this word, as it stands in the file, and has this axiom's number,
/// where it is a node.
pub fn item_shape(shape: PartShape, word: &[u8], axiom: u64, number: u64) -> PartShape {
    match shape {
        PartShape::Certificate => PartShape::Proof,
        PartShape::Proof => PartShape::Node,
        PartShape::Node => of_node(unquoted(word).and_then(NodeWord::named), axiom, number),
        PartShape::Arguments(arguments) => of_arguments(arguments, number),
        PartShape::Unknown => one_of(&[PartShape::Key, PartShape::Atom], number),
        PartShape::Atom => of_atom(unquoted(word).and_then(atom_word), number),
        PartShape::Form => one_of(&[PartShape::Terms, PartShape::Wide], number),
        PartShape::Terms => PartShape::Term,
        PartShape::Term => one_of(&[PartShape::Unknown, PartShape::Wide], number),
        PartShape::Lin => one_of(&[PartShape::LinTerms, PartShape::Narrow], number),
        PartShape::LinTerms => PartShape::LinTerm,
        PartShape::LinTerm => one_of(&[PartShape::Index, PartShape::Narrow], number),
        PartShape::Key => PartShape::Lin,
        PartShape::Lists => PartShape::Mults,
        PartShape::Mults => PartShape::Mult,
        PartShape::Mult => one_of(&[PartShape::Index, PartShape::Wide], number),
        PartShape::NodeWord | PartShape::AtomWord | PartShape::AxiomNumber => PartShape::Surplus,
        PartShape::Index | PartShape::Wide | PartShape::Narrow | PartShape::Surplus =>
            PartShape::Surplus,
    }
}

/// The arguments of an axiom, in words.
fn arguments_text(arguments: Arguments) -> &'static [u8] {
    match arguments {
        Arguments::TableKey => b"the arguments `[TABLE, [LIN, ..]]`",
        Arguments::TableKeyNumber => b"the arguments `[TABLE, [LIN, ..], NUMBER]`",
        Arguments::UnknownPair => b"the arguments `[UNKNOWN, UNKNOWN]`",
        Arguments::Unknown => b"the arguments `[UNKNOWN]`",
        Arguments::UnknownPlaceSide => b"the arguments `[UNKNOWN, NUMBER, SIDE]`",
    }
}

/// A list of parts, in words; none where the shape is no list.
fn list_text(shape: PartShape) -> Option<&'static [u8]> {
    match shape {
        PartShape::Certificate => Some(b"a certificate `[PROOF, ..]`"),
        PartShape::Proof => Some(b"a proof `[NODE, ..]`"),
        PartShape::Terms => Some(b"terms `[[UNKNOWN, \"COEFFICIENT\"], ..]`"),
        PartShape::LinTerms => Some(b"terms `[[VARIABLE, \"COEFFICIENT\"], ..]`"),
        PartShape::Key => Some(b"linear values `[LIN, ..]`"),
        PartShape::Lists => Some(
            b"lists of multipliers `[[[RELATION, \"MULTIPLIER\"], ..], ..]`, one a fact that is shown",
        ),
        PartShape::Mults => Some(b"multipliers `[[RELATION, \"MULTIPLIER\"], ..]`"),
        PartShape::Node
        | PartShape::Arguments(_)
        | PartShape::Unknown
        | PartShape::Atom
        | PartShape::Form => None,
        PartShape::Term | PartShape::Lin | PartShape::LinTerm | PartShape::Mult => None,
        PartShape::NodeWord | PartShape::AtomWord | PartShape::AxiomNumber => None,
        PartShape::Index | PartShape::Wide | PartShape::Narrow | PartShape::Surplus => None,
    }
}

/// An array with parts of several shapes, in words; none where the shape is no such array.
fn parts_text(shape: PartShape) -> Option<&'static [u8]> {
    match shape {
        PartShape::Node => Some(
            b"a node `[\"split\", FORM]`, `[\"inst\", H, [LIN, ..], [M, ..]]`, `[\"axiom\", N, ARGS, [M, ..]]` or `[\"leaf\", M]`",
        ),
        PartShape::Arguments(arguments) => Some(arguments_text(arguments)),
        PartShape::Unknown => Some(b"an unknown `[[LIN, ..], ATOM]`"),
        PartShape::Atom => Some(
            b"an atom, such as `[\"var\", V]`, `[\"has\", T, [LIN, ..]]` or `[\"col\", T, [LIN, ..], C]`",
        ),
        PartShape::Form => Some(b"a form `[[[UNKNOWN, \"COEFFICIENT\"], ..], \"CONSTANT\"]`"),
        PartShape::Term => Some(b"a term `[UNKNOWN, \"COEFFICIENT\"]`"),
        PartShape::Lin => Some(
            b"a linear value `[[[VARIABLE, \"COEFFICIENT\"], ..], \"CONSTANT\"]`",
        ),
        PartShape::LinTerm => Some(b"a term `[VARIABLE, \"COEFFICIENT\"]`"),
        PartShape::Mult => Some(b"a pair `[RELATION, \"MULTIPLIER\"]`"),
        PartShape::Certificate | PartShape::Proof | PartShape::Terms | PartShape::LinTerms => None,
        PartShape::Key | PartShape::Lists | PartShape::Mults => None,
        PartShape::NodeWord | PartShape::AtomWord | PartShape::AxiomNumber => None,
        PartShape::Index | PartShape::Wide | PartShape::Narrow | PartShape::Surplus => None,
    }
}

/// An array, in words; none where the shape is no array.
fn array_text(shape: PartShape) -> Option<&'static [u8]> {
    match list_text(shape) {
        Some(text) => Some(text),
        None => parts_text(shape),
    }
}

/// Whether a part of this shape is an array.
pub fn is_array(shape: PartShape) -> bool {
    array_text(shape).is_some()
}

/// How many kinds of axioms there are: their numbers go from 1 to this.
fn kinds() -> usize {
    (1..=u32::from(u8::MAX))
        .filter(|number| AxiomKind::of(*number).is_some())
        .count()
}

/// Writes what a part that is no array should be.
fn push_single(out: &mut Page, shape: PartShape) {
    match shape {
        PartShape::NodeWord => out.push(
            b"one of the words `\"split\"`, `\"inst\"`, `\"axiom\"` and `\"leaf\"`",
        ),
        PartShape::AxiomNumber => push_with(
            out,
            b"the number of an axiom, from 1 to ",
            kinds(),
            b"",
        ),
        PartShape::AtomWord => out.push(
            b"one of the words `\"one\"`, `\"var\"`, `\"has\"`, `\"col\"`, `\"count\"` and `\"sum\"`",
        ),
        PartShape::Index => push_with(
            out,
            b"a whole number from 0 to ",
            u32::MAX,
            b", in digits alone and without quotes",
        ),
        PartShape::Wide => out.push(
            b"a number in quotes: digits without leading zeros, with a `-` where it is below 0, within 2^120 of 0",
        ),
        PartShape::Narrow => out.push(
            b"a number in quotes: digits without leading zeros, with a `-` where it is below 0, of 64 bits",
        ),
        PartShape::Surplus => out.push(b"the end of the array"),
        PartShape::Certificate | PartShape::Proof | PartShape::Node | PartShape::Arguments(_) => {}
        PartShape::Unknown
        | PartShape::Atom
        | PartShape::Form
        | PartShape::Terms
        | PartShape::Term => {}
        PartShape::Lin | PartShape::LinTerms | PartShape::LinTerm | PartShape::Key => {}
        PartShape::Lists | PartShape::Mults | PartShape::Mult => {}
    }
}

/// Writes what a part should be.
pub fn push_shape(out: &mut Page, shape: PartShape) {
    match array_text(shape) {
        Some(text) => out.push(text),
        None => push_single(out, shape),
    }
}
