//! The words of certificates.
ghost use Rattle.std.specs.Prelude.{◌≡◌};
ghost use Rattle.acc_cert_read.specs.Words.{atom_word, node_word};

use acc_base::atoms::AtomKind;

/// The kind of a node.
#[derive(Clone, Copy)]
pub enum NodeWord {
    Split,
    Inst,
    Axiom,
    Leaf,
}

/// The kind of atoms that a word names, if it names one.
pub fn atom_word(word: &str) -> Option<AtomKind>
    ensures { result ≡ atom_word word.now }
{
    match word {
        "one" => Some(AtomKind::One),
        "var" => Some(AtomKind::Var),
        "has" => Some(AtomKind::Has),
        "col" => Some(AtomKind::Col),
        "count" => Some(AtomKind::Count),
        "sum" => Some(AtomKind::Sum),
        _ => None,
    }
}

impl NodeWord {
    /// The kind that a word names, if it names one.
    pub fn named(word: &str) -> Option<Self>
        ensures { result ≡ node_word word.now }
    {
        match word {
            "split" => Some(NodeWord::Split),
            "inst" => Some(NodeWord::Inst),
            "axiom" => Some(NodeWord::Axiom),
            "leaf" => Some(NodeWord::Leaf),
            _ => None,
        }
    }
}
