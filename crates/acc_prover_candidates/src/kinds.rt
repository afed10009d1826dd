//! The kinds of axioms in the order in which they are tried.
ghost use Rattle.std.specs.Prelude.{◌≡◌};
ghost use Rattle.acc_prover_candidates.specs.Kinds.{kinds, NamesEachKind};

use acc_axioms::kinds::AxiomKind;

/// All kinds, in the order in which they are tried.
pub fn all_kinds() -> [AxiomKind; 12]
    ensures value { result ≡ kinds }
    ensures each { NamesEachKind result }
{
    [
        AxiomKind::Shut,
        AxiomKind::Opened,
        AxiomKind::Empty,
        AxiomKind::Fresh,
        AxiomKind::Same,
        AxiomKind::OneCount,
        AxiomKind::OneSum,
        AxiomKind::Has,
        AxiomKind::Count,
        AxiomKind::Front,
        AxiomKind::NoCol,
        AxiomKind::NoSum,
    ]
}
