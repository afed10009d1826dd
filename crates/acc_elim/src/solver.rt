//! Relations that are asked again and again whether they hold at some point.
ghost use Rattle.std.specs.Prelude.{◌≡◌, ◌∷◌, ◌++◌, [], Ok, IfOk, IfErr, OnOk};
ghost use Rattle.acc_base.specs.Computing.{StopsBy};
ghost use Rattle.acc_elim_readings.specs.Readings.{unknowns_of};
ghost use Rattle.acc_elim_decisions.specs.Causes.{tells};
ghost use Rattle.acc_elim_decisions.specs.Decisions.{ended, decision};

use crate::keeping::{Kept, searched, searched_with};
use acc_base::forms::{Rel, Unknown};
use acc_base::sequences::Seq;
use acc_elim_decisions::deciding::ended;
use acc_elim_decisions::reading::unknowns;
use acc_elim_decisions::verdicts::{ElimError, Verdict};
use acc_rows::stops::Stop;
use std::alloc::{AllocError, Global};
use std::marker::Model;

/// Relations, one behind the other, and what is kept of them. Each is read once, when it is first asked about; their equations are used
/// once for all questions until another equation comes, and also where they stop the elimination.
#[derive(Drop)]
pub struct Solver {
    rels: Vec<Rel>,
    kept: Kept,
}

impl Model for Solver {
    ghost use Rattle.std.specs.Prelude.{List};
    ghost use Rattle.acc_base.specs.declared.forms.Rel.{Rel};

    ghost Value = { List Rel };

    ghost use Rattle.acc_elim.specs.Keepings.{AreKept};

    ghost view = { λ s. s.rels.items };

    ghost invariant = { λ s. AreKept s.rels.items s.kept };
}

/// What the end of a search decides where one more relation comes behind the others.
fn ended_with(
    alloc: Global,
    rels: &mut Vec<Rel>,
    last: Rel,
    end: Result<Seq<(i128, i128)>, Stop>,
) -> Result<Verdict, ElimError>
    ensures value { IfOk result (λ v. ended (rels.old.items ++ last ∷ []) end ≡ Ok v) }
    ensures stops { IfErr result (λ e. StopsBy (tells e) e (ended (rels.old.items ++ last ∷ []) end)) }
    ensures same { rels.new.items ≡ rels.old.items }
{
    rels.push(last)?;
    let verdict = ended(alloc, rels.as_slice(), end);
    rels.pop();
    verdict
}

impl Solver {
    /// These relations.
    pub fn new(alloc: Global, rels: Vec<Rel>) -> Self
        ensures { result ≡ rels.items }
    {
        Solver {
            rels,
            kept: Kept::new(alloc),
        }
    }

    /// The relations, in order.
    pub fn as_slice(&self) -> &[Rel]
        ensures { result.now ≡ self.now }
    {
        self.rels.as_slice()
    }

    /// One more relation behind the others.
    pub fn push(&mut self, rel: Rel) -> Result<(), AllocError>
        ensures { OnOk result (self.new ≡ self.old ++ rel ∷ []) }
    {
        self.rels.push(rel)?;
        Ok(())
    }

    /// The unknowns of the relations, each once, in the order of first appearance.
    pub fn unknowns(&self, alloc: Global) -> Result<Vec<Unknown>, AllocError>
        ensures { IfOk result (λ names. names.items ≡ unknowns_of self.now) }
    {
        unknowns(alloc, &self.kept.reading, self.rels.as_slice())
    }

    /// Whether the relations hold at some point, as `decide` tells it.
    pub fn decide(&mut self, alloc: Global) -> Result<Verdict, ElimError>
        ensures value { IfOk result (λ v. decision self.old ≡ Ok v) }
        ensures stops { IfErr result (λ e. StopsBy (tells e) e (decision self.old)) }
        ensures same { self.new ≡ self.old }
    {
        let end = searched(alloc, &mut self.kept, self.rels.as_slice());
        ended(alloc, self.rels.as_slice(), end)
    }

    /// The same of the relations with one more behind them, which doesn't stay.
    pub fn decide_with(&mut self, alloc: Global, last: Rel) -> Result<Verdict, ElimError>
        ensures value { IfOk result (λ v. decision (self.old ++ last ∷ []) ≡ Ok v) }
        ensures stops { IfErr result (λ e. StopsBy (tells e) e (decision (self.old ++ last ∷ []))) }
        ensures same { self.new ≡ self.old }
    {
        let end = searched_with(alloc, &mut self.kept, self.rels.as_slice(), &last);
        ended_with(alloc, &mut self.rels, last, end)
    }
}
