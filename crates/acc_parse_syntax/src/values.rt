//! Reading linear values, rows and guards.
ghost use Rattle.std.specs.Prelude.{◌≡◌, Ok};
ghost use Rattle.acc_grammar.specs.Readers.{many};
ghost use Rattle.acc_grammar.specs.Answers.{Gives};
ghost use Rattle.acc_parse_syntax.specs.WordReaders.{comes, further_at};
ghost use Rattle.acc_parse_syntax.specs.ValueReaders.{variable_at, factor_at, number_term_at, term_at, minus_at, direction_at, signed_term_at};
ghost use Rattle.acc_parse_syntax.specs.ValueReaders.{starts_signed_term, sum_at, starts_sum, sums_at, values_at, place_at, cell_at, relation_at};
ghost use Rattle.acc_parse_syntax.specs.ValueReaders.{lin_rel_at, lin_rels_at, guard_at};

use crate::boxes::Boxed;
use crate::parsers::Parser;
use crate::trees::{
    Cell, LinRelTree, LinRels, Place, Relation, SignedTerm, Sum, Sums, Term, Variable,
};
use acc_base::sequences::Seq;
use acc_grammar::faults::Fault;
use acc_lex::words::Sign;

impl Parser<'_> {
    #[tactic(auto, unfolding(crate::specs::ValueReaders::variable_at))]
    pub fn variable(&mut self) -> Result<Variable, Fault>
        ensures { Gives result self.new.words.now (variable_at self.old.words.now) }
    {
        if self.takes(Sign::Oneself) {
            Ok(Variable::Oneself)
        } else {
            Ok(Variable::Named(self.name()?))
        }
    }

    #[tactic(auto, unfolding(crate::specs::ValueReaders::factor_at))]
    fn factor(&mut self) -> Result<Option<Variable>, Fault>
        ensures { Gives result self.new.words.now (factor_at self.old.words.now) }
    {
        if self.takes(Sign::Times) {
            Ok(Some(self.variable()?))
        } else {
            Ok(None)
        }
    }

    #[tactic(auto, unfolding(crate::specs::ValueReaders::number_term_at))]
    fn number_term(&mut self) -> Result<Term, Fault>
        ensures { Gives result self.new.words.now (number_term_at self.old.words.now) }
    {
        let number = self.number()?;
        match self.factor()? {
            None => Ok(Term::Constant(number)),
            Some(variable) => Ok(Term::Product(number, variable)),
        }
    }

    #[tactic(auto, unfolding(crate::specs::ValueReaders::term_at))]
    fn term(&mut self) -> Result<Term, Fault>
        ensures { Gives result self.new.words.now (term_at self.old.words.now) }
    {
        if self.is_number() {
            self.number_term()
        } else {
            Ok(Term::Plain(self.variable()?))
        }
    }

    #[tactic(auto, unfolding(crate::specs::ValueReaders::minus_at))]
    pub fn minus(&mut self) -> bool
        ensures { minus_at self.old.words.now ≡ Ok (result, self.new.words.now) }
    {
        self.takes(Sign::Minus)
    }

    #[tactic(auto, unfolding(crate::specs::ValueReaders::direction_at))]
    pub fn direction(&mut self) -> Result<bool, Fault>
        ensures { Gives result self.new.words.now (direction_at self.old.words.now) }
    {
        if self.takes(Sign::Minus) {
            Ok(true)
        } else {
            self.sign(Sign::Plus)?;
            Ok(false)
        }
    }

    #[tactic(auto, unfolding(crate::specs::ValueReaders::signed_term_at))]
    fn signed_term(&mut self) -> Result<SignedTerm, Fault>
        ensures { Gives result self.new.words.now (signed_term_at self.old.words.now) }
    {
        let minus = self.direction()?;
        let term = self.term()?;
        Ok(SignedTerm { minus, term })
    }

    pub fn starts_signed_term(&self) -> bool
        ensures { result ≡ starts_signed_term self.now.words.now }
    {
        self.comes(Sign::Plus) || self.comes(Sign::Minus)
    }

    fn signed_terms(&mut self) -> Result<Seq<SignedTerm>, Fault>
        ensures { Gives result self.new.words.now (many starts_signed_term signed_term_at self.old.words.now) }
    {
        let mut terms = Seq::new(self.alloc);
        while self.starts_signed_term() {
            let term = self.signed_term()?;
            terms.push(term)?;
        }
        Ok(terms)
    }

    #[tactic(auto, unfolding(crate::specs::ValueReaders::sum_at))]
    pub fn sum(&mut self) -> Result<Sum, Fault>
        ensures { Gives result self.new.words.now (sum_at self.old.words.now) }
    {
        let minus = self.minus();
        let first = self.term()?;
        let others = self.signed_terms()?;
        Ok(Sum {
            minus,
            first,
            others,
        })
    }

    fn starts_sum(&self) -> bool
        ensures { result ≡ starts_sum self.now.words.now }
    {
        self.is_number() || self.is_name() || self.comes(Sign::Oneself) || self.comes(Sign::Minus)
    }

    fn further_sums(&mut self) -> Result<Seq<Sum>, Fault>
        ensures { Gives result self.new.words.now (many (comes Sign.Comma) (further_at sum_at) self.old.words.now) }
    {
        let mut sums = Seq::new(self.alloc);
        while self.takes(Sign::Comma) {
            let sum = self.sum()?;
            sums.push(sum)?;
        }
        Ok(sums)
    }

    #[tactic(auto, unfolding(crate::specs::ValueReaders::sums_at))]
    pub fn sums(&mut self) -> Result<Boxed<Sums>, Fault>
        ensures { Gives result self.new.words.now (sums_at self.old.words.now) }
    {
        let first = self.sum()?;
        let others = self.further_sums()?;
        Ok(Boxed::new(self.alloc, Sums { first, others })?)
    }

    #[tactic(auto, unfolding(crate::specs::ValueReaders::values_at))]
    pub fn values(&mut self) -> Result<Option<Boxed<Sums>>, Fault>
        ensures { Gives result self.new.words.now (values_at self.old.words.now) }
    {
        if self.starts_sum() {
            Ok(Some(self.sums()?))
        } else {
            Ok(None)
        }
    }

    #[tactic(auto, unfolding(crate::specs::ValueReaders::place_at))]
    pub fn place(&mut self) -> Result<Place, Fault>
        ensures { Gives result self.new.words.now (place_at self.old.words.now) }
    {
        let table = self.name()?;
        self.sign(Sign::Open)?;
        let key = self.sums()?;
        self.sign(Sign::Close)?;
        Ok(Place { table, key })
    }

    #[tactic(auto, unfolding(crate::specs::ValueReaders::cell_at))]
    pub fn cell(&mut self) -> Result<Cell, Fault>
        ensures { Gives result self.new.words.now (cell_at self.old.words.now) }
    {
        let place = self.place()?;
        self.sign(Sign::Dot)?;
        let column = self.name()?;
        Ok(Cell { place, column })
    }

    #[tactic(auto, unfolding(crate::specs::ValueReaders::relation_at))]
    pub fn relation(&mut self) -> Result<Relation, Fault>
        ensures { Gives result self.new.words.now (relation_at self.old.words.now) }
    {
        if self.takes(Sign::AtMost) {
            Ok(Relation::AtMost)
        } else if self.takes(Sign::AtLeast) {
            Ok(Relation::AtLeast)
        } else {
            self.sign(Sign::Equal)?;
            Ok(Relation::Equal)
        }
    }

    #[tactic(auto, unfolding(crate::specs::ValueReaders::lin_rel_at))]
    fn lin_rel(&mut self) -> Result<LinRelTree, Fault>
        ensures { Gives result self.new.words.now (lin_rel_at self.old.words.now) }
    {
        let left = self.sum()?;
        let relation = self.relation()?;
        let right = self.sum()?;
        Ok(LinRelTree {
            left,
            relation,
            right,
        })
    }

    fn further_lin_rels(&mut self) -> Result<Seq<LinRelTree>, Fault>
        ensures { Gives result self.new.words.now (many (comes Sign.Comma) (further_at lin_rel_at) self.old.words.now) }
    {
        let mut rels = Seq::new(self.alloc);
        while self.takes(Sign::Comma) {
            let rel = self.lin_rel()?;
            rels.push(rel)?;
        }
        Ok(rels)
    }

    #[tactic(auto, unfolding(crate::specs::ValueReaders::lin_rels_at))]
    fn lin_rels(&mut self) -> Result<Boxed<LinRels>, Fault>
        ensures { Gives result self.new.words.now (lin_rels_at self.old.words.now) }
    {
        let first = self.lin_rel()?;
        let others = self.further_lin_rels()?;
        Ok(Boxed::new(self.alloc, LinRels { first, others })?)
    }

    #[tactic(auto, unfolding(crate::specs::ValueReaders::guard_at))]
    pub fn guard(&mut self) -> Result<Option<Boxed<LinRels>>, Fault>
        ensures { Gives result self.new.words.now (guard_at self.old.words.now) }
    {
        if self.starts_sum() {
            Ok(Some(self.lin_rels()?))
        } else {
            Ok(None)
        }
    }
}
