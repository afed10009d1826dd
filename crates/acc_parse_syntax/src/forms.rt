//! Reading forms and relations between them.
ghost use Rattle.std.specs.Prelude.{◌≡◌};
ghost use Rattle.acc_grammar.specs.Readers.{many};
ghost use Rattle.acc_grammar.specs.Answers.{Gives};
ghost use Rattle.acc_parse_syntax.specs.WordReaders.{comes, further_at};
ghost use Rattle.acc_parse_syntax.specs.ValueReaders.{starts_signed_term};
ghost use Rattle.acc_parse_syntax.specs.FormReaders.{key_and_column_at, named_operand_at, operand_at, operand_factor_at};
ghost use Rattle.acc_parse_syntax.specs.FormReaders.{form_number_term_at, form_term_at};
ghost use Rattle.acc_parse_syntax.specs.FormReaders.{signed_form_term_at, form_at, form_rel_at};

use crate::boxes::Boxed;
use crate::parsers::Parser;
use crate::trees::{
    Cell, FormRelTree, FormTerm, FormTree, Operand, Place, SignedFormTerm, Sums, Variable,
};
use acc_base::sequences::{Seq, Text};
use acc_grammar::faults::Fault;
use acc_lex::words::Sign;

impl Parser<'_> {
    /// What a table's name stands before.
    #[tactic(auto, unfolding(crate::specs::FormReaders::key_and_column_at))]
    fn key_and_column(&mut self) -> Result<Option<(Boxed<Sums>, Text)>, Fault>
        ensures { Gives result self.new.words.now (key_and_column_at self.old.words.now) }
    {
        if self.takes(Sign::Open) {
            let key = self.sums()?;
            self.sign(Sign::Close)?;
            self.sign(Sign::Dot)?;
            let column = self.name()?;
            Ok(Some((key, column)))
        } else {
            Ok(None)
        }
    }

    /// A variable, or a column of a row.
    #[tactic(auto, unfolding(crate::specs::FormReaders::named_operand_at))]
    fn named_operand(&mut self) -> Result<Operand, Fault>
        ensures { Gives result self.new.words.now (named_operand_at self.old.words.now) }
    {
        let name = self.name()?;
        match self.key_and_column()? {
            None => Ok(Operand::Variable(Variable::Named(name))),
            Some((key, column)) => {
                let place = Place { table: name, key };
                Ok(Operand::Column(Cell { place, column }))
            }
        }
    }

    #[tactic(auto, unfolding(crate::specs::FormReaders::operand_at))]
    fn operand(&mut self) -> Result<Operand, Fault>
        ensures { Gives result self.new.words.now (operand_at self.old.words.now) }
    {
        if self.takes(Sign::Has) {
            Ok(Operand::Has(self.place()?))
        } else if self.takes(Sign::Count) {
            Ok(Operand::Count(self.place()?))
        } else if self.takes(Sign::Sum) {
            Ok(Operand::Sum(self.cell()?))
        } else if self.takes(Sign::Oneself) {
            Ok(Operand::Variable(Variable::Oneself))
        } else {
            self.named_operand()
        }
    }

    #[tactic(auto, unfolding(crate::specs::FormReaders::operand_factor_at))]
    fn operand_factor(&mut self) -> Result<Option<Operand>, Fault>
        ensures { Gives result self.new.words.now (operand_factor_at self.old.words.now) }
    {
        if self.takes(Sign::Times) {
            Ok(Some(self.operand()?))
        } else {
            Ok(None)
        }
    }

    #[tactic(auto, unfolding(crate::specs::FormReaders::form_number_term_at))]
    fn form_number_term(&mut self) -> Result<FormTerm, Fault>
        ensures { Gives result self.new.words.now (form_number_term_at self.old.words.now) }
    {
        let number = self.number()?;
        match self.operand_factor()? {
            None => Ok(FormTerm::Constant(number)),
            Some(operand) => Ok(FormTerm::Product(number, operand)),
        }
    }

    #[tactic(auto, unfolding(crate::specs::FormReaders::form_term_at))]
    fn form_term(&mut self) -> Result<FormTerm, Fault>
        ensures { Gives result self.new.words.now (form_term_at self.old.words.now) }
    {
        if self.is_number() {
            self.form_number_term()
        } else {
            Ok(FormTerm::Plain(self.operand()?))
        }
    }

    #[tactic(auto, unfolding(crate::specs::FormReaders::signed_form_term_at))]
    fn signed_form_term(&mut self) -> Result<SignedFormTerm, Fault>
        ensures { Gives result self.new.words.now (signed_form_term_at self.old.words.now) }
    {
        let minus = self.direction()?;
        let term = self.form_term()?;
        Ok(SignedFormTerm { minus, term })
    }

    fn signed_form_terms(&mut self) -> Result<Seq<SignedFormTerm>, Fault>
        ensures { Gives result self.new.words.now (many starts_signed_term signed_form_term_at self.old.words.now) }
    {
        let mut terms = Seq::new(self.alloc);
        while self.starts_signed_term() {
            let term = self.signed_form_term()?;
            terms.push(term)?;
        }
        Ok(terms)
    }

    #[tactic(auto, unfolding(crate::specs::FormReaders::form_at))]
    fn form(&mut self) -> Result<Boxed<FormTree>, Fault>
        ensures { Gives result self.new.words.now (form_at self.old.words.now) }
    {
        let minus = self.minus();
        let first = self.form_term()?;
        let others = self.signed_form_terms()?;
        let form = FormTree {
            minus,
            first,
            others,
        };
        Ok(Boxed::new(self.alloc, form)?)
    }

    #[tactic(auto, unfolding(crate::specs::FormReaders::form_rel_at))]
    pub fn form_rel(&mut self) -> Result<FormRelTree, Fault>
        ensures { Gives result self.new.words.now (form_rel_at self.old.words.now) }
    {
        let left = self.form()?;
        let relation = self.relation()?;
        let right = self.form()?;
        Ok(FormRelTree {
            left,
            relation,
            right,
        })
    }

    pub fn further_form_rels(&mut self) -> Result<Seq<FormRelTree>, Fault>
        ensures { Gives result self.new.words.now (many (comes Sign.Comma) (further_at form_rel_at) self.old.words.now) }
    {
        let mut rels = Seq::new(self.alloc);
        while self.takes(Sign::Comma) {
            let rel = self.form_rel()?;
            rels.push(rel)?;
        }
        Ok(rels)
    }
}
