//! Reading clauses and variants, each a statement up to its end.
ghost use Rattle.std.specs.Prelude.{◌≡◌};
ghost use Rattle.acc_grammar.specs.Readers.{many};
ghost use Rattle.acc_grammar.specs.Answers.{Gives};
ghost use Rattle.acc_parse_syntax.specs.WordReaders.{comes};
ghost use Rattle.acc_parse_syntax.specs.ClauseReaders.{binder_at, starts_conclusion, conclusion_at, clause_at, clause_statement_at, variant_at};

use crate::parsers::Parser;
use crate::trees::{ClauseTree, FormRelTree, FormRels, Names, Sum};
use acc_base::sequences::Seq;
use acc_grammar::faults::Fault;
use acc_lex::words::Sign;

impl Parser<'_> {
    /// The variables of a clause, if it has some.
    #[tactic(auto, unfolding(crate::specs::ClauseReaders::binder_at))]
    fn binder(&mut self) -> Result<Option<Names>, Fault>
        ensures { Gives result self.new.words.now (binder_at self.old.words.now) }
    {
        if self.takes(Sign::Forall) {
            let names = self.some_names()?;
            self.sign(Sign::Colon)?;
            Ok(Some(names))
        } else {
            Ok(None)
        }
    }

    fn starts_conclusion(&self) -> bool
        ensures { result ≡ starts_conclusion self.now.words.now }
    {
        self.comes(Sign::Comma) || self.comes(Sign::Implies)
    }

    /// Where the relation that was read is a guard: the further guards, and the relation behind the arrow.
    #[tactic(auto, unfolding(crate::specs::ClauseReaders::conclusion_at))]
    fn conclusion(&mut self) -> Result<Option<(Seq<FormRelTree>, FormRelTree)>, Fault>
        ensures { Gives result self.new.words.now (conclusion_at self.old.words.now) }
    {
        if self.starts_conclusion() {
            let guards = self.further_form_rels()?;
            self.sign(Sign::Implies)?;
            let relation = self.form_rel()?;
            Ok(Some((guards, relation)))
        } else {
            Ok(None)
        }
    }

    #[tactic(auto, unfolding(crate::specs::ClauseReaders::clause_at))]
    fn clause(&mut self) -> Result<ClauseTree, Fault>
        ensures { Gives result self.new.words.now (clause_at self.old.words.now) }
    {
        let variables = self.binder()?;
        let first = self.form_rel()?;
        match self.conclusion()? {
            None => Ok(ClauseTree {
                variables,
                guards: None,
                relation: first,
            }),
            Some((others, relation)) => Ok(ClauseTree {
                variables,
                guards: Some(FormRels { first, others }),
                relation,
            }),
        }
    }

    #[tactic(auto, unfolding(crate::specs::ClauseReaders::clause_statement_at))]
    fn clause_statement(&mut self, sign: Sign) -> Result<ClauseTree, Fault>
        ensures { Gives result self.new.words.now (clause_statement_at sign self.old.words.now) }
    {
        self.sign(sign)?;
        let clause = self.clause()?;
        self.ended(clause)
    }

    /// Clauses, as long as a statement begins with the word.
    pub fn clauses(&mut self, sign: Sign) -> Result<Seq<ClauseTree>, Fault>
        ensures { Gives result self.new.words.now (many (comes sign) (clause_statement_at sign) self.old.words.now) }
    {
        let mut clauses = Seq::new(self.alloc);
        while self.comes(sign) {
            let clause = self.clause_statement(sign)?;
            clauses.push(clause)?;
        }
        Ok(clauses)
    }

    #[tactic(auto, unfolding(crate::specs::ClauseReaders::variant_at))]
    pub fn variant(&mut self) -> Result<Option<Sum>, Fault>
        ensures { Gives result self.new.words.now (variant_at self.old.words.now) }
    {
        if self.takes(Sign::Variant) {
            let value = self.sum()?;
            self.ended(Some(value))
        } else {
            Ok(None)
        }
    }
}
