//! Reading tables, and statements of names, each up to its end.
ghost use Rattle.std.specs.Prelude.{◌≡◌};
ghost use Rattle.acc_grammar.specs.Readers.{many};
ghost use Rattle.acc_grammar.specs.Answers.{Gives};
ghost use Rattle.acc_parse_syntax.specs.TableReaders.{private_at, table_at, starts_table, names_at, names_statement_at};

use crate::parsers::Parser;
use crate::trees::{Names, TableTree};
use acc_base::sequences::Seq;
use acc_grammar::faults::Fault;
use acc_lex::words::Sign;

impl Parser<'_> {
    #[tactic(auto, unfolding(crate::specs::TableReaders::private_at))]
    fn private(&mut self) -> Result<bool, Fault>
        ensures { Gives result self.new.words.now (private_at self.old.words.now) }
    {
        if self.takes(Sign::Private) {
            Ok(true)
        } else {
            self.sign(Sign::Table)?;
            Ok(false)
        }
    }

    #[tactic(auto, unfolding(crate::specs::TableReaders::table_at))]
    fn table(&mut self) -> Result<TableTree, Fault>
        ensures { Gives result self.new.words.now (table_at self.old.words.now) }
    {
        let private = self.private()?;
        let name = self.name()?;
        let width = self.number()?;
        let columns = self.names()?;
        self.ended(TableTree {
            private,
            name,
            width,
            columns,
        })
    }

    fn starts_table(&self) -> bool
        ensures { result ≡ starts_table self.now.words.now }
    {
        self.comes(Sign::Private) || self.comes(Sign::Table)
    }

    pub fn tables(&mut self) -> Result<Seq<TableTree>, Fault>
        ensures { Gives result self.new.words.now (many starts_table table_at self.old.words.now) }
    {
        let mut tables = Seq::new(self.alloc);
        while self.starts_table() {
            let table = self.table()?;
            tables.push(table)?;
        }
        Ok(tables)
    }

    #[tactic(auto, unfolding(crate::specs::TableReaders::names_at))]
    pub fn some_names(&mut self) -> Result<Names, Fault>
        ensures { Gives result self.new.words.now (names_at self.old.words.now) }
    {
        let first = self.name()?;
        let others = self.names()?;
        Ok(Names { first, others })
    }

    #[tactic(auto, unfolding(crate::specs::TableReaders::names_statement_at))]
    pub fn names_statement(&mut self, sign: Sign) -> Result<Option<Names>, Fault>
        ensures { Gives result self.new.words.now (names_statement_at sign self.old.words.now) }
    {
        if self.takes(sign) {
            let names = self.some_names()?;
            self.ended(Some(names))
        } else {
            Ok(None)
        }
    }
}
