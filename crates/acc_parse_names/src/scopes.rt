//! What can be named in a statement.
ghost use Rattle.std.specs.Prelude.{◌≡◌};
ghost use Rattle.acc_parse_names.specs.Names.{stands_in};
ghost use Rattle.acc_parse_names.specs.Views.{variables_in};

use crate::names::NameIndex;
use crate::tables::Tables;
use acc_base::sequences::Text;

/// The variables at hand: the locals of a type, and a clause's own.
#[derive(Drop)]
pub struct Variables<'s, 'a> {
    pub locals: &'s NameIndex<'a>,
    pub own: &'s NameIndex<'a>,
}

impl<'s, 'a> Variables<'s, 'a> {
    /// Whether a name is one of these.
    pub fn has(&self, name: &'a Text) -> bool
        ensures { result ≡ stands_in name.now (variables_in self.now) }
    {
        self.locals.has(name) || self.own.has(name)
    }
}

/// The tables, and the variables at hand.
#[derive(Drop)]
pub struct Definitions<'s, 'a> {
    pub tables: &'s Tables<'a>,
    pub variables: &'s Variables<'s, 'a>,
}
