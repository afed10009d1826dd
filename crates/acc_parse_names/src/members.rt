//! The types of a design, by their names.
ghost use Rattle.std.specs.Prelude.{◌≡◌, map, option_copied, option_map};
ghost use Rattle.acc_parse_names.specs.Places.{place_of};
ghost use Rattle.acc_parse_names.specs.Scopes.{type_named};
ghost use Rattle.acc_parse_names.specs.Members.{members_of};

use crate::names::NameIndex;
use acc_base::sequences::Text;
use acc_parse_syntax::trees::TypeTree;

/// The locals and the points of a type.
#[derive(Drop)]
pub struct Members<'a> {
    pub locals: NameIndex<'a>,
    pub points: NameIndex<'a>,
}

/// The types of a design, found by name, with the locals and points of each.
#[derive(Drop)]
pub struct Types<'a> {
    pub trees: &'a [TypeTree],
    pub names: NameIndex<'a>,
    pub members: Vec<Members<'a>>,
    ghost named: { names ≡ map (λ t. t.name) trees.now },
    ghost lined: { members.items ≡ map members_of trees.now },
}

impl<'a> Types<'a> {
    /// The place of the first type of a name, from 0.
    pub fn place_of(&self, name: &'a Text) -> Option<u32>
        ensures { result ≡ place_of name.now (map (λ t. t.name) self.now.trees.now) }
    {
        self.names.find(name)
    }

    /// The locals and points of the first type of a name.
    pub fn members_of(&self, name: &'a Text) -> Option<&Members<'a>>
        ensures { option_copied result ≡ option_map members_of (type_named self.now.trees.now name.now) }
    {
        self.members.get(self.names.find(name)? as usize)
    }
}
