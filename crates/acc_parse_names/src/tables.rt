//! The tables of a design, by their names.
ghost use Rattle.std.specs.Prelude.{◌≡◌, [], ◌++◌, map, option_copied, IfOk, OnOk};
ghost use Rattle.acc_parse_names.specs.Places.{place_of};
ghost use Rattle.acc_parse_names.specs.Scopes.{columns_of};
ghost use Rattle.acc_parse_names.specs.Faults.{tables_faults};

use crate::names::NameIndex;
use acc_base::sequences::Text;
use acc_parse_syntax::trees::TableTree;
use std::alloc::{AllocError, Global};

/// The tables of a design, found by name, with the columns of each.
#[derive(Drop)]
pub struct Tables<'a> {
    pub trees: &'a [TableTree],
    names: NameIndex<'a>,
    columns: Vec<NameIndex<'a>>,
    ghost named: { names ≡ map (λ t. t.name) trees.now },
    ghost lined: { columns.items ≡ map (λ t. t.columns) trees.now },
}

impl<'a> Tables<'a> {
    /// The place of the first table of a name, from 0.
    pub fn place_of(&self, name: &'a Text) -> Option<u32>
        ensures { result ≡ place_of name.now (map (λ t. t.name) self.now.trees.now) }
    {
        self.names.find(name)
    }

    /// The columns of the first table of a name.
    pub fn columns_of(&self, name: &'a Text) -> Option<&NameIndex<'a>>
        ensures { option_copied result ≡ columns_of self.now.trees.now name.now }
    {
        self.columns.get(self.names.find(name)? as usize)
    }

    /// The tables; behind `faults`, whether each one's statement has a fault.
    pub fn new(
        alloc: Global,
        trees: &'a [TableTree],
        faults: &mut Vec<bool>,
    ) -> Result<Self, AllocError>
        ensures tables { IfOk result (λ t. t.trees.now ≡ trees.now) }
        ensures faults { OnOk result
            (faults.new.items ≡ faults.old.items ++ tables_faults [] trees.now) }
    {
        let mut names = NameIndex::new(alloc);
        let mut columns = Vec::new(alloc);
        for tree in trees {
            let mut own = NameIndex::new(alloc);
            let again = names.add(&tree.name)?;
            let twice = own.add_all(tree.columns.as_slice())?;
            faults.push(again || twice)?;
            columns.push(own)?;
        }
        Ok(Tables {
            trees,
            names,
            columns,
        })
    }
}
