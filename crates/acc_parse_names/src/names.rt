//! Names in order, and where each stands.
ghost use Rattle.std.specs.Prelude.{◌≡◌, ◌<◌, ◌≤◌, ◌^◌, [], ◌∷◌, ◌++◌, length, IfOk, IfSome, OnErr, OnOk};
ghost use Rattle.acc_parse_names.specs.Names.{stands_in, defines_again, listed_or_none};
ghost use Rattle.acc_parse_names.specs.Places.{place_of};

use acc_base::sequences::Text;
use acc_parse_syntax::trees::Names;
use std::alloc::{AllocError, Global};
use std::collections::BTreeMap;
use std::marker::Model;

/// Names in the order in which they are defined, and the first place of each; they stand in the tree. There are 2^32 at
/// most, so that each place is a `u32`.
#[derive(Drop)]
pub struct NameIndex<'a> {
    names: Vec<&'a [u8]>,
    places: BTreeMap<&'a [u8], u32>,
}

impl<'a> Model for NameIndex<'a> {
    ghost use Rattle.std.specs.Prelude.{List, ℕ};

    ghost Value = { List (List ℕ) };

    ghost use Rattle.acc_parse_names.specs.Places.{texts, IsPlaced};

    ghost view = { λ n. texts n.names.items };

    ghost invariant = { λ n. IsPlaced (texts n.names.items) n.places };
}

/// The place of the next name behind these.
///
/// An error says that there is none: places are below 2^32.
fn next_place(names: &[&[u8]]) -> Result<u32, AllocError>
    ensures place { IfOk result (λ place. place ≡ length names.now) }
    ensures room { OnOk result (length names.now < 2 ^ 32) }
    ensures full { OnErr result (2 ^ 32 ≤ length names.now) }
{
    if names.len() > u32::MAX as usize {
        return Err(AllocError);
    }
    Ok(names.len() as u32)
}

impl<'a> NameIndex<'a> {
    /// No names.
    pub fn new(alloc: Global) -> Self
        ensures { result ≡ [] }
    {
        NameIndex {
            names: Vec::new(alloc),
            places: BTreeMap::new(alloc),
        }
    }

    /// How many names there are.
    pub fn len(&self) -> usize
        ensures value { result ≡ length self.now }
        // As of every vector.
        ensures below { result < 2 ^ 63 }
    {
        self.names.len()
    }

    /// The first place of a name, from 0.
    pub fn find(&self, name: &'a Text) -> Option<u32>
        ensures place { result ≡ place_of name.now self.now }
        ensures within { IfSome result (λ place. place < length self.now) }
    {
        self.places.get(&name.as_slice()).copied()
    }

    /// Whether a name is one of these.
    pub fn has(&self, name: &'a Text) -> bool
        ensures { result ≡ stands_in name.now self.now }
    {
        self.find(name).is_some()
    }

    /// Puts a name at the end, and answers whether it was there already.
    ///
    /// An error says that memory is short, or that there are 2^32 names; the names are then as before.
    pub fn add(&mut self, name: &'a Text) -> Result<bool, AllocError>
        ensures again { IfOk result (λ again. again ≡ stands_in name.now self.old) }
        ensures names { OnOk result (self.new ≡ self.old ++ name.now ∷ []) }
        ensures kept { OnErr result (self.new ≡ self.old) }
        ensures room { OnOk result (length self.new ≤ 2 ^ 32) }
    {
        let text = name.as_slice();
        let again = self.has(name);
        let place = next_place(&self.names)?;
        self.names.push(text)?;
        if again {
            return Ok(true);
        }
        match self.places.insert(text, place) {
            Ok(_) => Ok(false),
            Err(_) => {
                let _ = self.names.pop();
                Err(AllocError)
            }
        }
    }

    /// Puts names at the end, and answers whether one of them was there already.
    pub fn add_all(&mut self, names: &'a [Text]) -> Result<bool, AllocError>
        ensures again { IfOk result (λ again. again ≡ defines_again self.old names.now) }
        ensures names { OnOk result (self.new ≡ self.old ++ names.now) }
    {
        let mut again = false;
        for name in names {
            again |= self.add(name)?;
        }
        Ok(again)
    }

    /// Puts names, if there are any, at the end, and answers whether one of them was there already.
    pub fn add_listed(&mut self, names: &'a Option<Names>) -> Result<bool, AllocError>
        ensures again { IfOk result (λ again. again ≡ defines_again self.old (listed_or_none names.now)) }
        ensures names { OnOk result (self.new ≡ self.old ++ listed_or_none names.now) }
    {
        match names {
            Some(names) => {
                let first = self.add(&names.first)?;
                Ok(self.add_all(names.others.as_slice())? || first)
            }
            None => Ok(false),
        }
    }
}
