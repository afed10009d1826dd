//! Keys under which holders are found.
ghost use Rattle.std.specs.Prelude.{◌≡◌, IfOk};

use std::alloc::{AllocError, Global};
use std::hash::{Hash, Hasher};
use std::marker::Model;

/// What a holder does under an entry.
#[derive(Clone, Copy, PartialEq, Eq, Hash)]
pub enum Role {
    /// It stands at the held point.
    Standing,
    /// It may come to stand at the held point as it is undone.
    Coming,
    /// It may come to take the entry's undo step.
    Undoing,
}

/// What is done under an entry, the entry's number, and the values of its pairs.
#[derive(Drop)]
pub struct Key {
    role: Role,
    entry: u32,
    values: Vec<i64>,
}

impl Model for Key {
    ghost use Rattle.acc_lock_holders.specs.Keys.{Key as Seen};

    ghost Value = { Seen };

    ghost view = { λ k. record { role = k.role; entry = k.entry; values = k.values.items } };
}

impl Key {
    /// A key with these values.
    pub fn new(role: Role, entry: u32, values: Vec<i64>) -> Self
        ensures role { result.role ≡ role }
        ensures entry { result.entry ≡ entry }
        ensures values { result.values ≡ values.items }
    {
        Key {
            role,
            entry,
            values,
        }
    }

    /// The same key again.
    pub fn copy(&self, alloc: Global) -> Result<Self, AllocError>
        ensures { IfOk result (λ k. k ≡ self.now) }
    {
        Ok(Key {
            role: self.role,
            entry: self.entry,
            values: Vec::from_slice(alloc, self.values.as_slice())?,
        })
    }
}

impl PartialEq for Key {
    ghost use Rattle.acc_lock_holders.specs.Keys.{key_eq};
    ghost use Rattle.std.proofs.Common.{rules};
    ghost use Rattle.std.specs.Cmp.Rules.{comparing};

    ghost eq = { key_eq };

    ghost laws = { Prim.search (comparing, rules) };

    fn eq(&self, other: &Key) -> bool {
        self.role == other.role && self.entry == other.entry && self.values == other.values
    }
}

impl Eq for Key {
    ghost use Rattle.std.proofs.Common.{rules};
    ghost use Rattle.std.specs.Cmp.Rules.{comparing};

    ghost laws = { Prim.search (comparing, rules) };
}

impl Hash for Key {
    ghost use Rattle.std.specs.Prelude.{◌++◌};
    ghost use Rattle.std.proofs.Common.{rules};
    ghost use Rattle.std.specs.Hash as fed;
    ghost use Rattle.acc_lock_holders.specs.contracts.keys.RoleHash.TheImpl as role;
    ghost use Rattle.std.specs.Cmp.Rules.{comparing, hashing};

    ghost hash_input = { λ k. role.ghosts.hash_input k.role ++ fed.u32 k.entry ++ fed.slice fed.i64 k.values };

    ghost respects_eq = { Prim.search (hashing, rules) };

    fn hash<H: Hasher>(&self, state: &mut H) {
        self.role.hash(state);
        self.entry.hash(state);
        self.values.hash(state);
    }
}
