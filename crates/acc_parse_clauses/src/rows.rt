//! The keys of rows.
ghost use Rattle.std.specs.Prelude.{◌≡◌, IfOk, OnOk};
ghost use Rattle.acc_parse_limits.specs.Walks.{after};
ghost use Rattle.acc_parse_clauses.specs.Rows.{key_in};
ghost use Rattle.acc_parse_clauses.specs.Sizes.{place_sizes};
ghost use Rattle.acc_parse_clauses.specs.Views.{scope_in};

use crate::scopes::Surroundings;
use crate::values::lins;
use acc_base::forms::Lin;
use acc_base::sequences::Seq;
use acc_parse_limits::Walk;
use acc_parse_syntax::trees::Place;
use std::alloc::{AllocError, Global};

/// The key of a row, or a prefix of one.
pub fn key<'a>(
    alloc: Global,
    walk: &mut Walk,
    scope: &Surroundings<'_, 'a>,
    place: &'a Place,
) -> Result<Seq<Lin>, AllocError>
    ensures value { IfOk result (λ k. k ≡ key_in (scope_in scope.now) place.now) }
    ensures walk { OnOk result (walk.new ≡ after walk.old (place_sizes (scope_in scope.now) place.now)) }
{
    lins(alloc, walk, scope.variables, place.key.get())
}
