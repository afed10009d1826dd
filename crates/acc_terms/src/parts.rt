//! Terms, each of something or constant.
ghost use Rattle.std.specs.Prelude.{◌≡◌, All, IfOk};
ghost use Rattle.acc_terms.specs.Parts.{IsTermSized, negated, difference};

use acc_base::sequences::Seq;
use std::alloc::AllocError;

/// A term: what it multiplies, or none for a constant, and its number.
#[derive(Drop)]
pub struct Part<K> {
    pub of: Option<K>,
    pub number: i128,
}

/// The term with its sign changed.
fn negated<K>(part: Part<K>) -> Part<K>
    requires { IsTermSized part }
    ensures value { result ≡ negated part }
    ensures small { IsTermSized result }
{
    Part {
        of: part.of,
        number: -part.number,
    }
}

/// The terms of the left side, then those of the right side with their signs changed. Each number is
/// within 2^64 of 0.
pub fn difference<K: Drop>(
    mut left: Seq<Part<K>>,
    right: Seq<Part<K>>,
) -> Result<Seq<Part<K>>, AllocError>
    requires left_small { All IsTermSized left }
    requires right_small { All IsTermSized right }
    ensures ok { IfOk result (λ ps. ps ≡ difference left right) }
    ensures small { IfOk result (λ ps. All IsTermSized ps) }
{
    for part in right.into_vec() {
        left.push(negated(part))?;
    }
    Ok(left)
}
