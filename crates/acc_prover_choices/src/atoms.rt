//! Values that are variables alone.
ghost use Rattle.std.specs.Prelude.{◌≡◌, ◌<◌, length, IfSome};
ghost use Rattle.std.specs.Cmp.Lexicographic.{pointwise};
ghost use Rattle.acc_base.specs.FormEquality.{lin_eq};
ghost use Rattle.acc_prover_choices.specs.Atoms.{is_once, is_alone, place_in};
ghost use Rattle.acc_prover_choices.specs.Targets.{same_lins};

use acc_base::forms::Lin;

/// Whether two lists of values are the same.
pub fn same_lins(a: &[Lin], b: &[Lin]) -> bool
    ensures { result ≡ same_lins a.now b.now }
{
    a == b
}

/// Whether coefficients are 1 for a variable alone.
fn is_once(variable: u32, coeffs: &[(u32, i64)]) -> bool
    ensures { result ≡ is_once variable coeffs.now }
{
    match coeffs {
        [] => false,
        [k] => k.0 == variable && k.1 == 1,
        [_, _, ..] => false,
    }
}

/// Whether a value is a variable alone.
fn is_alone(variable: u32, value: &Lin) -> bool
    ensures { result ≡ is_alone variable value.now }
{
    is_once(variable, value.coeffs.as_slice()) && value.constant == 0
}

/// The first place of a key at which a variable stands alone.
pub fn place_in(variable: u32, key: &[Lin]) -> Option<usize>
    ensures value { result ≡ place_in variable key.now }
    ensures within { IfSome result (λ i. i < length key.now) }
{
    key.iter().position(|value| is_alone(variable, value))
}
