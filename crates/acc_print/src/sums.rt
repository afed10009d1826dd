//! The numbers and signs of sums. Each call writes to `out`.
ghost use Rattle.std.specs.Prelude.{◌≡◌, ◌++◌, unsigned_abs, if◌then◌else◌};
ghost use Rattle.acc_page.specs.Written.{Adds};
ghost use Rattle.acc_print.specs.Sums.{sign, factor, constant_alone, constant_behind};

use acc_page::Page;

fn sign(first: bool, number: i128) -> &'static [u8]
    ensures { result.now ≡ sign first number }
{
    match (first, number < 0) {
        (true, false) => b"",
        (true, true) => b"-",
        (false, false) => b" + ",
        (false, true) => b" - ",
    }
}

fn push_factor(out: &mut Page, number: u128)
    ensures { Adds out.old out.new (factor number) }
{
    if number == 1 {
        return;
    }
    out.push_number(number);
    out.push(b"*")
}

/// The sign of a term, and its number.
pub fn push_coefficient(out: &mut Page, first: bool, number: i128)
    ensures { Adds out.old out.new (sign first number ++ factor (unsigned_abs number)) }
{
    out.push(sign(first, number));
    push_factor(out, number.unsigned_abs())
}

/// The constant of a sum, which may be all of it.
pub fn push_constant(out: &mut Page, alone: bool, number: i128)
    ensures { Adds out.old out.new (if alone then constant_alone number else constant_behind number) }
{
    if number == 0 && !alone {
        return;
    }
    out.push(sign(alone, number));
    out.push_number(number.unsigned_abs())
}
