//! Calls of a script, written onto a page.
ghost use Rattle.std.specs.Prelude.{◌≡◌, ◌++◌, codes};
ghost use Rattle.acc_page.specs.Written.{Adds};
ghost use Rattle.tpcc_gen.specs.Writing.{numbers, call, call_line};

use acc_page::Page;

/// Writes numbers, each behind a space.
pub fn push_numbers(out: &mut Page, values: &[u64])
    ensures { Adds out.old out.new (numbers values.now) }
{
    for value in values {
        out.push(b" ");
        out.push_number(*value);
    }
}

/// Writes a type's name and parameters.
fn push_call(out: &mut Page, name: &[u8], params: &[u64])
    ensures { Adds out.old out.new (call name.now params.now) }
{
    out.push(name);
    push_numbers(out, params);
}

/// Writes the line of a call without a tape.
pub fn push_line(out: &mut Page, name: &[u8], params: &[u64])
    ensures { Adds out.old out.new (call_line name.now params.now) }
{
    push_call(out, name, params);
    out.push(b"\n");
}

/// Writes what stands before the numbers of a tape.
pub fn push_head(out: &mut Page, name: &[u8], params: &[u64])
    ensures { Adds out.old out.new (call name.now params.now ++ codes " |") }
{
    push_call(out, name, params);
    out.push(b" |");
}
