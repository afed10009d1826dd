//! How many tuples of values there are.
ghost use Rattle.std.specs.Prelude.{◌≡◌, ◌≤◌, ◌^◌, ◌+◌, ◌*◌, nat_le, length};
ghost use Rattle.acc_audit_complaints.specs.Tuples.{tuples, capped};

use acc_base::sequences::Seq;

/// Tuples at which a clause is tried: 2^20.
pub const MOST_TUPLES: u128 = 1 << 20;

/// So many and one more, to which greater numbers are cut.
const TOO_MANY: u128 = MOST_TUPLES + 1;

/// A number of tuples, times one more range; numbers above the most are cut.
fn times(count: u128, range: &Seq<i64>) -> u128
    requires few { count ≤ 2 ^ 20 + 1 }
    ensures product { result ≡ capped (count * length range.now) }
    ensures few { result ≤ 2 ^ 20 + 1 }
{
    (count * range.len() as u128).min(TOO_MANY)
}

/// Whether there are at most 2^20 tuples of values of these ranges.
pub fn are_few(ranges: &[Seq<i64>]) -> bool
    ensures { result ≡ nat_le (length (tuples ranges.now)) MOST_TUPLES }
{
    let mut count = 1;
    for range in ranges {
        count = times(count, range);
    }
    count <= MOST_TUPLES
}
