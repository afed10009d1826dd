//! The place of a truth value behind so many that are true.
ghost use Rattle.std.specs.Prelude.{◌≤◌, MatchOption};
ghost use Rattle.acc_diagnose_sources.specs.Sources.{trues, IsTrueBehind};

/// The place of the first that is true behind so many others that are.
pub fn true_behind(shown: &[bool], before: u64) -> Option<u64>
    ensures { MatchOption result (trues shown.now ≤ before) (IsTrueBehind shown.now before) }
{
    let mut passed = 0;
    for (i, is_shown) in shown.iter().enumerate() {
        if *is_shown {
            if passed == before {
                return Some(i as u64);
            }
            passed += 1;
        }
    }
    None
}
