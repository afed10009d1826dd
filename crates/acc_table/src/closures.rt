//! The points that undo steps reach.
ghost use Rattle.std.specs.Prelude.{◌≡◌, ◌≤◌, ◌<◌, ℕ, ◌||◌, length, true, false, MatchOption};
ghost use Rattle.acc_table.specs.Closures.{is_set, leads_to, IsMarked, LeadsWithin, IsClosure};

use acc_base::bounds::MOST_POINTS;
use acc_base::designs::{At, Design};
use acc_base::steps::{Path, Target};

/// Sets the flag of the point to which a path leads, if it leads to one.
fn mark_target(target: Target, reached: &mut [bool; MOST_POINTS])
    ensures { (q : ℕ) → q < MOST_POINTS → is_set reached.new q ≡ (is_set reached.old q || leads_to q target) }
{
    match target {
        Target::Point(q) => {
            if (q as usize) < MOST_POINTS {
                reached[q as usize] = true;
            }
        }
        Target::Commit | Target::Undone | Target::Refuse(_) => {}
    }
}

/// Sets the flags of the points to which paths lead.
fn mark_targets(paths: &[Path], reached: &mut [bool; MOST_POINTS])
    ensures { IsMarked paths.now reached.old reached.new }
{
    for path in paths {
        mark_target(path.target, reached);
    }
}

/// The lowest point that is reached and not done.
fn pending(reached: &[bool; MOST_POINTS], done: &[bool; MOST_POINTS]) -> Option<usize>
    ensures { MatchOption result ((q : ℕ) → is_set reached.now q ≡ true → is_set done.now q ≡ true)
        (λ i. (i < MOST_POINTS) × (is_set reached.now i ≡ true) × (is_set done.now i ≡ false)) }
{
    for i in 0..MOST_POINTS {
        if reached[i] && !done[i] {
            return Some(i);
        }
    }
    None
}

/// Goes on from the points that are reached until all of them are done.
///
/// Each round does one point: it marks where the paths of its undo step lead.
pub fn undo_points(d: &Design, ty: u32, p: u32) -> [bool; MOST_POINTS]
    requires targets { LeadsWithin d.now ty }
    requires start { p < MOST_POINTS }
    ensures { IsClosure d.now ty p result }
{
    let mut reached = [false; MOST_POINTS];
    let mut done = [false; MOST_POINTS];
    reached[p as usize] = true;
    while let Some(i) = pending(&reached, &done) {
        done[i] = true;
        let at = At {
            ty,
            point: i as u32,
        };
        if let Some(point) = d.point(at) {
            mark_targets(point.undo.paths.as_slice(), &mut reached);
        }
    }
    reached
}
