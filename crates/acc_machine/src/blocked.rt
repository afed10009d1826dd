//! Who blocks a step.
ghost use Rattle.std.specs.Prelude.{◌≡◌, length};
ghost use Rattle.acc_formed.specs.WellFormed.{IsWellFormed};
ghost use Rattle.acc_table.specs.Entries.{IsPointOf, TellsLowest};
ghost use Rattle.acc_machine.specs.Blocked.{lower, ClashesAt, Blocks, LeadsTo, LooksTo, AreAtPoints, TellsBlocker};

use acc_base::designs::{At, Design, Side};
use acc_base::machines::Frame;
use acc_base::steps::Target;
use acc_plain::Outlook;
use acc_table::entries::{compatible, forbids};

/// The lower of two numbers, where there are any.
fn lower(a: Option<u32>, b: Option<u32>) -> Option<u32>
    ensures { result ≡ lower a b }
{
    match a {
        None => b,
        Some(m) => match b {
            None => Some(m),
            Some(n) => { if n < m { Some(n) } else { Some(m) } }
        },
    }
}

/// The entry because of which the frame that a step leads to isn't compatible with a holder.
fn clash(d: &Design, f: &Frame, locals: &[i64], h: &Frame, to: Target) -> Option<u32>
    requires formed { IsWellFormed d.now }
    requires holder { IsPointOf d.now h.now.ty h.now.point }
    requires leads { LeadsTo d.now f.now.ty to }
    ensures { TellsLowest (λ n. ClashesAt d.now f.now locals.now h.now n to) result }
{
    match to {
        Target::Point(p) => {
            let next = At { ty: f.ty, point: p };
            compatible(d, next, locals, h.at(), h.locals.as_slice())
        }
        Target::Commit | Target::Undone | Target::Refuse(_) => None,
    }
}

/// The lowest entry by which a holder blocks a forward step that looks so.
pub fn blocking(d: &Design, f: &Frame, locals: &[i64], h: &Frame, outlook: Outlook) -> Option<u32>
    requires formed { IsWellFormed d.now }
    requires holder { IsPointOf d.now h.now.ty h.now.point }
    requires leads { LooksTo d.now f.now.ty outlook }
    ensures { TellsLowest (Blocks d.now f.now locals.now h.now outlook) result }
{
    let here = f.at();
    match outlook {
        Outlook::Range => None,
        Outlook::Refused(_) => forbids(d, h, here, Side::Next, locals),
        Outlook::Goes(to) => lower(
            forbids(d, h, here, Side::Next, locals),
            clash(d, f, locals, h, to),
        ),
    }
}

/// The first of the frames that blocks a forward step that looks so, by its number, and the lowest entry by which it does.
pub fn blocker(
    d: &Design,
    frames: &[Frame],
    f: &Frame,
    locals: &[i64],
    outlook: Outlook,
) -> Option<(u64, u32)>
    requires formed { IsWellFormed d.now }
    requires holders { AreAtPoints d.now frames.now }
    requires leads { LooksTo d.now f.now.ty outlook }
    ensures { TellsBlocker d.now frames.now f.now locals.now outlook result }
{
    for i in 0..frames.len() {
        let h = &frames[i];
        if h.t != f.t {
            if let Some(n) = blocking(d, f, locals, h, outlook) {
                return Some((h.t, n));
            }
        }
    }
    None
}
