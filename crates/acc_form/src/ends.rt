//! Where paths end, and what the reads of a step may do.
ghost use Rattle.std.specs.Prelude.{◌≡◌};
ghost use Rattle.acc_formed.specs.Ends.{refuses_by_number, divides, may_end, refuses_plainly, assigns_local, may_read, is_undone};

use acc_base::bounds::LARGEST_REFUSAL;
use acc_base::designs::{Side, TxType};
use acc_base::steps::{Action, Read, Target};

/// Whether a refusal's number is 1 to 255.
pub fn refuses_by_number(target: Target) -> bool
    ensures { result ≡ refuses_by_number target }
{
    match target {
        Target::Point(_) | Target::Commit | Target::Undone => true,
        Target::Refuse(n) => 1 <= n && n <= LARGEST_REFUSAL,
    }
}

/// Whether a divisor is at least 1.
pub fn divides(read: &Read) -> bool
    ensures { result ≡ divides read.now }
{
    match read {
        Read::Let(_, _)
        | Read::Col(_, _, _, _)
        | Read::Has(_, _, _)
        | Read::Count(_, _, _)
        | Read::Sum(_, _, _, _)
        | Read::Least(_, _, _)
        | Read::Greatest(_, _, _)
        | Read::Take(_)
        | Read::Mul(_, _, _) => true,
        Read::Div(_, _, divisor) => 1 <= *divisor,
    }
}

/// Whether a path of this side may lead there.
pub fn may_end(side: Side, target: Target) -> bool
    ensures { result ≡ may_end side target }
{
    match (side, target) {
        (_, Target::Point(_)) => true,
        (Side::Next, Target::Commit) => true,
        (Side::Undo, Target::Commit) => false,
        (Side::Next, Target::Undone) => false,
        (Side::Undo, Target::Undone) => true,
        (Side::Next, Target::Refuse(_)) => true,
        (Side::Undo, Target::Refuse(_)) => false,
    }
}

/// Whether a path that refuses has no actions.
pub fn refuses_plainly(actions: &[Action], target: Target) -> bool
    ensures { result ≡ refuses_plainly actions.now target }
{
    match target {
        Target::Point(_) | Target::Commit | Target::Undone => true,
        Target::Refuse(_) => actions.is_empty(),
    }
}

/// Whether a read assigns a local that is no parameter.
pub fn assigns_local(ty: &TxType, read: &Read) -> bool
    ensures { result ≡ assigns_local ty.now read.now }
{
    let local = read.assigned();
    ty.params <= local && (local as usize) < ty.locals.len()
}

fn undo_may_read(read: &Read) -> bool
    ensures { result ≡ may_read Side.Undo read.now }
{
    match read {
        Read::Let(_, _)
        | Read::Col(_, _, _, _)
        | Read::Has(_, _, _)
        | Read::Count(_, _, _)
        | Read::Sum(_, _, _, _)
        | Read::Least(_, _, _)
        | Read::Greatest(_, _, _)
        | Read::Div(_, _, _) => true,
        Read::Take(_) => false,
        Read::Mul(_, _, _) => false,
    }
}

/// Whether a read neither takes nor multiplies on the undo side.
pub fn may_read(side: Side, read: &Read) -> bool
    ensures { result ≡ may_read side read.now }
{
    match side {
        Side::Next => true,
        Side::Undo => undo_may_read(read),
    }
}

/// Whether a path ends undone.
pub fn is_undone(target: Target) -> bool
    ensures { result ≡ is_undone target }
{
    match target {
        Target::Undone => true,
        Target::Point(_) | Target::Commit | Target::Refuse(_) => false,
    }
}
