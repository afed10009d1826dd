//! The names of points in texts.
ghost use Rattle.acc_base.specs.Lines.{at_text};
ghost use Rattle.acc_page.specs.Written.{Adds};

use crate::pages::Page;
use acc_base::designs::{At, Design};
use acc_base::names::{point_name, type_name};

/// Writes a point, as `TYPE.POINT`.
pub fn push_at(out: &mut Page, d: &Design, at: At)
    ensures { Adds out.old out.new (at_text d.now at) }
{
    out.push(type_name(d, at.ty));
    out.push(b".");
    out.push(point_name(d, at));
}
