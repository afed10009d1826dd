//! The names of types and points.
ghost use Rattle.std.specs.Prelude.{◌≡◌, slice_get};
ghost use Rattle.acc_base.specs.Effects.{point_of};
ghost use Rattle.acc_base.specs.Lines.{type_name, point_name};

use crate::designs::{At, Design};

/// The name of a type, and none where it isn't in the design.
pub fn type_name(d: &Design, ty: u32) -> &[u8]
    ensures { result.now ≡ type_name (slice_get d.now.types ty) }
{
    match d.types.as_slice().get(ty as usize) {
        Some(x) => x.name.as_slice(),
        None => b"",
    }
}

/// The name of a point of a type, and none where it isn't in the design.
pub fn point_name(d: &Design, at: At) -> &[u8]
    ensures { result.now ≡ point_name (point_of d.now at.ty at.point) }
{
    match d.point(at) {
        Some(point) => point.name.as_slice(),
        None => b"",
    }
}
