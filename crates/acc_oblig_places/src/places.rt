//! The points and the paths of a design, each with where it stands.
ghost use Rattle.std.specs.Prelude.{◌≡◌, ◌++◌, ◌≤◌, length, map, All, IfOk, OnOk};
ghost use Rattle.acc_base.specs.declared.bounds.TheConstants.{MOST_TYPES, MOST_POINTS, MOST_PATHS};
ghost use Rattle.acc_oblig.specs.Drafts.{each, step_paths};
ghost use Rattle.acc_oblig_places.specs.ManyEntries.{IsFormedButEntries};
ghost use Rattle.acc_oblig_places.specs.Rooms.{IsSmallPathPlace, IsSmallPointPlace};
ghost use Rattle.acc_oblig_places.specs.SeenPlaces.{point_place, path_place};
ghost use Rattle.acc_oblig_places.specs.DesignPlaces.{point_places, path_places, point_place_alone, path_place_alone, joined, places_of_point};

use acc_base::designs::{At, Design, Point, Side, TxType};
use acc_base::steps::{Path, Step};
use std::alloc::{AllocError, Global};

/// A point, with where it stands and its type.
#[derive(Drop)]
pub struct PointPlace<'a> {
    pub at: At,
    pub ty: &'a TxType,
    pub point: &'a Point,
}

/// A path, with where it stands, and its type, point and step.
#[derive(Drop)]
pub struct PathPlace<'a> {
    pub at: At,
    pub side: Side,
    pub number: u32,
    pub ty: &'a TxType,
    pub point: &'a Point,
    pub step: &'a Step,
    pub path: &'a Path,
}

/// Adds the points of a type.
fn add_points<'a>(
    out: &mut Vec<PointPlace<'a>>,
    number: usize,
    ty: &'a TxType,
) -> Result<(), AllocError>
    requires type_fits { number ≤ MOST_TYPES }
    requires few { length ty.now.points ≤ MOST_POINTS }
    ensures { OnOk result (map point_place out.new.items
        ≡ map point_place out.old.items ++ each (point_place_alone number ty.now) ty.now.points) }
{
    let points = ty.points.as_slice();
    for (i, point) in points.iter().enumerate() {
        let at = At {
            ty: number as u32,
            point: i as u32,
        };
        out.push(PointPlace { at, ty, point })?;
    }
    Ok(())
}

/// The points of a design, type by type.
pub fn points_of<'a>(alloc: Global, d: &'a Design) -> Result<Vec<PointPlace<'a>>, AllocError>
    requires { IsFormedButEntries d.now }
    ensures value { IfOk result (λ v. map point_place v.items ≡ point_places d.now) }
    ensures small { IfOk result (λ v. All (λ q. IsSmallPointPlace (point_place q)) v.items) }
{
    let points = listed_points(alloc, d)?;
    Ok(points)
}

fn listed_points<'a>(alloc: Global, d: &'a Design) -> Result<Vec<PointPlace<'a>>, AllocError>
    requires { IsFormedButEntries d.now }
    ensures { IfOk result (λ v. map point_place v.items ≡ point_places d.now) }
{
    let mut out = Vec::new(alloc);
    let types = d.types.as_slice();
    for (i, ty) in types.iter().enumerate() {
        add_points(&mut out, i, ty)?;
    }
    Ok(out)
}

/// Adds the paths of a step.
fn add_paths<'a>(
    out: &mut Vec<PathPlace<'a>>,
    q: &PointPlace<'a>,
    side: Side,
    step: &'a Step,
) -> Result<(), AllocError>
    requires { length step.now.paths ≤ MOST_PATHS }
    ensures { OnOk result (map path_place out.new.items ≡ map path_place out.old.items
        ++ step_paths path_place_alone q.now.at side q.now.ty.now q.now.point.now step.now) }
{
    let paths = step.paths.as_slice();
    for (i, path) in paths.iter().enumerate() {
        out.push(PathPlace {
            at: q.at,
            side,
            number: i as u32,
            ty: q.ty,
            point: q.point,
            step,
            path,
        })?;
    }
    Ok(())
}

/// Adds the paths of a point, those forward first.
fn add_point_paths<'a>(out: &mut Vec<PathPlace<'a>>, q: &PointPlace<'a>) -> Result<(), AllocError>
    requires { IsSmallPointPlace (point_place q.now) }
    ensures { OnOk result (map path_place out.new.items ≡ map path_place out.old.items ++ places_of_point (point_place q.now)) }
{
    add_paths(out, q, Side::Next, &q.point.next)?;
    add_paths(out, q, Side::Undo, &q.point.undo)
}

/// The paths of points, point by point.
pub fn paths_of<'a>(
    alloc: Global,
    points: &[PointPlace<'a>],
) -> Result<Vec<PathPlace<'a>>, AllocError>
    requires { All (λ q. IsSmallPointPlace (point_place q)) points.now }
    ensures value { IfOk result (λ v. map path_place v.items ≡ joined places_of_point (map point_place points.now)) }
    ensures small { IfOk result (λ v. All (λ q. IsSmallPathPlace (path_place q)) v.items) }
{
    let paths = listed_paths(alloc, points)?;
    Ok(paths)
}

fn listed_paths<'a>(
    alloc: Global,
    points: &[PointPlace<'a>],
) -> Result<Vec<PathPlace<'a>>, AllocError>
    requires { All (λ q. IsSmallPointPlace (point_place q)) points.now }
    ensures { IfOk result (λ v. map path_place v.items ≡ joined places_of_point (map point_place points.now)) }
{
    let mut out = Vec::new(alloc);
    for q in points {
        add_point_paths(&mut out, q)?;
    }
    Ok(out)
}

/// The paths of a design, type by type and point by point.
pub fn all_paths<'a>(alloc: Global, d: &'a Design) -> Result<Vec<PathPlace<'a>>, AllocError>
    requires { IsFormedButEntries d.now }
    ensures value { IfOk result (λ v. map path_place v.items ≡ path_places d.now) }
    ensures small { IfOk result (λ v. All (λ q. IsSmallPathPlace (path_place q)) v.items) }
{
    let points = points_of(alloc, d)?;
    let paths = paths_of(alloc, points.as_slice())?;
    Ok(paths)
}
