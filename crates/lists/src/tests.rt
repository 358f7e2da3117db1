// Tests 1 to 4 of a triangle list, 8 of a point list, 9 of a search distance and 14 of an accuracy scale, and how many triangles or points a list has.
ghost use Rattle.std.specs.Prelude.{◌≡◌};
ghost use Rattle.spec_lists.specs.Reading as Reading;
ghost use Rattle.spec_lists.specs.Refusals as Refusals;
ghost use Rattle.lists.specs.Values as Values;

use crate::coordinates::{first_bad, is_within};
use crate::limits;
use crate::refusal::{Refusal, refused_if};

// The points of the list, three numbers each.
pub fn point_count(points: &[f32]) -> usize
    ensures { result ≡ Reading.point_count points.now }
{
    points.len() / 3
}

// 8: the length is no multiple of three, or a number is no coordinate.
pub fn points_refusal(points: &[f32]) -> Result<(), Refusal>
    ensures { Values.as_verdict result ≡ Refusals.points_refusal points.now }
{
    refused_if(points.len() % 3 != 0, Refusal::BadPoint(points.len()))?;
    match first_bad(points) {
        Some(at) => Err(Refusal::BadPoint(at)),
        None => Ok(()),
    }
}

// 9: the distance is out of range or a NaN.
pub fn distance_refusal(distance: f32) -> Result<(), Refusal>
    ensures { Values.as_verdict result ≡ Refusals.distance_refusal distance }
{
    refused_if(
        !is_within(0.0, limits::LONGEST_DISTANCE, distance),
        Refusal::BadDistance,
    )
}

// 14: the accuracy scale is out of range or a NaN.
pub fn scale_refusal(scale: f32) -> Result<(), Refusal>
    ensures { Values.as_verdict result ≡ Refusals.scale_refusal scale }
{
    refused_if(
        !is_within(0.0, limits::LARGEST_SCALE, scale),
        Refusal::BadScale,
    )
}

// The triangles of the list, nine numbers each.
pub fn triangle_count(triangles: &[f32]) -> usize
    ensures { result ≡ Reading.triangle_count triangles.now }
{
    triangles.len() / 9
}

// 1: the length is no multiple of nine.
fn ragged_refusal(triangles: &[f32]) -> Result<(), Refusal>
    ensures { Values.as_verdict result ≡ Refusals.ragged_refusal triangles.now }
{
    refused_if(triangles.len() % 9 != 0, Refusal::RaggedTriangles)
}

// 2: there is no triangle.
fn none_refusal(triangles: &[f32]) -> Result<(), Refusal>
    ensures { Values.as_verdict result ≡ Refusals.none_refusal triangles.now }
{
    refused_if(triangle_count(triangles) == 0, Refusal::NoTriangle)
}

// 3: there are more triangles than the limit.
fn too_many_refusal(triangles: &[f32]) -> Result<(), Refusal>
    ensures { Values.as_verdict result ≡ Refusals.too_many_refusal triangles.now }
{
    refused_if(
        limits::MAX_TRIANGLES < triangle_count(triangles),
        Refusal::TooManyTriangles,
    )
}

// 1 to 4: the length, then the coordinates.
pub fn triangles_refusal(triangles: &[f32]) -> Result<(), Refusal>
    ensures { Values.as_verdict result ≡ Refusals.triangles_refusal triangles.now }
{
    ragged_refusal(triangles)?;
    none_refusal(triangles)?;
    too_many_refusal(triangles)?;
    match first_bad(triangles) {
        Some(at) => Err(Refusal::BadCoordinate(at)),
        None => Ok(()),
    }
}
