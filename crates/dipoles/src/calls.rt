// The public calls, over any lists at all: the dipoles of a tree, and winding numbers by them. A refusal changes nothing.
ghost use Rattle.std.specs.Prelude.{◌≡◌, ◌*◌, ◌≤◌, length};
ghost use Rattle.std.specs.Float.{binary32};
ghost use Rattle.shapes.specs.Values as Shapes;
ghost use Rattle.lists.specs.Values as Verdicts;
ghost use Rattle.spec_lists.specs.Reading as Reading;
ghost use Rattle.spec_tables.specs.Tables as Tables;
ghost use Rattle.spec_dipoles.specs.Calls as Calls;
ghost use Rattle.spec_dipoles.specs.Stored as Stored;

use crate::stored::{make_dipoles, store_sums};
use crate::tests::{fast_refusal, sums_refusal};
use crate::walk::{Probe, walk};
use angles::arc_tangent::{ArcTable, arc_table};
use angles::winding::put_windings;
use lists::drawing::Drawing;
use lists::limits;
use lists::refusal::Refusal;
use shapes::vec3::Vec3;

// Writes the dipole of each node to the front of `sums`, sixteen numbers a node: first order 3, second order 9 by columns, radius, centre 3.
pub fn node_sums(drawing: &Drawing, sums: &mut [f32]) -> Result<(), Refusal>
    ensures verdict { Verdicts.as_verdict result
        ≡ Calls.sums_refusal drawing.now.triangles.now drawing.now.order.now drawing.now.links.now
        drawing.now.boxes.now drawing.now.nodes (length sums.old) }
    ensures sums { sums.new
        ≡ Calls.after_sums binary32 drawing.now.triangles.now drawing.now.order.now drawing.now.links.now
        drawing.now.boxes.now drawing.now.nodes sums.old }
{
    sums_refusal(drawing, sums.len())?;
    store_sums(drawing, sums);
    make_dipoles(drawing, sums);
    Ok(())
}

// The winding number about p by dipoles, with the lent table of arc tangents.
pub fn fast_winding_by(
    table: &ArcTable,
    drawing: &Drawing,
    sums: &[f32],
    accuracy: f32,
    p: Vec3,
) -> f32
    requires { Stored.RootIn drawing.now.triangles.now drawing.now.order.now drawing.now.links.now sums.now
        drawing.now.nodes }
    ensures { result
        ≡ Calls.fast_about binary32 drawing.now.triangles.now drawing.now.order.now drawing.now.links.now
        drawing.now.nodes sums.now accuracy (Shapes.as_point p) }
{
    let probe = Probe { point: p, accuracy };
    walk(
        table,
        drawing,
        sums,
        &probe,
        limits::DEEPEST,
        drawing.nodes - 1,
    )
}

// Writes one winding number a point to the front of `out`. The table is laid out once for all of them.
fn write_windings(drawing: &Drawing, sums: &[f32], points: &[f32], accuracy: f32, out: &mut [f32])
    requires there { Stored.RootIn drawing.now.triangles.now drawing.now.order.now drawing.now.links.now sums.now
        drawing.now.nodes }
    requires room { Reading.point_count points.now ≤ length out.old }
    ensures { out.new
        ≡ Tables.overwrite 0 (Calls.fast_windings binary32 drawing.now.triangles.now drawing.now.order.now
        drawing.now.links.now drawing.now.nodes sums.now accuracy points.now) out.old }
{
    let table = arc_table();
    put_windings(
        points,
        |p| fast_winding_by(&table, drawing, sums, accuracy, p),
        out,
    );
}

// Writes the winding number about each point, by the dipoles that are lent, to the front of `out`, one f32 a point.
// A node is used as far where the point is farther from its centre than its radius times the accuracy scale and its far term is finite.
pub fn fast_winding(
    drawing: &Drawing,
    sums: &[f32],
    points: &[f32],
    accuracy: f32,
    out: &mut [f32],
) -> Result<(), Refusal>
    ensures verdict { Verdicts.as_verdict result
        ≡ Calls.fast_refusal drawing.now.triangles.now drawing.now.order.now drawing.now.links.now
        drawing.now.boxes.now drawing.now.nodes sums.now points.now accuracy (length out.old) }
    ensures windings { out.new
        ≡ Calls.after_fast binary32 drawing.now.triangles.now drawing.now.order.now drawing.now.links.now
        drawing.now.boxes.now drawing.now.nodes sums.now accuracy points.now out.old }
{
    fast_refusal(drawing, sums, points, accuracy, out.len())?;
    write_windings(drawing, sums, points, accuracy, out);
    Ok(())
}
