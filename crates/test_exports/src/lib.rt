// Exports for tests/timing, tests/compare and tests/peers; no part of the engine.
#![tactic(auto)]

ghost use Rattle.std.specs.Prelude.{◌≡◌, length};
ghost use Rattle.std.specs.Float.{binary32};
ghost use Rattle.lists.specs.Values as Lists;
ghost use Rattle.shapes.specs.Values as Shapes;
ghost use Rattle.build.specs.Values as Builds;
ghost use Rattle.spec_tree.specs.Depth as Depth;
ghost use Rattle.spec_tree.specs.Refusals as Trees;
ghost use Rattle.tree.specs.Values as Found;
ghost use Rattle.spec_angles.specs.Windings as Windings;
ghost use Rattle.spec_search.specs.Answers as Answers;
ghost use Rattle.spec_search.specs.Rules as Rules;
ghost use Rattle.spec_search.specs.Calls as Calls;
ghost use Rattle.spec_dipoles.specs.Calls as Dipoles;
ghost use Rattle.test_exports.specs.Answered as Answered;

use build::calls::{Built, build};
use lists::drawing::Drawing;
use lists::reading::{point_at, triangle_at};
use lists::refusal::Refusal;
use lists::settings::Settings;
use lists::tests::distance_refusal;
use queries::rules::most_refusal;
use shapes::vec3::Vec3;
use tree::calls::check;
use walks::answer::Probe;
use walks::places::Places;
use walks::sure::search;

// Kept: (a) the flat settings and lists of the exports, here and below: the C interface.

// 1 where the verdict is a pass, else 0.
fn one_passed(verdict: Result<(), Refusal>) -> u32
    ensures { result ≡ Answered.one_passed (Lists.as_verdict verdict) }
{
    verdict.is_ok() as u32
}

// The depth that is read off the lists, 0 where they are refused.
fn depth_read(found: Result<usize, Refusal>) -> usize
    ensures { result ≡ Answered.depth_read (Found.as_depth_found found) }
{
    found.unwrap_or(0)
}

// The nodes of a build, 0 for a refusal.
fn nodes_answered(built: Result<Built, Refusal>) -> usize
    ensures { result ≡ Answered.nodes_answered (Builds.as_built built) }
{
    built.map_or(0, |tree| tree.nodes)
}

// The depth of a build, 0 for a refusal.
fn depth_answered(built: Result<Built, Refusal>) -> usize
    ensures { result ≡ Answered.depth_answered (Builds.as_built built) }
{
    built.map_or(0, |tree| tree.depth)
}

// Builds a tree and answers how many nodes it has, 0 for a refusal.
#[unsafe(no_mangle)]
pub extern "C" fn timing_build(
    triangles: &[f32],
    strategy: usize,
    leaf_minimum: usize,
    maximum_depth: usize,
    order: &mut [u32],
    links: &mut [u32],
    boxes: &mut [f32],
    bounds: &mut [f32],
    centres: &mut [f32],
    scratch: &mut [u32],
) -> usize
    ensures { Answered.BuildAnswered Answered.nodes_answered binary32 triangles.now (record {
      strategy = strategy;
      leaf_minimum = leaf_minimum;
      maximum_depth = maximum_depth;
    }) (record {
      order = order.entry.now;
      links = links.old;
      boxes = boxes.old;
      bounds = bounds.old;
      centres = centres.old;
      scratch = scratch.old;
    }) result (record {
      order = order.exit.now;
      links = links.new;
      boxes = boxes.new;
      bounds = bounds.new;
      centres = centres.new;
      scratch = scratch.new;
    }) }
{
    let settings = Settings {
        strategy,
        leaf_minimum,
        maximum_depth,
    };
    let built = build(
        triangles, settings, order, links, boxes, bounds, centres, scratch,
    );
    nodes_answered(built)
}

// Builds a tree and answers its depth, 0 for a refusal.
#[unsafe(no_mangle)]
pub extern "C" fn timing_depth(
    triangles: &[f32],
    strategy: usize,
    leaf_minimum: usize,
    maximum_depth: usize,
    order: &mut [u32],
    links: &mut [u32],
    boxes: &mut [f32],
    bounds: &mut [f32],
    centres: &mut [f32],
    scratch: &mut [u32],
) -> usize
    ensures { Answered.BuildAnswered Answered.depth_answered binary32 triangles.now (record {
      strategy = strategy;
      leaf_minimum = leaf_minimum;
      maximum_depth = maximum_depth;
    }) (record {
      order = order.entry.now;
      links = links.old;
      boxes = boxes.old;
      bounds = bounds.old;
      centres = centres.old;
      scratch = scratch.old;
    }) result (record {
      order = order.exit.now;
      links = links.new;
      boxes = boxes.new;
      bounds = bounds.new;
      centres = centres.new;
      scratch = scratch.new;
    }) }
{
    let settings = Settings {
        strategy,
        leaf_minimum,
        maximum_depth,
    };
    let built = build(
        triangles, settings, order, links, boxes, bounds, centres, scratch,
    );
    depth_answered(built)
}

// Writes the sure query's answers. 1 where the query was answered, else 0.
#[unsafe(no_mangle)]
pub extern "C" fn timing_sure(
    triangles: &[f32],
    order: &[u32],
    links: &[u32],
    boxes: &[f32],
    nodes: usize,
    points: &[f32],
    distance: f32,
    rule: u32,
    answers: &mut [u32],
) -> u32
    ensures passed { result ≡ Answered.one_passed (Calls.query_refusal (Answers.sure rule) triangles.now order.now links.now
        boxes.now nodes points.now distance (length answers.old)) }
    ensures answers { answers.new
        ≡ Calls.after_query binary32 (Calls.sure_answer binary32 (Rules.rule_of rule) triangles.now distance) points.now
        (Calls.query_refusal (Answers.sure rule) triangles.now order.now links.now boxes.now nodes
        points.now distance (length answers.old)) answers.old }
{
    let drawing = Drawing {
        triangles,
        order,
        links,
        boxes,
        nodes,
    };
    let verdict = queries::calls::sure_query(&drawing, points, distance, rule, answers);
    one_passed(verdict)
}

// Writes the answers of the query for the nearest few. 1 where the query was answered, else 0.
#[unsafe(no_mangle)]
pub extern "C" fn timing_few(
    triangles: &[f32],
    order: &[u32],
    links: &[u32],
    boxes: &[f32],
    nodes: usize,
    points: &[f32],
    distance: f32,
    rule: u32,
    most: u32,
    answers: &mut [u32],
) -> u32
    ensures passed { result ≡ Answered.one_passed (Calls.query_refusal (Answers.few rule most) triangles.now order.now
        links.now boxes.now nodes points.now distance (length answers.old)) }
    ensures answers { answers.new
        ≡ Calls.after_few binary32 most (Calls.few_answer binary32 (Rules.rule_of rule) most triangles.now distance) points.now
        (Calls.query_refusal (Answers.few rule most) triangles.now order.now links.now boxes.now nodes
        points.now distance (length answers.old)) answers.old }
{
    let drawing = Drawing {
        triangles,
        order,
        links,
        boxes,
        nodes,
    };
    let verdict = queries::calls::few_query(&drawing, points, distance, rule, most, answers);
    one_passed(verdict)
}

// Writes the source query's answers. 1 where the query was answered, else 0.
#[unsafe(no_mangle)]
pub extern "C" fn timing_source(
    triangles: &[f32],
    order: &[u32],
    links: &[u32],
    boxes: &[f32],
    nodes: usize,
    points: &[f32],
    distance: f32,
    answers: &mut [u32],
) -> u32
    ensures passed { result ≡ Answered.one_passed (Calls.query_refusal Answers.source triangles.now order.now
        links.now boxes.now nodes points.now distance (length answers.old)) }
    ensures answers { answers.new
        ≡ Calls.after_query binary32 (Calls.source_answer binary32 triangles.now order.now links.now
        boxes.now nodes distance) points.now (Calls.query_refusal Answers.source triangles.now order.now
        links.now boxes.now nodes points.now distance (length answers.old)) answers.old }
{
    let drawing = Drawing {
        triangles,
        order,
        links,
        boxes,
        nodes,
    };
    let verdict = queries::calls::source_query(&drawing, points, distance, answers);
    one_passed(verdict)
}

// 1 where the check passes, else 0.
#[unsafe(no_mangle)]
pub extern "C" fn timing_check(
    triangles: &[f32],
    order: &[u32],
    links: &[u32],
    boxes: &[f32],
    nodes: usize,
) -> u32
    ensures { result
        ≡ Answered.one_passed (Trees.check_refusal triangles.now order.now links.now boxes.now nodes) }
{
    let drawing = Drawing {
        triangles,
        order,
        links,
        boxes,
        nodes,
    };
    let verdict = check(&drawing);
    one_passed(verdict)
}

// The depth that is read off the lists, 0 where they are refused.
#[unsafe(no_mangle)]
pub extern "C" fn timing_depth_read(
    triangles: &[f32],
    order: &[u32],
    links: &[u32],
    boxes: &[f32],
    nodes: usize,
) -> usize
    ensures { result
        ≡ Answered.depth_read (Depth.depth_answer triangles.now order.now links.now boxes.now nodes) }
{
    let drawing = Drawing {
        triangles,
        order,
        links,
        boxes,
        nodes,
    };
    let found = tree::calls::depth(&drawing);
    depth_read(found)
}

// How many triangles the search for the nearest few measures for one point. A distance is refused, or so many.
fn measured_at(
    drawing: &Drawing,
    p: Vec3,
    distance: f32,
    rule: u32,
    most: u32,
) -> Result<usize, Refusal>
    requires { Calls.Searchable drawing.now.triangles.now drawing.now.order.now drawing.now.links.now drawing.now.boxes.now drawing.now.nodes }
    ensures { Answered.or_none result ≡ Answered.measured_at binary32 drawing.now.triangles.now drawing.now.order.now drawing.now.links.now
        drawing.now.boxes.now drawing.now.nodes distance rule most (Shapes.as_point p) }
{
    distance_refusal(distance)?;
    most_refusal(most)?;
    let probe = Probe {
        point: p,
        limit: distance * distance,
    };
    let mut places = Places::new();
    Ok(search(drawing, probe, rule, most as usize, &mut places))
}

// How many it measures for the first point, none where there is no point. Lists that are no drawing are refused.
fn measured_first(
    drawing: &Drawing,
    points: &[f32],
    distance: f32,
    rule: u32,
    most: u32,
) -> Result<usize, Refusal>
    ensures { Answered.or_none result ≡ Answered.measured_first binary32 drawing.now.triangles.now drawing.now.order.now drawing.now.links.now
        drawing.now.boxes.now drawing.now.nodes points.now distance rule most }
{
    check(drawing)?;
    if points.len() < 3 {
        return Ok(0);
    }
    measured_at(drawing, point_at(points, 0), distance, rule, most)
}

// How many triangles the search for the nearest few measures for the first point, 0 where the lists are refused or there is no point.
#[unsafe(no_mangle)]
pub extern "C" fn timing_measured(
    triangles: &[f32],
    order: &[u32],
    links: &[u32],
    boxes: &[f32],
    nodes: usize,
    points: &[f32],
    distance: f32,
    rule: u32,
    most: u32,
) -> usize
    ensures { result ≡ Answered.measured_first binary32 triangles.now order.now links.now boxes.now nodes
        points.now distance rule most }
{
    let drawing = Drawing {
        triangles,
        order,
        links,
        boxes,
        nodes,
    };
    measured_first(&drawing, points, distance, rule, most).unwrap_or(0)
}

// Writes the winding numbers. 1 where they were written, else 0.
#[unsafe(no_mangle)]
pub extern "C" fn timing_winding(triangles: &[f32], points: &[f32], windings: &mut [f32]) -> u32
    ensures passed { result ≡ Answered.one_passed (Windings.winding_refusal triangles.now points.now (length windings.old)) }
    ensures windings { windings.new ≡ Windings.after_winding binary32 triangles.now points.now windings.old }
{
    let verdict = angles::winding::winding(triangles, points, windings);
    one_passed(verdict)
}

// The solid angle of one triangle from one point, a NaN where there are more or fewer.
#[unsafe(no_mangle)]
pub extern "C" fn timing_solid(triangle: &[f32], point: &[f32]) -> f32
    ensures { result ≡ Answered.angle_of_one binary32 triangle.now point.now }
{
    if triangle.len() != 9 || point.len() != 3 {
        return 0.0 / 0.0;
    }
    let t = triangle_at(triangle, 0);
    let p = point_at(point, 0);
    angles::solid_angle::solid_angle(t, p)
}

// Writes the dipoles of all nodes. 1 where they were written, else 0.
#[unsafe(no_mangle)]
pub extern "C" fn timing_node_sums(
    triangles: &[f32],
    order: &[u32],
    links: &[u32],
    boxes: &[f32],
    nodes: usize,
    sums: &mut [f32],
) -> u32
    ensures passed { result ≡ Answered.one_passed (Dipoles.sums_refusal triangles.now order.now links.now
        boxes.now nodes (length sums.old)) }
    ensures sums { sums.new
        ≡ Dipoles.after_sums binary32 triangles.now order.now links.now boxes.now nodes sums.old }
{
    let drawing = Drawing {
        triangles,
        order,
        links,
        boxes,
        nodes,
    };
    let verdict = dipoles::calls::node_sums(&drawing, sums);
    one_passed(verdict)
}

// Writes the winding numbers by dipoles. 1 where they were written, else 0.
#[unsafe(no_mangle)]
pub extern "C" fn timing_fast(
    triangles: &[f32],
    order: &[u32],
    links: &[u32],
    boxes: &[f32],
    nodes: usize,
    sums: &[f32],
    points: &[f32],
    accuracy: f32,
    windings: &mut [f32],
) -> u32
    ensures passed { result ≡ Answered.one_passed (Dipoles.fast_refusal triangles.now order.now links.now
        boxes.now nodes sums.now points.now accuracy (length windings.old)) }
    ensures windings { windings.new
        ≡ Dipoles.after_fast binary32 triangles.now order.now links.now boxes.now nodes sums.now accuracy
        points.now windings.old }
{
    let drawing = Drawing {
        triangles,
        order,
        links,
        boxes,
        nodes,
    };
    let verdict = dipoles::calls::fast_winding(&drawing, sums, points, accuracy, windings);
    one_passed(verdict)
}
