// The calls of a C host over the lists of a drawing. What comes in is tested first, and a call that refuses changes no lent byte.
// Kept: (a) the lists of a drawing as parameters one by one: these are the functions of the C interface.
ghost use Rattle.std.specs.Prelude.{◌≡◌};
ghost use Rattle.spec_lists.specs.Reading.{triangle_count};
ghost use Rattle.spec_tree.specs.Refusals.{check_refusal};
ghost use Rattle.spec_search.specs.Answers.{sure, few, source};
ghost use Rattle.walks.specs.Values.{as_query};
ghost use Rattle.spec_host.specs.Status.{status};
ghost use Rattle.spec_host.specs.Requests.{QueryIs, WindingIs, SumsIs, FastIs};

use crate::fast_windings::fast_winding;
use crate::point_queries::ask;
use crate::point_windings::winding;
use dipoles::calls::node_sums;
use host_bytes::status::encode;
use lists::drawing::Drawing;
use lists::tests::triangle_count;
use tree::calls::check;
use walks::answer::Query;

// Whether the lists can be queried: tests 1 to 4 and 71 to 75. The status is the number of triangles.
pub fn check_lists(
    triangles: &[f32],
    order: &[u32],
    links: &[u32],
    boxes: &[f32],
    nodes: usize,
) -> u64
    ensures { result
        ≡ status (check_refusal triangles.now order.now links.now boxes.now nodes)
        (triangle_count triangles.now) }
{
    let drawing = Drawing {
        triangles,
        order,
        links,
        boxes,
        nodes,
    };
    let checked = check(&drawing);
    encode(checked.and(Ok(triangle_count(triangles))))
}

// A query at each point: tests 1 to 6, 71 to 75, 8 and 9. The status is the number of points.
fn query_points(
    query: Query,
    drawing: &Drawing,
    points: &[u8],
    distance: f32,
    answers: &mut [u8],
) -> u64
    ensures { QueryIs (as_query query) drawing.now.triangles.now drawing.now.order.now drawing.now.links.now
        drawing.now.boxes.now drawing.now.nodes points.now distance answers.old result answers.new }
{
    let asked = ask(query, drawing, points, distance, answers);
    encode(asked.and(Ok(points.len() / 12)))
}

// Writes the sure query's answer at each point: the nearest surface point, the lowest triangle number among equals.
// By rule 1 what is exactly at the distance does not count, by rule 2 it does.
// The status is the number of points.
pub fn sure_points(
    triangles: &[f32],
    order: &[u32],
    links: &[u32],
    boxes: &[f32],
    nodes: usize,
    points: &[u8],
    distance: f32,
    rule: u32,
    answers: &mut [u8],
) -> u64
    ensures { QueryIs (sure rule) triangles.now order.now links.now boxes.now nodes
        points.now distance answers.old result answers.new }
{
    let drawing = Drawing {
        triangles,
        order,
        links,
        boxes,
        nodes,
    };
    query_points(Query::Sure { rule }, &drawing, points, distance, answers)
}

// Writes so many answers at each point, 1 to 16: the nearest surface points, one of each triangle, rising, and nothing in the spare places.
// The first of them is what `sure_points` writes, by the same rules. The status is the number of points.
pub fn few_points(
    triangles: &[f32],
    order: &[u32],
    links: &[u32],
    boxes: &[f32],
    nodes: usize,
    points: &[u8],
    distance: f32,
    rule: u32,
    most: u32,
    answers: &mut [u8],
) -> u64
    ensures { QueryIs (few rule most) triangles.now order.now links.now boxes.now nodes
        points.now distance answers.old result answers.new }
{
    let drawing = Drawing {
        triangles,
        order,
        links,
        boxes,
        nodes,
    };
    query_points(
        Query::Few { rule, most },
        &drawing,
        points,
        distance,
        answers,
    )
}

// Writes what the search of the Rust answers at each point. The status is the number of points.
pub fn source_points(
    triangles: &[f32],
    order: &[u32],
    links: &[u32],
    boxes: &[f32],
    nodes: usize,
    points: &[u8],
    distance: f32,
    answers: &mut [u8],
) -> u64
    ensures { QueryIs source triangles.now order.now links.now boxes.now nodes
        points.now distance answers.old result answers.new }
{
    let drawing = Drawing {
        triangles,
        order,
        links,
        boxes,
        nodes,
    };
    query_points(Query::Source, &drawing, points, distance, answers)
}

// Writes the winding number about each point, an f32 in four bytes: tests 1 to 4, 6 and 8. The status is the number of points.
pub fn winding_points(triangles: &[f32], points: &[u8], windings: &mut [u8]) -> u64
    ensures { WindingIs triangles.now points.now windings.old result windings.new }
{
    let wound = winding(triangles, points, windings);
    encode(wound.and(Ok(points.len() / 12)))
}

// Writes the dipoles of the tree, sixteen numbers a node: tests 1 to 4, 6 and 71 to 75. The status is the number of nodes.
pub fn sums_lists(
    triangles: &[f32],
    order: &[u32],
    links: &[u32],
    boxes: &[f32],
    nodes: usize,
    sums: &mut [f32],
) -> u64
    ensures { SumsIs triangles.now order.now links.now boxes.now nodes sums.old result
        sums.new }
{
    let drawing = Drawing {
        triangles,
        order,
        links,
        boxes,
        nodes,
    };
    let summed = node_sums(&drawing, sums);
    encode(summed.and(Ok(nodes)))
}

// Writes the winding number by dipoles about each point, an f32 in four bytes: tests 1 to 4, 6, 71 to 75, 8 and 14.
// The status is the number of points.
pub fn fast_points(
    triangles: &[f32],
    order: &[u32],
    links: &[u32],
    boxes: &[f32],
    nodes: usize,
    sums: &[f32],
    points: &[u8],
    accuracy: f32,
    windings: &mut [u8],
) -> u64
    ensures { FastIs triangles.now order.now links.now boxes.now nodes sums.now
        points.now accuracy windings.old result windings.new }
{
    let drawing = Drawing {
        triangles,
        order,
        links,
        boxes,
        nodes,
    };
    let wound = fast_winding(&drawing, sums, points, accuracy, windings);
    encode(wound.and(Ok(points.len() / 12)))
}
