// The answers of a query at all points: tests 1 to 6, 71 to 75, 8 and 9, then an answer a point or so many of them.
// Kept: (d) beside `queries::calls`: `put_few<S: Store>(.., points: &S::Points, .., out: &mut S)` asks for a trait with laws of reading and writing.
ghost use Rattle.std.specs.Prelude.{◌≡◌, ◌*◌, ◌/◌, ◌≤◌, length};
ghost use Rattle.std.specs.Float.{binary32};
ghost use Rattle.spec_tables.specs.Tables.{overwrite};
ghost use Rattle.spec_lists.specs.Passed.{GoodPoints, GoodDistance};
ghost use Rattle.lists.specs.Values.{as_verdict};
ghost use Rattle.spec_search.specs.Rules.{rule_of};
ghost use Rattle.spec_search.specs.Calls.{most_few, most_by, Searchable, few_answer, source_answer, answer_by};
ghost use Rattle.spec_host.specs.PointBytes.{numbers_of, answer_size, answer_bytes, after_bytes};
ghost use Rattle.spec_host.specs.Requests.{query_bytes_refusal};
ghost use Rattle.walks.specs.Values.{as_query};

use host_bytes::answers::{ANSWER_SIZE, put_answer_bytes, put_places_bytes};
use host_bytes::points::{point_bytes_refusal, point_in};
use lists::drawing::Drawing;
use lists::refusal::{Refusal, room_refusal};
use lists::tests::{distance_refusal, triangles_refusal};
use queries::query::{few_at, source_at};
use queries::rules::{choice_refusal, most_by};
use tree::calls::tree_refusal;
use walks::answer::Query;
use walks::places::Places;

// The first of the tests 1 to 6, 71 to 75, 8 and 9 that refuses. The room is in bytes, as are the points: one has 12.
fn query_refusal(
    query: Query,
    drawing: &Drawing,
    points: &[u8],
    distance: f32,
    room: usize,
) -> Result<(), Refusal>
    ensures { as_verdict result
        ≡ query_bytes_refusal (as_query query) drawing.now.triangles.now drawing.now.order.now drawing.now.links.now
        drawing.now.boxes.now drawing.now.nodes points.now distance room }
{
    triangles_refusal(drawing.triangles)?;
    choice_refusal(query)?;
    room_refusal(room / ANSWER_SIZE / most_by(query), points.len() / 12)?;
    tree_refusal(drawing)?;
    point_bytes_refusal(points)?;
    distance_refusal(distance)
}

// Writes the nearest few at all points to the front of the bytes.
fn put_few(
    drawing: &Drawing,
    points: &[u8],
    distance: f32,
    rule: u32,
    most: usize,
    answers: &mut [u8],
)
    requires searchable { Searchable drawing.now.triangles.now drawing.now.order.now drawing.now.links.now drawing.now.boxes.now
        drawing.now.nodes }
    requires good_points { GoodPoints (numbers_of points.now) }
    requires points_in_bounds { (answer_size * most) * (length points.now / 12) ≤ length answers.old }
    requires good_distance { GoodDistance distance }
    requires le_most { (1 ≤ most) × (most ≤ most_few) }
    ensures { answers.new
        ≡ overwrite 0 (answer_bytes most (few_answer binary32 (rule_of rule) most drawing.now.triangles.now distance) points.now)
        answers.old }
{
    let width = ANSWER_SIZE * most;
    let mut places = Places::new();
    let count = points.len() / 12;
    for k in 0..count {
        let touched = point_in(points, k);
        few_at(drawing, touched, distance, rule, most, &mut places);
        put_places_bytes(answers, width * k, &places);
    }
}

// Writes the source's answers at all points to the front of the bytes.
fn put_source(drawing: &Drawing, points: &[u8], distance: f32, answers: &mut [u8])
    requires searchable { Searchable drawing.now.triangles.now drawing.now.order.now drawing.now.links.now drawing.now.boxes.now
        drawing.now.nodes }
    requires points_in_bounds { answer_size * (length points.now / 12) ≤ length answers.old }
    ensures { answers.new
        ≡ overwrite 0 (answer_bytes 1 (λ p j. source_answer binary32 drawing.now.triangles.now drawing.now.order.now
        drawing.now.links.now drawing.now.boxes.now drawing.now.nodes distance p) points.now) answers.old }
{
    let count = points.len() / 12;
    for k in 0..count {
        let touched = point_in(points, k);
        put_answer_bytes(
            answers,
            ANSWER_SIZE * k,
            source_at(drawing, touched, distance),
        );
    }
}

// Writes the answers at all points to the front of the bytes.
fn put_answers(query: Query, drawing: &Drawing, points: &[u8], distance: f32, answers: &mut [u8])
    requires searchable { Searchable drawing.now.triangles.now drawing.now.order.now drawing.now.links.now drawing.now.boxes.now
        drawing.now.nodes }
    requires good_points { GoodPoints (numbers_of points.now) }
    requires points_in_bounds { (answer_size * most_by (as_query query)) * (length points.now / 12) ≤ length answers.old }
    requires good_distance { GoodDistance distance }
    requires bound { (1 ≤ most_by (as_query query)) × (most_by (as_query query) ≤ most_few) }
    ensures { answers.new
        ≡ overwrite 0 (answer_bytes (most_by (as_query query)) (answer_by binary32 (as_query query) drawing.now.triangles.now
        drawing.now.order.now drawing.now.links.now drawing.now.boxes.now drawing.now.nodes distance) points.now) answers.old }
{
    match query {
        Query::Sure { rule } => put_few(drawing, points, distance, rule, 1, answers),
        Query::Few { rule, most } => {
            put_few(drawing, points, distance, rule, most as usize, answers)
        }
        Query::Source => put_source(drawing, points, distance, answers),
    }
}

// Makes the tests, and writes the answers. A refusal changes nothing.
pub fn ask(
    query: Query,
    drawing: &Drawing,
    points: &[u8],
    distance: f32,
    answers: &mut [u8],
) -> Result<(), Refusal>
    ensures verdict { as_verdict result
        ≡ query_bytes_refusal (as_query query) drawing.now.triangles.now drawing.now.order.now drawing.now.links.now
        drawing.now.boxes.now drawing.now.nodes points.now distance (length answers.old) }
    ensures answers { answers.new
        ≡ after_bytes (as_verdict result) (answer_bytes (most_by (as_query query)) (answer_by binary32 (as_query query)
        drawing.now.triangles.now drawing.now.order.now drawing.now.links.now drawing.now.boxes.now drawing.now.nodes
        distance) points.now) answers.old }
{
    query_refusal(query, drawing, points, distance, answers.len())?;
    put_answers(query, drawing, points, distance, answers);
    Ok(())
}
