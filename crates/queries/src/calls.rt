// The public queries, over any lists at all: an answer a point or so many of them, or a refusal that changes nothing.
ghost use Rattle.std.specs.Prelude.{◌≡◌, ◌*◌, ◌≤◌, length};
ghost use Rattle.std.specs.Float.{binary32};
ghost use Rattle.spec_lists.specs.Reading as Reading;
ghost use Rattle.lists.specs.Values as Verdicts;
ghost use Rattle.spec_tables.specs.Tables as Tables;
ghost use Rattle.spec_search.specs.Answers as Answers;
ghost use Rattle.spec_search.specs.Rules as Rules;
ghost use Rattle.spec_search.specs.Calls as Calls;
ghost use Rattle.walks.specs.Values as Values;

use crate::query::{few_at, source_at};
use crate::rules::{choice_refusal, most_by};
use lists::drawing::Drawing;
use lists::reading::point_at;
use lists::refusal::{Refusal, room_refusal};
use lists::tests::{distance_refusal, point_count, points_refusal, triangles_refusal};
use tree::calls::tree_refusal;
use walks::answer::Query;
use walks::places::Places;
use walks::words::{ANSWER_WIDTH, put_answer, put_places};

// The first of the tests 1 to 6, 71 to 75, 8 and 9 that refuses.
fn query_refusal(
    query: Query,
    drawing: &Drawing,
    points: &[f32],
    distance: f32,
    room: usize,
) -> Result<(), Refusal>
    ensures { Verdicts.as_verdict result
        ≡ Calls.query_refusal (Values.as_query query) drawing.now.triangles.now drawing.now.order.now drawing.now.links.now drawing.now.boxes.now
        drawing.now.nodes points.now distance room }
{
    triangles_refusal(drawing.triangles)?;
    choice_refusal(query)?;
    room_refusal(room / ANSWER_WIDTH / most_by(query), point_count(points))?;
    tree_refusal(drawing)?;
    points_refusal(points)?;
    distance_refusal(distance)
}

// Writes the nearest few at all points to the front of the list.
fn put_few(
    drawing: &Drawing,
    points: &[f32],
    distance: f32,
    rule: u32,
    most: usize,
    answers: &mut [u32],
)
    requires askable { Calls.Askable drawing.now.triangles.now drawing.now.order.now drawing.now.links.now drawing.now.boxes.now
        drawing.now.nodes points.now distance }
    requires le_most { (1 ≤ most) × (most ≤ Calls.most_few) }
    requires points_in_bounds { (Answers.answer_width * most) * Reading.point_count points.now ≤ length answers.old }
    ensures { answers.new
        ≡ Tables.overwrite 0 (Calls.few_words binary32 most (Calls.few_answer binary32 (Rules.rule_of rule) most drawing.now.triangles.now
        distance) points.now) answers.old }
{
    let width = ANSWER_WIDTH * most;
    let mut places = Places::new();
    let count = point_count(points);
    for k in 0..count {
        let touched = point_at(points, 3 * k);
        few_at(drawing, touched, distance, rule, most, &mut places);
        put_places(answers, width * k, &places);
    }
}

// Writes the source's answers at all points to the front of the list.
fn put_source(drawing: &Drawing, points: &[f32], distance: f32, answers: &mut [u32])
    requires askable { Calls.Askable drawing.now.triangles.now drawing.now.order.now drawing.now.links.now drawing.now.boxes.now
        drawing.now.nodes points.now distance }
    requires points_in_bounds { Answers.answer_width * Reading.point_count points.now ≤ length answers.old }
    ensures { answers.new
        ≡ Tables.overwrite 0 (Calls.few_words binary32 1 (λ p j. Calls.source_answer binary32 drawing.now.triangles.now
        drawing.now.order.now drawing.now.links.now drawing.now.boxes.now drawing.now.nodes distance p) points.now) answers.old }
{
    for k in 0..point_count(points) {
        let p = point_at(points, 3 * k);
        put_answer(answers, ANSWER_WIDTH * k, source_at(drawing, p, distance));
    }
}

// Writes the answers at all points to the front of the list.
fn put_answers(query: Query, drawing: &Drawing, points: &[f32], distance: f32, answers: &mut [u32])
    requires askable { Calls.Askable drawing.now.triangles.now drawing.now.order.now drawing.now.links.now drawing.now.boxes.now
        drawing.now.nodes points.now distance }
    requires points_in_bounds { (Answers.answer_width * Calls.most_by (Values.as_query query)) * Reading.point_count points.now ≤ length answers.old }
    requires bound { (1 ≤ Calls.most_by (Values.as_query query)) × (Calls.most_by (Values.as_query query) ≤ Calls.most_few) }
    ensures { answers.new
        ≡ Tables.overwrite 0 (Calls.few_words binary32 (Calls.most_by (Values.as_query query)) (Calls.answer_by binary32 (Values.as_query query)
        drawing.now.triangles.now drawing.now.order.now drawing.now.links.now drawing.now.boxes.now
        drawing.now.nodes distance) points.now)
        answers.old }
{
    match query {
        Query::Sure { rule } => put_few(drawing, points, distance, rule, 1, answers),
        Query::Few { rule, most } => {
            put_few(drawing, points, distance, rule, most as usize, answers)
        }
        Query::Source => put_source(drawing, points, distance, answers),
    }
}

// Tests the lists, and writes the answers. A refusal changes nothing.
fn ask(
    query: Query,
    drawing: &Drawing,
    points: &[f32],
    distance: f32,
    answers: &mut [u32],
) -> Result<(), Refusal>
    ensures verdict { Verdicts.as_verdict result
        ≡ Calls.query_refusal (Values.as_query query) drawing.now.triangles.now drawing.now.order.now drawing.now.links.now drawing.now.boxes.now
        drawing.now.nodes points.now distance (length answers.old) }
    ensures answers { answers.new
        ≡ Calls.after_few binary32 (Calls.most_by (Values.as_query query)) (Calls.answer_by binary32 (Values.as_query query)
        drawing.now.triangles.now drawing.now.order.now drawing.now.links.now drawing.now.boxes.now
        drawing.now.nodes distance) points.now (Verdicts.as_verdict result)
        answers.old }
{
    query_refusal(query, drawing, points, distance, answers.len())?;
    put_answers(query, drawing, points, distance, answers);
    Ok(())
}

// For each point the nearest held surface point within the search distance, the lowest triangle number among equals:
// what a scan of all triangles finds. By rule 1 what is exactly at the distance is not within it, by rule 2 it is.
// `answers` holds an answer a point at its front. A refusal changes nothing.
pub fn sure_query(
    drawing: &Drawing,
    points: &[f32],
    distance: f32,
    rule: u32,
    answers: &mut [u32],
) -> Result<(), Refusal>
    ensures verdict { Verdicts.as_verdict result
        ≡ Calls.query_refusal (Answers.sure rule) drawing.now.triangles.now drawing.now.order.now drawing.now.links.now drawing.now.boxes.now
        drawing.now.nodes points.now distance (length answers.old) }
    ensures answers { answers.new
        ≡ Calls.after_query binary32 (Calls.sure_answer binary32 (Rules.rule_of rule) drawing.now.triangles.now distance) points.now
        (Verdicts.as_verdict result) answers.old }
{
    ask(Query::Sure { rule }, drawing, points, distance, answers)
}

// For each point so many answers, 1 to 16: the nearest held surface points within the search distance, one of each triangle, rising, the lower triangle
// number first among equals, and nothing in the spare places: what a scan of all triangles finds, as `sure_query`, which finds the first of them.
// `answers` holds so many answers a point at its front. A refusal changes nothing.
pub fn few_query(
    drawing: &Drawing,
    points: &[f32],
    distance: f32,
    rule: u32,
    most: u32,
    answers: &mut [u32],
) -> Result<(), Refusal>
    ensures verdict { Verdicts.as_verdict result
        ≡ Calls.query_refusal (Answers.few rule most) drawing.now.triangles.now drawing.now.order.now drawing.now.links.now drawing.now.boxes.now
        drawing.now.nodes points.now distance (length answers.old) }
    ensures answers { answers.new
        ≡ Calls.after_few binary32 most (Calls.few_answer binary32 (Rules.rule_of rule) most drawing.now.triangles.now distance) points.now
        (Verdicts.as_verdict result) answers.old }
{
    ask(
        Query::Few { rule, most },
        drawing,
        points,
        distance,
        answers,
    )
}

// For each point what the search of the Rust answers, with its leaf range repaired. `answers` holds an answer a point at its front.
// A refusal changes nothing.
pub fn source_query(
    drawing: &Drawing,
    points: &[f32],
    distance: f32,
    answers: &mut [u32],
) -> Result<(), Refusal>
    ensures verdict { Verdicts.as_verdict result
        ≡ Calls.query_refusal Answers.source drawing.now.triangles.now drawing.now.order.now drawing.now.links.now drawing.now.boxes.now
        drawing.now.nodes points.now distance (length answers.old) }
    ensures answers { answers.new
        ≡ Calls.after_query binary32 (Calls.source_answer binary32 drawing.now.triangles.now drawing.now.order.now drawing.now.links.now drawing.now.boxes.now
        drawing.now.nodes distance) points.now
        (Verdicts.as_verdict result) answers.old }
{
    ask(Query::Source, drawing, points, distance, answers)
}
