// A run from the outside in: the length of the input, its layout, its lists, the tests, the tree, the answers.
ghost use Rattle.std.specs.Prelude.{◌≡◌, ◌++◌, ◌+◌, ◌*◌, ◌≤◌, length};
ghost use Rattle.spec_tables.specs.Tables.{Put};
ghost use Rattle.spec_lists.specs.Reading.{point_count};
ghost use Rattle.spec_lists.specs.Refusals.{passes};
ghost use Rattle.lists.specs.Values.{number_of, place_of, as_settings};
ghost use Rattle.spec_search.specs.Answers.{sure, answer_width};
ghost use Rattle.spec_search.specs.Calls.{query_refusal};
ghost use Rattle.spec_printing.specs.Printed.{longest_found, refused_line};
ghost use Rattle.spec_gauge.specs.Printed.{Fits, max_bytes, max_points, input_size, max_printed, rule_in, request_in, request_refusal, tree_line, answer_lines, printed_run, printed};
ghost use Rattle.gauge_run.specs.Values.{as_request};

use crate::answer_lines::put_answer_lines;
use crate::request::Request;
use build::calls::build;
use image::get::settings_of;
use lists::drawing::Drawing;
use lists::refusal::Refusal;
use lists::tests::{point_count, triangle_count};
use printing::lines::{LONGEST_FOUND, put_counts, put_refused};
use queries::calls::sure_query;
use records::entries::{f32_at, read_f32s};
use records::layout::{GaugeCounts, gauge_layout};
use records::numbers::u16_at;
use records::versions::Version;
use walks::words::ANSWER_WIDTH;

// No more points than these fit in an input.
const MAX_POINTS: usize = 2730;

// The longest run, a tree's line and the points': room for it is lent.
pub const MAX_PRINTED: usize = 85 + LONGEST_FOUND * MAX_POINTS;

// Writes one line a point, by sure queries over a tree that passes the tree check. None of them is refused.
fn put_answers(request: &Request, drawing: &Drawing, out: &mut [u8], at: usize) -> usize
    requires max_points_value { query_refusal (sure request.now.rule) drawing.now.triangles.now drawing.now.order.now drawing.now.links.now
        drawing.now.boxes.now drawing.now.nodes request.now.points.now request.now.distance (answer_width * max_points) ≡ passes }
    requires points_in_bounds { at + longest_found * point_count request.now.points.now ≤ length out.old }
    ensures { Put at (answer_lines drawing.now.triangles.now request.now.points.now request.now.distance request.now.rule)
        out.old out.new result }
{
    let mut answers = [0u32; ANSWER_WIDTH * MAX_POINTS];
    let _ = sure_query(
        drawing,
        request.points,
        request.distance,
        request.rule,
        &mut answers,
    );
    put_answer_lines(&answers, point_count(request.points), out, at)
}

// Writes the counts and the answers of a request that passed the tests. A build that refuses cannot come up.
fn put_run(request: &Request, out: &mut [u8]) -> usize
    requires rule_value { request_refusal (as_request request.now) ≡ passes }
    requires fits { Fits request.now.triangles.now request.now.points.now out.old }
    ensures { Put 0
        (tree_line request.now.triangles.now (as_settings request.now.settings)
        ++ answer_lines request.now.triangles.now request.now.points.now request.now.distance request.now.rule)
        out.old out.new result }
{
    let mut order = [0u32; 909];
    let mut links = [0u32; 5451];
    let mut boxes = [0.0f32; 10902];
    let mut bounds = [0.0f32; 5454];
    let mut centres = [0.0f32; 2727];
    let mut scratch = [0u32; 909];
    let Ok(built) = build(
        request.triangles,
        request.settings,
        &mut order,
        &mut links,
        &mut boxes,
        &mut bounds,
        &mut centres,
        &mut scratch,
    ) else {
        return 0;
    };
    let count = triangle_count(request.triangles);
    let next = put_counts(out, 0, count, built.nodes, built.depth);
    let drawing = Drawing {
        triangles: request.triangles,
        order: &order[..count],
        links: &links,
        boxes: &boxes,
        nodes: built.nodes,
    };
    put_answers(request, &drawing, out, next)
}

// Writes the line of a refusal.
fn put_refusal(refusal: Refusal, out: &mut [u8]) -> usize
    requires { max_printed ≤ length out.old }
    ensures { Put 0 (refused_line (number_of refusal) (place_of refusal)) out.old out.new result }
{
    put_refused(out, 0, refusal.number(), refusal.place())
}

// Writes the line of a refusal, or the run.
fn print_request(request: &Request, out: &mut [u8]) -> usize
    requires { Fits request.now.triangles.now request.now.points.now out.old }
    ensures { Put 0 (printed_run (as_request request.now)) out.old out.new result }
{
    match request.refusal() {
        Ok(()) => put_run(request, out),
        Err(refusal) => put_refusal(refusal, out),
    }
}

// The number of the rule of records of so many triangles and points: 1 where none is told.
fn rule_of(input: &[u8], counts: GaugeCounts) -> u32
    requires { input_size counts.triangles counts.points counts.ruled ≡ length input.now }
    ensures { result ≡ rule_in input.now counts.triangles counts.points counts.ruled }
{
    if counts.ruled {
        let fifth = 20 + 36 * counts.triangles + 6 + 12 * counts.points + 6 + 4 + 6;
        u16_at(input, fifth)
    } else {
        1
    }
}

// Writes what is printed for records of so many triangles and points, with a rule or without.
fn print_sized(input: &[u8], counts: GaugeCounts, out: &mut [u8]) -> usize
    requires ruled_value { (input_size counts.triangles counts.points counts.ruled ≡ length input.now) × (length input.now ≤ max_bytes) }
    requires max_printed_in_bounds { max_printed ≤ length out.old }
    ensures { Put 0 (printed_run (request_in input.now counts.triangles counts.points counts.ruled)) out.old out.new result }
{
    let third = 20 + 36 * counts.triangles + 6;
    let fourth = third + 12 * counts.points + 6;
    let numbers = 9 * counts.triangles;
    let mut triangles = [0.0f32; 8181];
    read_f32s(input, 20, numbers, &mut triangles, 0);
    let coordinates = 3 * counts.points;
    let mut points = [0.0f32; 8190];
    read_f32s(input, third, coordinates, &mut points, 0);
    let request = Request {
        triangles: &triangles[..numbers],
        settings: settings_of(input, Version::One),
        points: &points[..coordinates],
        distance: f32_at(input, fourth),
        rule: rule_of(input, counts),
    };
    print_request(&request, out)
}

// Writes what `gauge` prints for this input to the front of `out` and answers how many bytes that is.
pub fn print(input: &[u8], out: &mut [u8]) -> usize
    requires { max_printed ≤ length out.old }
    ensures { Put 0 (printed input.now) out.old out.new result }
{
    if 32768 < input.len() {
        return put_refusal(Refusal::BadLayout(0), out);
    }
    match gauge_layout(input) {
        Ok(counts) => print_sized(input, counts, out),
        Err(wrong) => put_refusal(Refusal::from(wrong), out),
    }
}
