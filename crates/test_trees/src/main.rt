// Replays trees and source answers of the Rust, and sure answers, the nearest few and all parts of a plain scan (tests/oracle/trees.rs
// made the list on standard input).
// Prints the first ten words that differ, how many cases, trees and points there are and how many words differ.
#![tactic(auto)]

ghost use Rattle.std.specs.Prelude.{◌≤◌};

use build::calls::{Built, build};
use lists::drawing::Drawing;
use lists::refusal::Refusal;
use lists::settings::Settings;
use queries::calls::{few_query, source_query, sure_query};
use test_words::cursor::Cursor;
use test_words::tally::Tally;
use test_words::{more, put_count, read_next};
use walks::words::ANSWER_WIDTH;

// The first ten words of a case: how many answers a point has as its nearest few, and how many words these are, come last. Both are 0
// where the few are not asked for.
#[derive(Clone, Copy)]
struct Head {
    triangles: u32,
    strategy: u32,
    leaf_minimum: u32,
    maximum_depth: u32,
    distance: f32,
    points: u32,
    nodes: u32,
    depth: u32,
    most: u32,
    few: u32,
}

fn next_head(case: &mut Cursor) -> Head {
    Head {
        triangles: case.next(),
        strategy: case.next(),
        leaf_minimum: case.next(),
        maximum_depth: case.next(),
        distance: case.next(),
        points: case.next(),
        nodes: case.next(),
        depth: case.next(),
        most: case.next(),
        few: case.next(),
    }
}

// How many bytes follow the head: nine numbers a triangle and its entry of the order, nine of each node, three of each point and two answers
// about it, and the nearest few twice.
fn body_size(head: Head) -> usize {
    let words = 10 * head.triangles as usize
        + 9 * head.nodes as usize
        + (3 + 2 * ANSWER_WIDTH) * head.points as usize
        + 2 * head.few as usize;
    4 * words
}

fn compare_counts(head: Head, told: Result<Built, Refusal>, tally: &mut Tally) {
    match told {
        Err(_) => tally.differs(b"build ", 0, 1, 0),
        Ok(built) => {
            if built.nodes != head.nodes as usize {
                tally.differs(b"nodes ", 0, 1, 0);
            } else if built.depth != head.depth as usize {
                tally.differs(b"depth ", 0, 1, 0);
            }
        }
    }
}

// Compares the tree that is built of the case's triangles and settings with the Rust's, from its order on.
fn compare_tree(triangles: &[f32], head: Head, theirs: &mut Cursor, tally: &mut Tally)
    requires { (head.triangles ≤ 24) × (head.nodes ≤ 47) }
{
    let mut order = [7u32; 24];
    let mut links = [7u32; 141];
    let mut boxes = [7.0f32; 282];
    let mut bounds = [7.0f32; 144];
    let mut centres = [7.0f32; 72];
    let mut scratch = [7u32; 24];
    let count = head.triangles as usize;
    let nodes = head.nodes as usize;
    let settings = Settings {
        strategy: head.strategy as usize,
        leaf_minimum: head.leaf_minimum as usize,
        maximum_depth: head.maximum_depth as usize,
    };
    let told = build(
        triangles,
        settings,
        &mut order[0..count],
        &mut links,
        &mut boxes,
        &mut bounds,
        &mut centres,
        &mut scratch,
    );
    compare_counts(head, told, tally);
    tally.same(b"order ", &order[0..count], theirs);
    tally.same(b"links ", &links[0..3 * nodes], theirs);
    tally.same(b"boxes ", &boxes[0..6 * nodes], theirs);
}

// Compares the answers of the source query and the sure query with the next words of the case.
fn compare_answers(
    drawing: &Drawing,
    points: &[f32],
    distance: f32,
    case: &mut Cursor,
    tally: &mut Tally,
) {
    let size = ANSWER_WIDTH * (points.len() / 3).min(20);
    let mut all = [7u32; 20 * ANSWER_WIDTH];
    let source = &mut all[0..size];
    let told = source_query(drawing, points, distance, source);
    tally.answered(b"source ", told);
    tally.same(b"source ", source, case);
    let mut all = [7u32; 20 * ANSWER_WIDTH];
    let sure = &mut all[0..size];
    let told = sure_query(drawing, points, distance, 1, sure);
    tally.answered(b"sure ", told);
    tally.same(b"sure ", sure, case);
}

// Compares the nearest few by a rule, in just as many words as they are, with the next words of the case.
fn compare_few(
    drawing: &Drawing,
    points: &[f32],
    head: Head,
    rule: u32,
    case: &mut Cursor,
    tally: &mut Tally,
)
    requires { head.few ≤ 560 }
{
    let mut all = [7u32; 80 * ANSWER_WIDTH];
    let few = &mut all[0..head.few as usize];
    let told = few_query(drawing, points, head.distance, rule, head.most, few);
    tally.answered(b"few ", told);
    tally.same(b"few ", few, case);
}

// Compares a case of up to 24 triangles, 47 nodes, 20 points and 560 words of the nearest few.
fn compare(head: Head, case: &mut Cursor, tally: &mut Tally)
    requires { (head.triangles ≤ 24) × (head.nodes ≤ 47) × (head.few ≤ 560) }
{
    let count = head.triangles as usize;
    let nodes = head.nodes as usize;
    let mut room = [0.0f32; 216];
    let triangles = case.fill(9 * count, &mut room);
    let mut room = [0.0f32; 60];
    let points = case.fill(3 * head.points as usize, &mut room);
    let mut theirs = *case;
    compare_tree(triangles, head, &mut theirs, tally);
    let mut order = [0u32; 24];
    let mut links = [0u32; 141];
    let mut boxes = [0.0f32; 282];
    let drawing = case.drawing(triangles, nodes, &mut order, &mut links, &mut boxes);
    compare_answers(&drawing, points, head.distance, case, tally);
    if head.few > 0 {
        compare_few(&drawing, points, head, 1, case, tally);
        compare_few(&drawing, points, head, 2, case, tally);
    }
}

// Replays the next case, if there is one that fits. Answers how many points it has.
fn replay_next(tally: &mut Tally) -> usize {
    let mut room = [0u8; 40];
    let Some(bytes) = read_next(40, &mut room) else {
        return 0;
    };
    let head = next_head(&mut Cursor { bytes, at: 0 });
    if head.triangles <= 24 && head.points <= 20 && head.nodes <= 47 && head.few <= 560 {
        let mut room = [0u8; 8192];
        if let Some(bytes) = read_next(body_size(head), &mut room) {
            compare(head, &mut Cursor { bytes, at: 0 }, tally);
            tally.count_case();
            return head.points as usize;
        }
    }
    0
}

fn main() {
    let mut tally = Tally::of(b"case ");
    let mut points = 0;
    for _ in 0..1000 {
        points = more(points, replay_next(&mut tally));
    }
    put_count(tally.cases, b" trees, ");
    put_count(points, b" points, ");
    put_count(tally.differ, b" words differ\n");
}
