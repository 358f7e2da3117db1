// Replays what the Rust keeps of each node of a tree, bit for bit, and its winding numbers by dipoles within n * 2^-20 for n triangles
// (tests/oracle/dipoles.rs made the list on standard input, and says how it is laid out). Prints what the two calls refuse, then the first
// ten words that differ, and how many trees, nodes and winding numbers there are and how many words differ.
#![tactic(auto)]

ghost use Rattle.std.specs.Prelude.{◌≤◌};

mod refusals;

use crate::refusals::put_refusals;
use dipoles::calls::{fast_winding, node_sums};
use lists::drawing::Drawing;
use lists::refusal::Refusal;
use test_words::cursor::Cursor;
use test_words::tally::Tally;
use test_words::{more, put_count, read_case};

// The first six words of a case.
#[derive(Clone, Copy)]
struct Head {
    triangles: u32,
    nodes: u32,
    points: u32,
    scales: [f32; 3],
}

// What was replayed of all cases.
#[derive(Clone, Copy)]
struct Replayed {
    trees: Tally,
    nodes: usize,
    windings: usize,
}

fn next_head(case: &mut Cursor) -> Head {
    Head {
        triangles: case.next(),
        nodes: case.next(),
        points: case.next(),
        scales: [case.next(), case.next(), case.next()],
    }
}

// Any NaN is as good as another.
fn is_same(ours: u32, theirs: u32) -> bool {
    let number = floats::from_bits(theirs);
    let other = floats::from_bits(ours);
    if number == number {
        ours == theirs
    } else {
        !(other == other)
    }
}

fn is_near(ours: f32, theirs: f32, most: f32) -> bool {
    floats::absolute(ours - theirs) <= most
}

// Nothing may be refused, and the entry behind those that the call writes is the 7 that was lent.
fn answered(tally: &mut Tally, what: &[u8], told: Result<(), Refusal>, behind: f32) {
    let kept = floats::bits_of(behind);
    if told.is_ok() && kept != 0x40e0_0000 {
        tally.differs(what, 0, kept, 0x40e0_0000);
    }
    tally.answered(what, told);
}

// Compares the winding numbers about up to 8 points at one scale, within `most`, with the next words of the case.
fn wound(
    drawing: &Drawing,
    sums: &[f32],
    points: &[f32],
    accuracy: f32,
    most: f32,
    case: &mut Cursor,
    tally: &mut Tally,
) {
    let mut out = [7.0f32; 9];
    let told = fast_winding(drawing, sums, points, accuracy, &mut out);
    let count = (points.len() / 3).min(8);
    answered(tally, b"winding ", told, out[count]);
    tally.compare(b"winding ", &out[0..count], case, |ours, theirs| {
        is_near(floats::from_bits(ours), floats::from_bits(theirs), most)
    });
}

// Compares our numbers of the nodes, and by them the winding numbers at three scales.
fn summed(
    drawing: &Drawing,
    points: &[f32],
    scales: &[f32; 3],
    case: &mut Cursor,
    tally: &mut Tally,
)
    requires { drawing.now.nodes ≤ 79 }
{
    let mut all = [7.0f32; 1265];
    let told = node_sums(drawing, &mut all);
    let used = 16 * drawing.nodes;
    answered(tally, b"sums ", told, all[used]);
    let sums = &all[0..used];
    tally.compare(b"sums ", sums, case, is_same);
    let count = drawing.triangles.len() / 9;
    let most = std::num::nearest_u32_to_f32((count % 41) as u32) * 0.00000095367431640625;
    for accuracy in scales {
        wound(drawing, sums, points, *accuracy, most, case, tally);
    }
}

// Compares a case of up to 40 triangles, 79 nodes and 8 points, from its lists on.
fn compare(head: Head, case: &mut Cursor, tally: &mut Tally)
    requires { head.nodes ≤ 79 }
{
    let nodes = head.nodes as usize;
    let mut room = [0.0f32; 360];
    let triangles = case.fill(9 * head.triangles as usize, &mut room);
    let mut room = [0.0f32; 24];
    let points = case.fill(3 * head.points as usize, &mut room);
    let mut order = [0u32; 40];
    let mut links = [0u32; 237];
    let mut boxes = [0.0f32; 474];
    let drawing = case.drawing(triangles, nodes, &mut order, &mut links, &mut boxes);
    summed(&drawing, points, &head.scales, case, tally);
}

fn replay(bytes: &[u8], replayed: &mut Replayed) {
    let mut case = Cursor { bytes, at: 0 };
    let head = next_head(&mut case);
    if head.triangles <= 40 && head.nodes <= 79 && head.points <= 8 {
        compare(head, &mut case, &mut replayed.trees);
        replayed.trees.count_case();
        replayed.nodes = more(replayed.nodes, head.nodes as usize);
        replayed.windings = more(replayed.windings, 3 * head.points as usize);
    } else {
        replayed.trees.differs(b"head ", 0, 0, 0);
    }
}

// Replays the next case, if there is one that fits.
fn replay_next(replayed: &mut Replayed) {
    let mut all = [0u8; 12288];
    if let Some(bytes) = read_case(&mut all) {
        replay(bytes, replayed);
    }
}

fn main() {
    put_refusals();
    let mut replayed = Replayed {
        trees: Tally::of(b"tree "),
        nodes: 0,
        windings: 0,
    };
    for _ in 0..1000 {
        replay_next(&mut replayed);
    }
    put_count(replayed.trees.cases, b" trees, ");
    put_count(replayed.nodes, b" nodes, ");
    put_count(replayed.windings, b" winding numbers, ");
    put_count(replayed.trees.differ, b" words differ\n");
}
