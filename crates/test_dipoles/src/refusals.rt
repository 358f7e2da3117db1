// Prints what the two calls say of two triangles, each in a leaf, with one thing changed, and whether the lent list is as it was.
// These lines of the file `stdout` beside src/ were written by hand from the table of refusals.
ghost use Rattle.std.specs.Prelude.{◌≤◌};

use dipoles::calls::{fast_winding, node_sums};
use lists::drawing::Drawing;
use lists::refusal::Refusal;
use test_words::{put_number, put_word};

// What a call is given, but for the lists that each function below lends.
#[derive(Clone, Copy)]
struct Asked {
    links: [u32; 9],
    point: [f32; 3],
    accuracy: f32,
}

// A tree, a point and a scale that pass.
const RIGHT: Asked = Asked {
    links: [1, 0, 1, 1, 1, 2, 2, 0, 1],
    point: [0.25, 0.25, 1.0],
    accuracy: 2.0,
};

// T0 and T1 of the printed run.
const TRIANGLES: [f32; 18] = [
    0.0, 0.0, 0.0, 1.0, 0.0, 0.0, 0.0, 1.0, 0.0, 10.0, 0.0, 0.0, 11.0, 0.0, 0.0, 10.0, 1.0, 0.0,
];

// Their boxes, and the box about both.
const BOXES: [f32; 18] = [
    0.0, 0.0, 0.0, 1.0, 1.0, 0.0, 10.0, 0.0, 0.0, 11.0, 1.0, 0.0, 0.0, 0.0, 0.0, 11.0, 1.0, 0.0,
];

// Their drawing, with these links.
fn drawing_of<'a>(triangles: &'a [f32], links: &'a [u32]) -> Drawing<'a> {
    Drawing {
        triangles,
        order: &[0, 1],
        links,
        boxes: &BOXES,
        nodes: 3,
    }
}

fn put_told(told: Result<(), Refusal>) {
    match told {
        Ok(()) => {
            io::write_all(1, b" passed");
        }
        Err(refusal) => {
            io::write_all(1, b" refused");
            put_number(refusal.number());
            io::write_all(1, b" at");
            put_number(refusal.place());
        }
    }
}

// Whether every entry is the 7 that was lent.
fn is_kept(list: &[f32]) -> bool {
    list.iter().all(|x| floats::bits_of(*x) == 0x40e0_0000)
}

fn put_kept(list: &[f32]) {
    if is_kept(list) {
        io::write_all(1, b", kept\n");
    } else {
        io::write_all(1, b", written\n");
    }
}

// The numbers of the nodes, written to a list of `room` entries, of a triangle list of `numbers`.
fn put_sums(asked: Asked, numbers: usize, room: usize)
    requires numbers_bound { numbers ≤ 18 }
    requires room_bound { room ≤ 49 }
{
    let triangles = TRIANGLES;
    let links = asked.links;
    let drawing = drawing_of(&triangles[0..numbers], &links);
    let mut all = [7.0f32; 49];
    let sums = &mut all[0..room];
    put_told(node_sums(&drawing, sums));
    put_kept(sums);
}

// The winding number about the first `numbers` numbers of the point, from `given` numbers of nodes, written to a list of `room` entries.
fn put_winding(asked: Asked, numbers: usize, given: usize, room: usize)
    requires numbers_bound { numbers ≤ 3 }
    requires given_bound { given ≤ 48 }
    requires room_bound { room ≤ 2 }
{
    let links = asked.links;
    let drawing = drawing_of(&TRIANGLES, &links);
    let point = asked.point;
    let sums = [0.5f32; 48];
    let mut all = [7.0f32; 2];
    let out = &mut all[0..room];
    let told = fast_winding(
        &drawing,
        &sums[0..given],
        &point[0..numbers],
        asked.accuracy,
        out,
    );
    put_told(told);
    put_kept(out);
}

fn put_scale(pattern: u32) {
    let asked = Asked {
        accuracy: floats::from_bits(pattern),
        ..RIGHT
    };
    io::write_all(1, b"scale");
    put_word(pattern);
    put_winding(asked, 3, 48, 2);
}

fn put_point(patterns: [u32; 3]) {
    io::write_all(1, b"point");
    for pattern in patterns {
        put_word(pattern);
    }
    let asked = Asked {
        point: patterns.map(|pattern| floats::from_bits(pattern)),
        ..RIGHT
    };
    put_winding(asked, 3, 48, 2);
}

fn put_rooms(points: usize, given: usize, room: usize)
    requires points_bound { points ≤ 3 }
    requires given_bound { given ≤ 48 }
    requires room_bound { room ≤ 2 }
{
    io::write_all(1, b"winding of ");
    io::print_decimal(1, points as u64);
    io::write_all(1, b" numbers, ");
    io::print_decimal(1, given as u64);
    io::write_all(1, b" of nodes, room ");
    io::print_decimal(1, room as u64);
    put_winding(RIGHT, points, given, room);
}

fn put_sums_of(numbers: usize, room: usize)
    requires numbers_bound { numbers ≤ 18 }
    requires room_bound { room ≤ 49 }
{
    io::write_all(1, b"sums of ");
    io::print_decimal(1, numbers as u64);
    io::write_all(1, b" numbers, room ");
    io::print_decimal(1, room as u64);
    put_sums(RIGHT, numbers, room);
}

// The root's right child is its left one.
fn put_wrong_tree() {
    let mut asked = RIGHT;
    asked.links[8] = 0;
    io::write_all(1, b"sums of a wrong tree");
    put_sums(asked, 18, 49);
    io::write_all(1, b"winding of a wrong tree");
    put_winding(asked, 3, 48, 2);
}

// Where several are wrong the first test counts.
fn put_several() {
    let mut asked = RIGHT;
    asked.accuracy = -1.0;
    asked.point[1] = 2000000.0;
    io::write_all(1, b"point and scale");
    put_winding(asked, 3, 48, 2);
    asked.links[8] = 0;
    io::write_all(1, b"tree, point and scale");
    put_winding(asked, 3, 48, 2);
    io::write_all(1, b"room, tree, point and scale");
    put_winding(asked, 3, 48, 0);
}

// 0, minus zero, the least number, 1,000 and the two numbers behind it, the opposite of the least number, -1, infinities, NaNs.
const SCALES: [u32; 12] = [
    0x0000_0000,
    0x8000_0000,
    0x0000_0001,
    0x447a_0000,
    0x447a_0001,
    0x447a_0002,
    0x8000_0001,
    0xbf80_0000,
    0x7f80_0000,
    0xff80_0000,
    0x7fc0_0000,
    0xffc0_0000,
];

pub fn put_refusals() {
    put_sums_of(18, 49);
    put_sums_of(18, 48);
    put_sums_of(18, 47);
    put_sums_of(18, 0);
    put_sums_of(17, 49);
    put_sums_of(0, 49);
    put_rooms(3, 48, 2);
    put_rooms(3, 48, 1);
    put_rooms(3, 48, 0);
    put_rooms(3, 47, 2);
    put_rooms(3, 0, 2);
    put_rooms(2, 48, 2);
    put_rooms(0, 48, 0);
    put_wrong_tree();
    put_point([0x7fc0_0000, 0, 0]);
    put_point([0, 0x4980_0001, 0x7fc0_0000]);
    put_point([0, 0x4980_0000, 0xc980_0000]);
    put_point([0, 0, 0xff80_0000]);
    for pattern in SCALES {
        put_scale(pattern);
    }
    put_several();
}
