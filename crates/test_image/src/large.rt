// Images of both versions that are too large to be stored. A rule of numbers makes their lists, the writer writes them, the reader reads them
// back, and then with another version in their bytes.
ghost use Rattle.std.specs.Prelude.{◌≤◌};

use crate::put_refusal;
use image::read::{ImageRead, read_image};
use image::write::write_image;
use lists::drawing::Drawing;
use lists::settings::Settings;
use test_words::put_number;

#[derive(Clone, Copy)]
struct Case {
    triangles: usize,
    leaf_minimum: usize,
    room: usize,
}

fn word(n: usize) -> u32 {
    (n % 4294967296) as u32
}

fn number(n: usize) -> f32 {
    std::num::nearest_u32_to_f32(word(n))
}

// The number at this index of the triangles: triangle k has the corners (k, 1, 2), (3, 4, 5) and (6, 7, 8).
fn coordinate(index: usize) -> f32 {
    if index % 9 == 0 {
        return number(index / 9);
    }
    number(index % 9)
}

// Fills the triangles by the rule, from this index of it on.
fn fill_triangles(triangles: &mut [f32], from: usize)
    requires { from ≤ 1 }
{
    for (i, entry) in triangles.iter_mut().enumerate() {
        *entry = coordinate(i + from);
    }
}

// Fills the order: the highest number first, or `from` more.
fn fill_order(order: &mut [u32], from: usize)
    requires { from ≤ 1 }
{
    let count = order.len();
    for (i, entry) in order.iter_mut().enumerate() {
        *entry = word(count - 1 - i + from);
    }
}

fn are_triangles(triangles: &[f32]) -> bool {
    triangles
        .iter()
        .enumerate()
        .all(|(i, number)| *number == coordinate(i))
}

fn is_order(order: &[u32]) -> bool {
    order
        .iter()
        .rev()
        .enumerate()
        .all(|(i, number)| *number == word(i))
}

// Two leaves, of half the order list each, and the root.
fn links_of(count: usize) -> [u32; 9] {
    let half = word(count / 2);
    [1, 0, half, 1, half, word(count), 2, 0, 1]
}

// The order list begins with the highest number.
fn boxes_of(count: usize) -> [f32; 18] {
    let last = number(count) - 1.0;
    let middle = number(count - count / 2) - 1.0;
    [
        3.0, 1.0, 2.0, last, 7.0, 8.0, 0.0, 1.0, 2.0, middle, 7.0, 8.0, 0.0, 1.0, 2.0, last, 7.0,
        8.0,
    ]
}

fn are_nodes(count: usize, links: [u32; 9], boxes: [f32; 18]) -> bool {
    links == links_of(count) && boxes == boxes_of(count)
}

fn put_read(read: ImageRead, same: bool) {
    io::write_all(1, b"triangles");
    put_number(read.triangles);
    io::write_all(1, b" nodes");
    put_number(read.nodes);
    io::write_all(1, b" settings");
    put_number(read.settings.strategy);
    put_number(read.settings.leaf_minimum);
    put_number(read.settings.maximum_depth);
    if same {
        io::write_all(1, b" the same lists\n");
    } else {
        io::write_all(1, b" other lists\n");
    }
}

// Reads the bytes into the two lists, which hold other numbers first, and prints what is answered and whether the lists are as the rule has them.
fn try_read(bytes: &[u8], triangles: &mut [f32], order: &mut [u32]) {
    fill_triangles(triangles, 1);
    fill_order(order, 1);
    let mut links = [7; 9];
    let mut boxes = [7.0; 18];
    match read_image(bytes, triangles, order, &mut links, &mut boxes) {
        Err(refusal) => put_refusal(refusal),
        Ok(read) => {
            let same = are_triangles(triangles)
                & is_order(order)
                & are_nodes(read.triangles, links, boxes);
            put_read(read, same);
        }
    }
}

// With this version in the bytes.
fn try_version(version: u8, bytes: &mut [u8], triangles: &mut [f32], order: &mut [u32]) {
    if bytes.len() > 6 {
        bytes[6] = version;
        try_read(bytes, triangles, order);
    }
}

fn put_written(bytes: &[u8]) {
    if bytes.len() >= 14 {
        io::write_all(1, b"bytes");
        put_number(bytes.len());
        io::write_all(1, b" version");
        put_number(records::numbers::u16_at(bytes, 6) as usize);
        io::write_all(1, b" leaf");
        put_number(records::numbers::u16_at(bytes, 10) as usize);
        io::write_all(1, b"\n");
    }
}

// With room for one triangle fewer.
fn try_fewer(bytes: &[u8], triangles: &mut [f32], order: &mut [u32]) {
    if let Some((_, fewer)) = order.split_last_mut() {
        try_read(bytes, triangles, fewer);
    }
}

// Reads what was written.
fn try_written(bytes: &mut [u8], triangles: &mut [f32], order: &mut [u32]) {
    put_written(bytes);
    try_read(bytes, triangles, order);
    try_fewer(bytes, triangles, order);
    for version in 0..4 {
        try_version(version, bytes, triangles, order);
    }
}

fn try_lists(case: Case, triangles: &mut [f32], order: &mut [u32], out: &mut [u8]) {
    fill_triangles(triangles, 0);
    fill_order(order, 0);
    let settings = Settings {
        strategy: 2,
        leaf_minimum: case.leaf_minimum,
        maximum_depth: 40,
    };
    let drawing = Drawing {
        triangles,
        order,
        links: &links_of(case.triangles),
        boxes: &boxes_of(case.triangles),
        nodes: 3,
    };
    match write_image(settings, &drawing, out) {
        Err(refusal) => put_refusal(refusal),
        Ok(end) => {
            if end <= out.len() {
                try_written(&mut out[..end], triangles, order);
            }
        }
    }
}

fn try_case(case: Case, triangles: &mut [f32], order: &mut [u32], out: &mut [u8]) {
    let count = case.triangles;
    let room = case.room;
    if count <= order.len() && count <= triangles.len() / 9 && room <= out.len() {
        try_lists(
            case,
            &mut triangles[..9 * count],
            &mut order[..count],
            &mut out[..room],
        );
    }
}

// Triangles, leaf minimum and room: leaf minima about each limit, and room that just does and just does not, at the last count of
// version 1, at the first and the last of version 2, and at one more.
const CASES: [(usize, usize, usize); 15] = [
    (4096, 1, 155770),
    (4096, 4096, 155770),
    (4096, 4097, 155770),
    (4096, 65536, 155770),
    (4096, 1, 155769),
    (4097, 1, 164014),
    (4097, 4097, 164014),
    (4097, 65535, 164014),
    (4097, 65536, 164014),
    (4097, 65537, 164014),
    (4097, 0, 164014),
    (4097, 1, 164013),
    (65536, 65536, 2621574),
    (65536, 1, 2621573),
    (65537, 1, 2621574),
];

fn try_cases(triangles: &mut [f32], order: &mut [u32], out: &mut [u8]) {
    for (count, leaf_minimum, room) in CASES {
        let case = Case {
            triangles: count,
            leaf_minimum,
            room,
        };
        try_case(case, triangles, order, out);
    }
}

pub(crate) fn put_all() {
    let mut triangles = [0.0; 589833];
    let mut order = [0; 65537];
    let mut out = [0; 2621574];
    try_cases(&mut triangles, &mut order, &mut out);
}
