// Prints what the tree check says, number and place, of a tree over two triangles, of the same lists with something changed, and of trees of 64
// and 65 levels. The file `stdout` beside src/ was written by hand, from the rules of 71 to 75.
#![tactic(auto)]

ghost use Rattle.std.specs.Prelude.{◌<◌, ◌≤◌};

use lists::drawing::Drawing;
use test_words::put_number;
use tree::calls::check;

// T0 and T1 of the printed run.
const TRIANGLES: [f32; 18] = [
    0.0, 0.0, 0.0, 1.0, 0.0, 0.0, 0.0, 1.0, 0.0, 10.0, 0.0, 0.0, 11.0, 0.0, 0.0, 10.0, 1.0, 0.0,
];

// Their tree: each in a leaf, and the branch over both.
const ORDER: [u32; 2] = [0, 1];

const LINKS: [u32; 9] = [1, 0, 1, 1, 1, 2, 2, 0, 1];

const BOXES: [f32; 18] = [
    0.0, 0.0, 0.0, 1.0, 1.0, 0.0, 10.0, 0.0, 0.0, 11.0, 1.0, 0.0, 0.0, 0.0, 0.0, 11.0, 1.0, 0.0,
];

// What the check says of a drawing.
fn put_checked(drawing: &Drawing) {
    io::write_all(1, b":");
    match check(drawing) {
        Ok(()) => {
            io::write_all(1, b" passed");
        }
        Err(refusal) => {
            put_number(refusal.number());
            put_number(refusal.place());
        }
    }
    io::write_all(1, b"\n");
}

// And of lists over T0 and T1.
fn put_lists(order: &[u32], links: &[u32], boxes: &[f32], nodes: usize) {
    put_checked(&Drawing {
        triangles: &TRIANGLES,
        order,
        links,
        boxes,
        nodes,
    });
}

fn put_order(name: &[u8], order: &[u32]) {
    io::write_all(1, name);
    put_lists(order, &LINKS, &BOXES, 3);
}

// So many nodes, with so many entries of links and so many numbers of boxes.
fn put_counts(nodes: usize, entries: usize, sides: usize)
    requires { (entries ≤ 9) × (sides ≤ 18) }
{
    let links = LINKS;
    let boxes = BOXES;
    io::print_decimal(1, nodes as u64);
    put_lists(&ORDER, &links[0..entries], &boxes[0..sides], nodes);
}

fn put_link(i: usize, value: u32)
    requires { i < 9 }
{
    let mut links = LINKS;
    links[i] = value;
    io::print_decimal(1, i as u64);
    put_lists(&ORDER, &links, &BOXES, 3);
}

fn put_each_link(value: u32) {
    for i in 0..9 {
        put_link(i, value);
    }
}

fn put_box(i: usize, value: f32)
    requires { i < 18 }
{
    let mut boxes = BOXES;
    boxes[i] = value;
    io::print_decimal(1, i as u64);
    put_lists(&ORDER, &LINKS, &boxes, 3);
}

fn put_each_box() {
    for i in 0..18 {
        put_box(i, -0.0);
    }
}

// A box is wrong; and a leaf's kind; and the node count; and the order.
fn put_several() {
    let mut links = LINKS;
    let mut boxes = BOXES;
    boxes[6] = 9.0;
    io::write_all(1, b"box");
    put_lists(&ORDER, &links, &boxes, 3);
    links[3] = 2;
    io::write_all(1, b"box, kind");
    put_lists(&ORDER, &links, &boxes, 3);
    io::write_all(1, b"box, kind, count");
    put_lists(&ORDER, &links, &boxes, 4);
    io::write_all(1, b"box, kind, count, order");
    put_lists(&[1, 1], &links, &boxes, 4);
}

// 0, 1 and so on.
fn numbers() -> [u32; 65] {
    let mut order = [0u32; 65];
    for (t, entry) in order.iter_mut().enumerate() {
        *entry = t as u32;
    }
    order
}

fn put_node(links: &mut [u32; 387], node: usize, kind: u32, left: u32, right: u32)
    requires { node < 129 }
{
    let at = 3 * node;
    links[at] = kind;
    links[at + 1] = left;
    links[at + 2] = right;
}

// A comb: each branch has all that stands before it at its left and a leaf of one triangle at its right, so n triangles make n levels. The
// leaf at the bottom is listed first.
fn comb() -> [u32; 387] {
    let mut links = [0u32; 387];
    put_node(&mut links, 0, 1, 0, 1);
    for t in 1..65u32 {
        let branch = 2 * t;
        put_node(&mut links, branch as usize - 1, 1, t, t + 1);
        put_node(&mut links, branch as usize, 2, branch - 2, branch - 1);
    }
    links
}

// The other comb, of 65 levels: all leaves are listed first, each a level further down than the one before it, and then the branches upward.
fn other_comb() -> [u32; 387] {
    let mut links = [0u32; 387];
    put_node(&mut links, 0, 1, 0, 1);
    for t in 1..65u32 {
        put_node(&mut links, t as usize, 1, t, t + 1);
        put_node(&mut links, t as usize + 64, 2, 64 - t, 63 + t);
    }
    links
}

// What the check says of a comb of n levels. All triangles are the origin, and so are all boxes.
fn put_comb(links: &[u32], n: usize)
    requires { (0 < n) × (n ≤ 65) }
{
    let triangles = [0.0f32; 585];
    let order = numbers();
    let boxes = [0.0f32; 774];
    let coordinates = 9 * n;
    let nodes = 2 * n - 1;
    put_checked(&Drawing {
        triangles: &triangles[0..coordinates],
        order: &order[0..n],
        links,
        boxes: &boxes,
        nodes,
    });
}

fn main() {
    put_order(b"the tree", &[0, 1]);
    put_order(b"order 1 0", &[1, 0]);
    put_order(b"order 0 0", &[0, 0]);
    put_order(b"order 0 2", &[0, 2]);
    put_order(b"order 2 0", &[2, 0]);
    put_order(b"order 0", &[0]);
    put_order(b"order", &[]);
    put_order(b"order 0 1 0", &[0, 1, 0]);
    io::write_all(1, b"so many nodes, 0 to 4\n");
    for nodes in 0..5 {
        put_counts(nodes, 9, 18);
    }
    io::write_all(1, b"links with one entry too few\n");
    put_counts(3, 8, 18);
    io::write_all(1, b"boxes with one number too few\n");
    put_counts(3, 9, 17);
    for value in 0..4u32 {
        io::write_all(1, b"each link as ");
        io::print_decimal(1, value as u64);
        io::write_all(1, b"\n");
        put_each_link(value);
    }
    io::write_all(1, b"each box number as minus zero\n");
    put_each_box();
    put_several();
    let leaves_right = comb();
    io::write_all(1, b"64 levels, leaves at the right");
    put_comb(&leaves_right, 64);
    io::write_all(1, b"65 levels, leaves at the right");
    put_comb(&leaves_right, 65);
    let leaves_left = other_comb();
    io::write_all(1, b"65 levels, leaves at the left");
    put_comb(&leaves_left, 65);
}
