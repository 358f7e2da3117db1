// Prints every leaf of stored trees. The trees are the Rust's, and so are the leaves in the file `stdout` beside src/:
// tests/oracle/leaves.rs made both, with the Rust's own `traverse`.
#![tactic(auto)]

ghost use Rattle.spec_tree.specs.Leaves as Leaves;

use leaves::calls::{LeafNode, leaf_entry, leaf_from, leaves};
use lists::drawing::Drawing;
use shapes::vec3::Vec3;
use test_words::cursor::Cursor;
use test_words::{more, pattern_at, put_number, put_refusal, put_word, read_next};

fn put_point(p: Vec3) {
    put_word(p.x);
    put_word(p.y);
    put_word(p.z);
}

fn put_entry(drawing: &Drawing, k: usize, i: usize) {
    match leaf_entry(drawing, k, i) {
        Ok(Some(triangle)) => put_number(triangle as usize),
        Ok(None) => {
            io::write_all(1, b" nothing");
        }
        Err(_) => {
            io::write_all(1, b" refused");
        }
    }
}

// Prints the k-th leaf with its box and its triangles, and that there is nothing behind them.
fn put_leaf(drawing: &Drawing, k: usize, leaf: LeafNode) {
    io::write_all(1, b"leaf");
    put_number(k);
    put_number(leaf.first);
    put_number(leaf.last);
    put_point(leaf.over.min);
    put_point(leaf.over.max);
    let count = leaf.last.saturating_sub(leaf.first);
    for i in 0..count {
        put_entry(drawing, k, i);
    }
    put_entry(drawing, k, count);
    io::write_all(1, b"\n");
}

// Prints each leaf, sought behind the one before it.
fn put_leaves(drawing: &Drawing, count: usize)
    requires { Leaves.NodesThere drawing.now.links.now drawing.now.boxes.now drawing.now.nodes }
{
    let mut from = 0;
    for k in 0..count {
        if let Some(leaf) = leaf_from(drawing.links, drawing.boxes, drawing.nodes, from, 0) {
            put_leaf(drawing, k, leaf);
            from = more(leaf.node, 1);
        }
    }
}

fn put_tree(drawing: &Drawing) {
    match leaves(drawing) {
        Ok(count) => {
            io::write_all(1, b"leaves");
            put_number(count);
            io::write_all(1, b"\n");
            put_leaves(drawing, count);
        }
        Err(refusal) => {
            put_refusal(refusal);
            io::write_all(1, b"\n");
        }
    }
}

// Prints the leaves of a case of so many triangles and nodes, of which there is room for 24 and 47.
fn replay(bytes: &[u8], count: usize, nodes: usize) {
    let mut case = Cursor { bytes, at: 0 };
    let mut room = [0.0f32; 216];
    let triangles = case.fill(9 * (count % 25), &mut room);
    let mut order = [0u32; 24];
    let mut links = [0u32; 141];
    let mut boxes = [0.0f32; 282];
    let lists = case.drawing(triangles, nodes % 48, &mut order, &mut links, &mut boxes);
    put_tree(&Drawing { nodes, ..lists });
}

// Replays the next case, if there is one that fits: its counts of triangles and nodes, then its lists.
fn replay_next() {
    let mut head = [0u8; 8];
    if read_next(8, &mut head).is_none() {
        return;
    }
    let count = pattern_at(&head, 0) as usize;
    let nodes = pattern_at(&head, 4) as usize;
    let mut all = [0u8; 2700];
    if let Some(body) = read_next(40 * (count % 25) + 36 * (nodes % 48), &mut all) {
        replay(body, count, nodes);
    }
}

fn main() {
    for _ in 0..100 {
        replay_next();
    }
}
