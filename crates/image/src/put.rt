// Writes the records of an image, one behind the other. What writes answers the index behind what it wrote.
// Kept: (d) the bytes and the index beside them, which `records` takes. As one, `next.put_u16(kind)`, the contracts say of its parts what they say now.
ghost use Rattle.std.specs.Prelude.{◌≡◌, ◌+◌, ◌*◌, ◌≤◌, length};
ghost use Rattle.std.specs.Float.{binary32};
ghost use Rattle.spec_tables.specs.Tables.{concat_map, Put};
ghost use Rattle.spec_records.specs.Entries.{number_bytes, float_bytes};
ghost use Rattle.spec_records.specs.Records.{header, record_of};
ghost use Rattle.spec_records.specs.Layouts.{node_size, image_size};
ghost use Rattle.records.specs.Values.{shape_of};
ghost use Rattle.spec_image.specs.Image.{settings_bytes, node_bytes, image_bytes};
ghost use Rattle.spec_image.specs.Stored.{Complete};
ghost use Rattle.lists.specs.Values.{as_settings};
ghost use Rattle.image.specs.Values.{image_of, NodesFit};

use crate::size::nodes_size;
use lists::drawing::Drawing;
use lists::settings::Settings;
use records::entries::{put_entries, put_f32s, put_numbers};
use records::numbers::{put_u16, put_u32};
use records::versions::Version;

// Writes the header of a record: the size of its body, and its kind.
fn put_header(out: &mut [u8], at: usize, size: usize, kind: usize) -> usize
    requires { at + 6 ≤ length out.old }
    ensures put { Put at (header size kind) out.old out.new result }
    ensures value { result ≡ at + 6 }
{
    let next = put_u32(out, at, size);
    put_u16(out, next, kind)
}

// Writes record 1, the settings, to the front.
fn put_settings(version: Version, settings: Settings, out: &mut [u8]) -> usize
    requires { 14 ≤ length out.old }
    ensures put { Put 0 (record_of 1 (settings_bytes (shape_of version) (as_settings settings))) out.old out.new result }
    ensures value { result ≡ 14 }
{
    let body = put_header(out, 0, 8, 1);
    let a = put_u16(out, body, version.number() as usize);
    let b = put_u16(out, a, settings.strategy);
    let c = put_u16(out, b, settings.leaf_minimum);
    put_u16(out, c, settings.maximum_depth)
}

// Writes record 2, the triangles.
fn put_triangles(triangles: &[f32], out: &mut [u8], at: usize) -> usize
    requires { at + 6 + 4 * length triangles.now ≤ length out.old }
    ensures put { Put at (record_of 2 (float_bytes binary32 triangles.now 0 (length triangles.now))) out.old
        out.new result }
    ensures value { result ≡ at + 6 + 4 * length triangles.now }
{
    let body = put_header(out, at, 4 * triangles.len(), 2);
    put_f32s(triangles, 0, triangles.len(), out, body)
}

// Writes record 3, the order.
fn put_order(version: Version, order: &[u32], out: &mut [u8], at: usize) -> usize
    requires { at + 6 + (shape_of version).entry * length order.now ≤ length out.old }
    ensures put { Put at (record_of 3 (number_bytes (shape_of version).entry order.now 0 (length order.now))) out.old
        out.new result }
    ensures value { result ≡ at + 6 + (shape_of version).entry * length order.now }
{
    let body = put_header(out, at, version.order_size(order.len()), 3);
    put_entries(version, order, 0, order.len(), out, body)
}

// Writes the kind, left and right of a node, and its box.
fn put_node(version: Version, drawing: &Drawing, node: usize, out: &mut [u8], at: usize) -> usize
    requires node_in_bounds { (3 * node + 3 ≤ length drawing.now.links.now) × (6 * node + 6 ≤ length drawing.now.boxes.now) }
    requires room_for_node { at + node_size (shape_of version) ≤ length out.old }
    ensures put { Put at (node_bytes (shape_of version) drawing.now.links.now drawing.now.boxes.now node) out.old out.new result }
    ensures value { result ≡ at + node_size (shape_of version) }
{
    let sides = put_numbers::<2>(drawing.links, 3 * node, 1, out, at);
    let bounds = put_entries(version, drawing.links, 3 * node + 1, 2, out, sides);
    put_f32s(drawing.boxes, 6 * node, 6, out, bounds)
}

// Writes all nodes.
fn put_nodes(version: Version, drawing: &Drawing, out: &mut [u8], at: usize) -> usize
    requires nodes_in_bounds { NodesFit drawing.now.nodes drawing.now.links.now drawing.now.boxes.now }
    requires room_for_nodes { at + node_size (shape_of version) * drawing.now.nodes ≤ length out.old }
    ensures put { Put at (concat_map (node_bytes (shape_of version) drawing.now.links.now drawing.now.boxes.now) drawing.now.nodes)
        out.old out.new result }
    ensures value { result ≡ at + node_size (shape_of version) * drawing.now.nodes }
{
    let mut next = at;
    for node in 0..drawing.nodes {
        next = put_node(version, drawing, node, out, next);
    }
    next
}

// Writes record 4, the nodes.
fn put_tree(version: Version, drawing: &Drawing, out: &mut [u8], at: usize) -> usize
    requires nodes_in_bounds { NodesFit drawing.now.nodes drawing.now.links.now drawing.now.boxes.now }
    requires room_for_nodes { at + 6 + node_size (shape_of version) * drawing.now.nodes ≤ length out.old }
    ensures put { Put at (record_of 4 (concat_map (node_bytes (shape_of version) drawing.now.links.now drawing.now.boxes.now)
        drawing.now.nodes)) out.old out.new result }
    ensures value { result ≡ at + 6 + node_size (shape_of version) * drawing.now.nodes }
{
    let body = put_header(out, at, nodes_size(version, drawing.nodes), 4);
    put_nodes(version, drawing, out, body)
}

// Writes the image of a tree that passed the tests to the front of `out` and answers how many bytes it has. The bytes behind them stay as they were.
pub fn put_image(version: Version, settings: Settings, drawing: &Drawing, out: &mut [u8]) -> usize
    requires complete { Complete (image_of settings drawing.now.triangles.now drawing.now.order.now drawing.now.links.now
        drawing.now.boxes.now drawing.now.nodes) }
    requires nodes_in_bounds { image_size (shape_of version) (length drawing.now.order.now) drawing.now.nodes ≤ length out.old }
    ensures put { Put 0 (image_bytes (shape_of version) (image_of settings drawing.now.triangles.now drawing.now.order.now
        drawing.now.links.now drawing.now.boxes.now drawing.now.nodes)) out.old out.new result }
    ensures value { result ≡ image_size (shape_of version) (length drawing.now.order.now) drawing.now.nodes }
{
    let second = put_settings(version, settings, out);
    let third = put_triangles(drawing.triangles, out, second);
    let fourth = put_order(version, drawing.order, out, third);
    put_tree(version, drawing, out, fourth)
}
