// Reads an image whose layout is right: its settings, its triangles, its tree.
// Kept: (d) four lists beside each other. As one, `lists.read(version, bytes, count, nodes)`, the contracts name the same four, before and after.
ghost use Rattle.std.specs.Prelude.{◌≡◌, ◌+◌, ◌*◌, ◌≤◌, ◌<◌, ◌^◌, length};
ghost use Rattle.spec_tables.specs.Tables.{overwrite, concat_map};
ghost use Rattle.spec_records.specs.Layouts.{node_size, image_size};
ghost use Rattle.records.specs.Values.{shape_of};
ghost use Rattle.spec_image.specs.Image.{leaf_in, settings_in, links_in, sides_in, image_in};
ghost use Rattle.lists.specs.Values.{as_settings};
ghost use Rattle.image.specs.Values.{NodesFit, ListsRead};

use crate::size::nodes_size;
use lists::settings::Settings;
use records::entries::{read_entries, read_f32s, read_numbers};
use records::numbers::u16_at;
use records::versions::Version;

// The leaf minimum that the stored one stands for.
#[tactic(auto, unfolding(spec_image::specs::Image::leaf_in))]
fn leaf_of(version: Version, stored: usize) -> usize
    ensures { result ≡ leaf_in (shape_of version) stored }
{
    match (version, stored) {
        (Version::Two, 0) => 65536,
        _ => stored,
    }
}

// The settings in record 1, which stands at the front.
pub fn settings_of(bytes: &[u8], version: Version) -> Settings
    requires { 14 ≤ length bytes.now }
    ensures { as_settings result ≡ settings_in (shape_of version) bytes.now }
{
    Settings {
        strategy: u16_at(bytes, 8) as usize,
        leaf_minimum: leaf_of(version, u16_at(bytes, 10) as usize),
        maximum_depth: u16_at(bytes, 12) as usize,
    }
}

// Where the box of a node stands that begins at byte `at`: behind its kind, left and right.
fn bounds_at(version: Version, at: usize) -> usize
    requires { at + 10 < 2 ^ 64 }
    ensures { result ≡ at + (2 + 2 * (shape_of version).entry) }
{
    match version {
        Version::One => at + 6,
        Version::Two => at + 10,
    }
}

// Leaves the links and the box of one node in their lists. The nodes stand from byte `start` on.
fn read_node(
    version: Version,
    bytes: &[u8],
    start: usize,
    node: usize,
    links: &mut [u32],
    boxes: &mut [f32],
)
    requires node_in_bytes { start + node_size (shape_of version) * node + node_size (shape_of version) ≤ length bytes.now }
    requires node_in_bounds { (3 * node + 3 ≤ length links.old) × (6 * node + 6 ≤ length boxes.old) }
    ensures links_after { links.new ≡ overwrite (3 * node) (links_in (shape_of version) bytes.now start node) links.old }
    ensures boxes_after { boxes.new ≡ overwrite (6 * node) (sides_in (shape_of version) bytes.now start node) boxes.old }
{
    let at = start + nodes_size(version, node);
    read_numbers::<2>(bytes, at, 1, links, 3 * node);
    read_entries(version, bytes, at + 2, 2, links, 3 * node + 1);
    read_f32s(bytes, bounds_at(version, at), 6, boxes, 6 * node);
}

// Leaves the links and boxes of all nodes at the front of their lists.
fn read_nodes(
    version: Version,
    bytes: &[u8],
    start: usize,
    nodes: usize,
    links: &mut [u32],
    boxes: &mut [f32],
)
    requires nodes_in_bounds { start + node_size (shape_of version) * nodes ≤ length bytes.now }
    requires room_for_nodes { NodesFit nodes links.old boxes.old }
    ensures links_after { links.new ≡ overwrite 0 (concat_map (links_in (shape_of version) bytes.now start) nodes) links.old }
    ensures boxes_after { boxes.new ≡ overwrite 0 (concat_map (sides_in (shape_of version) bytes.now start) nodes) boxes.old }
{
    for node in 0..nodes {
        read_node(version, bytes, start, node, links, boxes);
    }
}

// Leaves the triangles, the order and the nodes of an image of `count` triangles and `nodes` nodes at the front of the lists.
pub fn read_lists(
    version: Version,
    bytes: &[u8],
    count: usize,
    nodes: usize,
    triangles: &mut [f32],
    order: &mut [u32],
    links: &mut [u32],
    boxes: &mut [f32],
)
    requires nodes_in_bounds { image_size (shape_of version) count nodes ≤ length bytes.now }
    requires count_in_bounds { (9 * count ≤ length triangles.old) × (count ≤ length order.old) }
    requires room_for_nodes { NodesFit nodes links.old boxes.old }
    ensures { ListsRead (image_in (shape_of version) bytes.now count nodes) triangles.old order.old links.old
        boxes.old triangles.new order.new links.new boxes.new }
{
    let third = 20 + 36 * count + 6;
    let fourth = third + version.order_size(count) + 6;
    read_f32s(bytes, 20, 9 * count, triangles, 0);
    read_entries(version, bytes, third, count, order, 0);
    read_nodes(version, bytes, fourth, nodes, links, boxes);
}
