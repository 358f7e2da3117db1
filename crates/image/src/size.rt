// How many bytes an image has, and whether the lent bytes have room for it.
ghost use Rattle.std.specs.Prelude.{◌≡◌, ◌+◌, ◌*◌, ◌≤◌, ◌<◌, ◌^◌, ltb};
ghost use Rattle.spec_records.specs.Layouts.{version_for, node_size, image_size};
ghost use Rattle.spec_lists.specs.Limits.{max_triangles};
ghost use Rattle.spec_lists.specs.Refusals as Refusals;
ghost use Rattle.lists.specs.Values.{as_verdict};
ghost use Rattle.records.specs.Values.{shape_of};

use lists::refusal::{Refusal, refused_if};
use records::versions::Version;

// How many bytes so many nodes take.
pub fn nodes_size(version: Version, nodes: usize) -> usize
    requires { 34 * nodes < 2 ^ 64 }
    ensures { result ≡ node_size (shape_of version) * nodes }
{
    version.node_size() * nodes
}

// How many bytes the image of that many triangles and nodes has.
pub fn image_size(triangles: usize, nodes: usize) -> usize
    requires { 32 + 40 * triangles + 34 * nodes < 2 ^ 64 }
    ensures { result ≡ image_size (version_for triangles) triangles nodes }
{
    let version = Version::of(triangles);
    32 + 36 * triangles + version.order_size(triangles) + nodes_size(version, nodes)
}

// Whether `given` bytes are too few. The node count may be any number, so it is compared with the room before it is multiplied.
fn is_short(given: usize, triangles: usize, nodes: usize) -> bool
    requires { (given < 2 ^ 63) × (triangles ≤ max_triangles) }
    ensures { result ≡ ltb given (image_size (version_for triangles) triangles nodes) }
{
    nodes > given / 30 || given < image_size(triangles, nodes)
}

// 6: `given` bytes are fewer than the image has.
pub fn image_room_refusal(given: usize, triangles: usize, nodes: usize) -> Result<(), Refusal>
    requires { (given < 2 ^ 63) × (triangles ≤ max_triangles) }
    ensures { as_verdict result ≡ Refusals.room_refusal given (image_size (version_for triangles) triangles nodes) }
{
    refused_if(is_short(given, triangles, nodes), Refusal::NoRoom)
}
