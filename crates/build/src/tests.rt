// The tests of a build in turn: the triangles, the settings, the room in the six lent lists.
ghost use Rattle.std.specs.Prelude.{◌≡◌, ◌≤◌};
ghost use Rattle.lists.specs.Values as Lists;
ghost use Rattle.spec_lists.specs.Limits.{max_triangles};
ghost use Rattle.spec_lists.specs.Refusals.{first_refusal};
ghost use Rattle.spec_build.specs.Build.{room_tests, build_refusal};

use lists::refusal::{Refusal, room_refusal};
use lists::settings::{Settings, settings_refusal};
use lists::tests::{triangle_count, triangles_refusal};

// Kept: (d) the six lists flat, as in calls.rt: a struct of them, `Lent { order, links, .. }`, would be made for this one call.

// 6: a list is shorter than it needs to be for `count` triangles.
fn lists_refusal(
    count: usize,
    order: &[u32],
    links: &[u32],
    boxes: &[f32],
    bounds: &[f32],
    centres: &[f32],
    scratch: &[u32],
) -> Result<(), Refusal>
    requires { (1 ≤ count) × (count ≤ max_triangles) }
    ensures { Lists.as_verdict result ≡ first_refusal (room_tests count (record {
      order = order.now;
      links = links.now;
      boxes = boxes.now;
      bounds = bounds.now;
      centres = centres.now;
      scratch = scratch.now;
    })) }
{
    let max_nodes = 2 * count - 1;
    room_refusal(order.len(), count)?;
    room_refusal(links.len(), 3 * max_nodes)?;
    room_refusal(boxes.len(), 6 * max_nodes)?;
    room_refusal(bounds.len(), 6 * count)?;
    room_refusal(centres.len(), 3 * count)?;
    room_refusal(scratch.len(), count)
}

// Tests 1 to 6.
pub fn build_refusal(
    triangles: &[f32],
    settings: Settings,
    order: &[u32],
    links: &[u32],
    boxes: &[f32],
    bounds: &[f32],
    centres: &[f32],
    scratch: &[u32],
) -> Result<(), Refusal>
    ensures { Lists.as_verdict result ≡ build_refusal triangles.now (Lists.as_settings settings) (record {
      order = order.now;
      links = links.now;
      boxes = boxes.now;
      bounds = bounds.now;
      centres = centres.now;
      scratch = scratch.now;
    }) }
{
    triangles_refusal(triangles)?;
    settings_refusal(settings)?;
    lists_refusal(
        triangle_count(triangles),
        order,
        links,
        boxes,
        bounds,
        centres,
        scratch,
    )
}
