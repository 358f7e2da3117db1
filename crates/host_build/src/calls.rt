// The build of a C host: the tree in the lent lists, or a refusal that changes nothing.
// Kept: (a) the flat settings and lists of `build_lists`, which are those of the export `gauge_build`: the C interface.
ghost use Rattle.std.specs.Prelude.{◌≡◌};
ghost use Rattle.build.specs.Values.{as_built};
ghost use Rattle.spec_host.specs.Build.{BuildPut, built_status, BuiltPlaced};

use build::calls::{Built, build};
use host_bytes::status::encode;
use lists::refusal::Refusal;
use lists::settings::Settings;

// The status of a build: the number of nodes, or its refusal.
fn encode_built(built: Result<Built, Refusal>) -> u64
    requires { BuiltPlaced (as_built built) }
    ensures { result ≡ built_status (as_built built) }
{
    encode(built.map(|tree| tree.nodes))
}

// Builds the tree over the triangles in the lent lists: tests 1 to 6. The status is the number of nodes.
pub fn build_lists(
    strategy: usize,
    leaf_minimum: usize,
    maximum_depth: usize,
    triangles: &[f32],
    order: &mut [u32],
    links: &mut [u32],
    boxes: &mut [f32],
    bounds: &mut [f32],
    centres: &mut [f32],
    scratch: &mut [u32],
) -> u64
    ensures { BuildPut triangles.now (record { strategy = strategy; leaf_minimum = leaf_minimum; maximum_depth = maximum_depth })
        (record {
          order = order.entry.now;
          links = links.old;
          boxes = boxes.old;
          bounds = bounds.old;
          centres = centres.old;
          scratch = scratch.old;
        }) result (record {
          order = order.exit.now;
          links = links.new;
          boxes = boxes.new;
          bounds = bounds.new;
          centres = centres.new;
          scratch = scratch.new;
        }) }
{
    let settings = Settings {
        strategy,
        leaf_minimum,
        maximum_depth,
    };
    let built = build(
        triangles, settings, order, links, boxes, bounds, centres, scratch,
    );
    encode_built(built)
}
