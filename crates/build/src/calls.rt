// The build: a triangle list and settings become a tree in the lent lists, or a refusal that changes nothing.
ghost use Rattle.std.specs.Prelude.{◌≡◌};
ghost use Rattle.std.specs.Float.{binary32};
ghost use Rattle.lists.specs.Values as Lists;
ghost use Rattle.spec_lists.specs.Reading.{box_at};
ghost use Rattle.spec_lists.specs.Refusals.{passes};
ghost use Rattle.spec_build.specs.Build.{built_tree, build_refusal, made, BuildIs, TreeNeeds, TreeLeft};
ghost use Rattle.build.specs.Values as Values;

use crate::tests::build_refusal;
use grow::grow::grow;
use grow::tables::{put_bounds, put_centres, put_order};
use grow::tries::Cutter;
use lists::refusal::Refusal;
use lists::settings::Settings;
use lists::tests::triangle_count;

// A tree that was built: its node count and its depth.
#[derive(Clone, Copy)]
pub struct Built {
    pub nodes: usize,
    pub depth: usize,
}

// Kept: (c) the six lists flat, here and below: of a struct of `&mut` slices a caller learns nothing of what stands behind it.

// Grows the tree of triangles and settings that passed. What the working lists hold afterwards is not said.
fn grow_tree(
    triangles: &[f32],
    settings: Settings,
    order: &mut [u32],
    links: &mut [u32],
    boxes: &mut [f32],
    bounds: &mut [f32],
    centres: &mut [f32],
    scratch: &mut [u32],
) -> Built
    requires { TreeNeeds triangles.now (Lists.as_settings settings) (record {
      order = order.old;
      links = links.old;
      boxes = boxes.old;
      bounds = bounds.old;
      centres = centres.old;
      scratch = scratch.old;
    }) }
    ensures { TreeLeft (box_at triangles.now) (built_tree binary32 triangles.now (Lists.as_settings settings))
        order.old links.old boxes.old (made result.nodes result.depth) order.new links.new boxes.new }
{
    let count = triangle_count(triangles);
    put_bounds(triangles, count, bounds);
    put_centres(bounds, count, centres);
    put_order(count, order);
    let cutter = Cutter {
        bounds,
        centres,
        strategy: settings.strategy,
        leaf_minimum: settings.leaf_minimum,
    };
    let grown = grow(
        &cutter,
        settings.maximum_depth.saturating_sub(1),
        &mut order[..count],
        scratch,
        0,
        links,
        boxes,
        0,
    );
    Built {
        nodes: grown.root + 1,
        depth: grown.levels,
    }
}

// Builds the tree of triangles and settings that passed, with the working lists' fronts for its tables, and clears them.
fn build_passed(
    triangles: &[f32],
    settings: Settings,
    order: &mut [u32],
    links: &mut [u32],
    boxes: &mut [f32],
    bounds: &mut [f32],
    centres: &mut [f32],
    scratch: &mut [u32],
) -> Built
    requires { build_refusal triangles.now (Lists.as_settings settings) (record {
      order = order.old;
      links = links.old;
      boxes = boxes.old;
      bounds = bounds.old;
      centres = centres.old;
      scratch = scratch.old;
    }) ≡ passes }
    ensures { BuildIs binary32 triangles.now (Lists.as_settings settings) (record {
      order = order.old;
      links = links.old;
      boxes = boxes.old;
      bounds = bounds.old;
      centres = centres.old;
      scratch = scratch.old;
    }) (made result.nodes result.depth) (record {
      order = order.new;
      links = links.new;
      boxes = boxes.new;
      bounds = bounds.new;
      centres = centres.new;
      scratch = scratch.new;
    }) }
{
    let count = triangle_count(triangles);
    let bounds = &mut bounds[..6 * count];
    let centres = &mut centres[..3 * count];
    let scratch = &mut scratch[..count];
    let built = grow_tree(
        triangles, settings, order, links, boxes, bounds, centres, scratch,
    );
    bounds.fill(0.0);
    centres.fill(0.0);
    scratch.fill(0);
    built
}

// Builds the tree and answers its node count and its depth, or the first of the tests 1 to 6 that refuses.
// The order, links and boxes of the tree stand at the front of the lists. Bounds, centres and scratch hold zeros where they were used.
// A refusal changes nothing.
pub fn build(
    triangles: &[f32],
    settings: Settings,
    order: &mut [u32],
    links: &mut [u32],
    boxes: &mut [f32],
    bounds: &mut [f32],
    centres: &mut [f32],
    scratch: &mut [u32],
) -> Result<Built, Refusal>
    ensures { BuildIs binary32 triangles.now (Lists.as_settings settings) (record {
      order = order.old;
      links = links.old;
      boxes = boxes.old;
      bounds = bounds.old;
      centres = centres.old;
      scratch = scratch.old;
    }) (Values.as_built result) (record {
      order = order.new;
      links = links.new;
      boxes = boxes.new;
      bounds = bounds.new;
      centres = centres.new;
      scratch = scratch.new;
    }) }
{
    build_refusal(
        triangles, settings, order, links, boxes, bounds, centres, scratch,
    )?;
    Ok(build_passed(
        triangles, settings, order, links, boxes, bounds, centres, scratch,
    ))
}
