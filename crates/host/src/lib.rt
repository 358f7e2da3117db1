// What a C host links (include/gauge.h). Each function is the proved one behind it, under its C name. A call that refuses changes nothing that is lent.
// Kept: (a) the lists of a drawing as parameters one by one, here and in the crates behind: this is the C interface.
#![tactic(auto)]

ghost use Rattle.std.specs.Prelude.{◌≡◌};
ghost use Rattle.spec_lists.specs.Reading.{triangle_count};
ghost use Rattle.spec_tree.specs.Refusals.{check_refusal};
ghost use Rattle.spec_search.specs.Answers.{sure, few, source};
ghost use Rattle.image.specs.Values.{image_from};
ghost use Rattle.spec_host.specs.Status.{status};
ghost use Rattle.spec_host.specs.Build.{BuildPut};
ghost use Rattle.spec_host.specs.Images.{image_max, layout_refusal, image_triangles, WritePut, ReadPut};
ghost use Rattle.spec_host.specs.Stls.{ReadStlPut, WriteStlPut};
ghost use Rattle.spec_host.specs.Requests.{QueryIs, WindingIs, SumsIs, FastIs};

use host_ask::calls::{
    check_lists, fast_points, few_points, source_points, sums_lists, sure_points, winding_points,
};
use host_build::calls::build_lists;
use host_image::calls::{image_max, image_triangles, read_lists, write_lists};
use host_stl::calls::{read_triangles, write_triangles};

// The maximum size of an image of that many triangles, or 0 where no such list passes.
#[unsafe(no_mangle)]
pub extern "C" fn gauge_image_max(triangles: usize) -> u64
    ensures { result ≡ image_max triangles }
{
    image_max(triangles)
}

// How many triangles an image has. The status is their number.
#[unsafe(no_mangle)]
pub extern "C" fn gauge_image_triangles(image: &[u8]) -> u64
    ensures { result ≡ status (layout_refusal image.now) (image_triangles image.now) }
{
    image_triangles(image)
}

// Reads an image into the lists of a drawing. The status is the number of nodes.
#[unsafe(no_mangle)]
pub extern "C" fn gauge_read(
    image: &[u8],
    settings: &mut [u32],
    triangles: &mut [f32],
    order: &mut [u32],
    links: &mut [u32],
    boxes: &mut [f32],
) -> u64
    ensures { ReadPut image.now (record {
      settings = settings.old;
      triangles = triangles.old;
      order = order.old;
      links = links.old;
      boxes = boxes.old;
    }) result (record {
      settings = settings.new;
      triangles = triangles.new;
      order = order.new;
      links = links.new;
      boxes = boxes.new;
    }) }
{
    read_lists(image, settings, triangles, order, links, boxes)
}

// Reads an STL into a triangle list. The status is the number of triangles.
#[unsafe(no_mangle)]
pub extern "C" fn gauge_read_stl(stl: &[u8], triangles: &mut [f32]) -> u64
    ensures { ReadStlPut stl.now triangles.old result triangles.new }
{
    read_triangles(stl, triangles)
}

// Writes the STL of a triangle list to the front of `stl`. The status is the number of bytes.
#[unsafe(no_mangle)]
pub extern "C" fn gauge_write_stl(triangles: &[f32], stl: &mut [u8]) -> u64
    ensures { WriteStlPut triangles.now stl.old result stl.new }
{
    write_triangles(triangles, stl)
}

// Builds the tree over the triangles in the lent lists. The status is the number of nodes.
#[unsafe(no_mangle)]
pub extern "C" fn gauge_build(
    strategy: usize,
    leaf_minimum: usize,
    maximum_depth: usize,
    triangles: &[f32],
    order: &mut [u32],
    links: &mut [u32],
    boxes: &mut [f32],
    bounds: &mut [f32],
    centres: &mut [f32],
    scratch: &mut [u32],
) -> u64
    ensures { BuildPut triangles.now (record { strategy = strategy; leaf_minimum = leaf_minimum; maximum_depth = maximum_depth })
        (record {
          order = order.old;
          links = links.old;
          boxes = boxes.old;
          bounds = bounds.old;
          centres = centres.old;
          scratch = scratch.old;
        }) result (record {
          order = order.new;
          links = links.new;
          boxes = boxes.new;
          bounds = bounds.new;
          centres = centres.new;
          scratch = scratch.new;
        }) }
{
    build_lists(
        strategy,
        leaf_minimum,
        maximum_depth,
        triangles,
        order,
        links,
        boxes,
        bounds,
        centres,
        scratch,
    )
}

// Writes the image of a drawing to the front of `image`. The status is the number of bytes.
#[unsafe(no_mangle)]
pub extern "C" fn gauge_write(
    strategy: usize,
    leaf_minimum: usize,
    maximum_depth: usize,
    triangles: &[f32],
    order: &[u32],
    links: &[u32],
    boxes: &[f32],
    nodes: usize,
    image: &mut [u8],
) -> u64
    ensures { WritePut (image_from strategy leaf_minimum maximum_depth triangles.now order.now links.now
        boxes.now nodes) image.old result image.new }
{
    write_lists(
        strategy,
        leaf_minimum,
        maximum_depth,
        triangles,
        order,
        links,
        boxes,
        nodes,
        image,
    )
}

// Whether the lists can be queried. The status is the number of triangles.
#[unsafe(no_mangle)]
pub extern "C" fn gauge_check(
    triangles: &[f32],
    order: &[u32],
    links: &[u32],
    boxes: &[f32],
    nodes: usize,
) -> u64
    ensures { result
        ≡ status (check_refusal triangles.now order.now links.now boxes.now nodes)
        (triangle_count triangles.now) }
{
    check_lists(triangles, order, links, boxes, nodes)
}

// Writes the sure query's answer at each point. The status is the number of points.
#[unsafe(no_mangle)]
pub extern "C" fn gauge_sure(
    triangles: &[f32],
    order: &[u32],
    links: &[u32],
    boxes: &[f32],
    nodes: usize,
    points: &[u8],
    distance: f32,
    rule: u32,
    answers: &mut [u8],
) -> u64
    ensures { QueryIs (sure rule) triangles.now order.now links.now boxes.now nodes
        points.now distance answers.old result answers.new }
{
    sure_points(
        triangles, order, links, boxes, nodes, points, distance, rule, answers,
    )
}

// Writes the nearest few at each point, so many answers of 1 to 16. The status is the number of points.
#[unsafe(no_mangle)]
pub extern "C" fn gauge_few(
    triangles: &[f32],
    order: &[u32],
    links: &[u32],
    boxes: &[f32],
    nodes: usize,
    points: &[u8],
    distance: f32,
    rule: u32,
    most: u32,
    answers: &mut [u8],
) -> u64
    ensures { QueryIs (few rule most) triangles.now order.now links.now boxes.now nodes
        points.now distance answers.old result answers.new }
{
    few_points(
        triangles, order, links, boxes, nodes, points, distance, rule, most, answers,
    )
}

// Writes the source query's answer at each point. The status is the number of points.
#[unsafe(no_mangle)]
pub extern "C" fn gauge_source(
    triangles: &[f32],
    order: &[u32],
    links: &[u32],
    boxes: &[f32],
    nodes: usize,
    points: &[u8],
    distance: f32,
    answers: &mut [u8],
) -> u64
    ensures { QueryIs source triangles.now order.now links.now boxes.now nodes
        points.now distance answers.old result answers.new }
{
    source_points(
        triangles, order, links, boxes, nodes, points, distance, answers,
    )
}

// Writes the winding number about each point. The status is the number of points.
#[unsafe(no_mangle)]
pub extern "C" fn gauge_winding(triangles: &[f32], points: &[u8], windings: &mut [u8]) -> u64
    ensures { WindingIs triangles.now points.now windings.old result windings.new }
{
    winding_points(triangles, points, windings)
}

// Writes the dipoles of the tree, sixteen numbers a node. The status is the number of nodes.
#[unsafe(no_mangle)]
pub extern "C" fn gauge_node_sums(
    triangles: &[f32],
    order: &[u32],
    links: &[u32],
    boxes: &[f32],
    nodes: usize,
    sums: &mut [f32],
) -> u64
    ensures { SumsIs triangles.now order.now links.now boxes.now nodes sums.old result
        sums.new }
{
    sums_lists(triangles, order, links, boxes, nodes, sums)
}

// Writes the winding number by dipoles about each point. The status is the number of points.
#[unsafe(no_mangle)]
pub extern "C" fn gauge_fast_winding(
    triangles: &[f32],
    order: &[u32],
    links: &[u32],
    boxes: &[f32],
    nodes: usize,
    sums: &[f32],
    points: &[u8],
    scale: f32,
    windings: &mut [u8],
) -> u64
    ensures { FastIs triangles.now order.now links.now boxes.now nodes sums.now
        points.now scale windings.old result windings.new }
{
    fast_points(
        triangles, order, links, boxes, nodes, sums, points, scale, windings,
    )
}
