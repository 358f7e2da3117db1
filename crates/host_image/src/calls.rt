// The calls of a C host over images: sizes and counts, writing lists, reading them back. A call that refuses changes nothing that is lent.
// Kept: (a) the flat lists of `write_lists` and `read_lists`, which are those of the exports `gauge_write` and `gauge_read`: the C interface.
ghost use Rattle.std.specs.Prelude.{◌≡◌};
ghost use Rattle.image.specs.Values.{image_from};
ghost use Rattle.spec_host.specs.Status.{status};
ghost use Rattle.spec_host.specs.Images.{image_max, layout_refusal, image_triangles, WritePut, ReadPut};

use crate::statuses::{encode_read, encode_short, encode_written};
use host_bytes::status::encode_refusal;
use image::read::read_image;
use image::size::image_size;
use image::write::write_image;
use lists::drawing::Drawing;
use lists::limits;
use lists::settings::Settings;
use records::layout::image_layout;

// The maximum size of the image of a list of `triangles` triangles, or 0 where no such list passes.
pub fn image_max(triangles: usize) -> u64
    ensures { result ≡ image_max triangles }
{
    if (1..=limits::MAX_TRIANGLES).contains(&triangles) {
        image_size(triangles, 2 * triangles - 1) as u64
    } else {
        0
    }
}

// How many triangles an image has: test 10. The status is their number.
pub fn image_triangles(image: &[u8]) -> u64
    ensures { result ≡ status (layout_refusal image.now) (image_triangles image.now) }
{
    match image_layout(image) {
        Ok(counts) => counts.triangles as u64,
        Err(wrong) => encode_refusal(wrong.into()),
    }
}

// Writes the image of a drawing to the front of `image`: tests 1 to 6 and 71 to 75. The status is the number of bytes.
pub fn write_lists(
    strategy: usize,
    leaf_minimum: usize,
    maximum_depth: usize,
    triangles: &[f32],
    order: &[u32],
    links: &[u32],
    boxes: &[f32],
    nodes: usize,
    image: &mut [u8],
) -> u64
    ensures { WritePut (image_from strategy leaf_minimum maximum_depth triangles.now order.now links.now
        boxes.now nodes) image.old result image.new }
{
    let settings = Settings {
        strategy,
        leaf_minimum,
        maximum_depth,
    };
    let drawing = Drawing {
        triangles,
        order,
        links,
        boxes,
        nodes,
    };
    let written = write_image(settings, &drawing, image);
    encode_written(written)
}

// Reads an image into the lists of a drawing, its settings first: tests 10 and 6. The status is the number of nodes.
pub fn read_lists(
    image: &[u8],
    settings: &mut [u32],
    triangles: &mut [f32],
    order: &mut [u32],
    links: &mut [u32],
    boxes: &mut [f32],
) -> u64
    ensures { ReadPut image.now (record {
      settings = settings.entry.now;
      triangles = triangles.old;
      order = order.old;
      links = links.old;
      boxes = boxes.old;
    }) result (record {
      settings = settings.exit.now;
      triangles = triangles.new;
      order = order.new;
      links = links.new;
      boxes = boxes.new;
    }) }
{
    if settings.len() < 3 {
        return encode_short(image);
    }
    let read = read_image(image, triangles, order, links, boxes);
    encode_read(read, settings)
}
