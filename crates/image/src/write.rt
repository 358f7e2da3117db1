// Writing an image: the tests 1 to 6 and 71 to 75 in turn, then the bytes.
ghost use Rattle.std.specs.Prelude.{◌≡◌, ◌<◌, ◌^◌};
ghost use Rattle.records.specs.Values.{shape_of};
ghost use Rattle.spec_image.specs.Writing.{leaf_refusal, write_refusal};
ghost use Rattle.lists.specs.Values.{as_settings, as_verdict};
ghost use Rattle.image.specs.Values.{image_of, WrittenIs};

use crate::put::put_image;
use crate::size::image_room_refusal;
use lists::drawing::Drawing;
use lists::refusal::{Refusal, refused_if};
use lists::settings::{Settings, settings_refusal};
use lists::tests::{triangle_count, triangles_refusal};
use records::versions::Version;
use tree::calls::tree_refusal;

// The max leaf minimum that the version keeps.
fn max_leaf(version: Version) -> usize
    ensures { result ≡ (shape_of version).max_leaf }
{
    match version {
        Version::One => 4096,
        Version::Two => 65536,
    }
}

// 5, of a version: the leaf minimum is larger than it keeps.
pub fn leaf_refusal(version: Version, settings: Settings) -> Result<(), Refusal>
    ensures { as_verdict result ≡ leaf_refusal (shape_of version) (as_settings settings) }
{
    refused_if(
        max_leaf(version) < settings.leaf_minimum,
        Refusal::BadSetting,
    )
}

// The first of the tests 1 to 6 and 71 to 75 that refuses.
fn write_refusal(settings: Settings, drawing: &Drawing, given: usize) -> Result<(), Refusal>
    requires { given < 2 ^ 63 }
    ensures { as_verdict result
        ≡ write_refusal (image_of settings drawing.now.triangles.now drawing.now.order.now drawing.now.links.now
        drawing.now.boxes.now drawing.now.nodes) given }
{
    triangles_refusal(drawing.triangles)?;
    settings_refusal(settings)?;
    let count = triangle_count(drawing.triangles);
    leaf_refusal(Version::of(count), settings)?;
    image_room_refusal(given, count, drawing.nodes)?;
    tree_refusal(drawing)
}

// Writes the image of a tree in lent lists to the front of `out` and answers how many bytes it has. The bytes behind them stay as they were.
// A refusal changes nothing.
pub fn write_image(settings: Settings, drawing: &Drawing, out: &mut [u8]) -> Result<usize, Refusal>
    ensures { WrittenIs (image_of settings drawing.now.triangles.now drawing.now.order.now drawing.now.links.now
        drawing.now.boxes.now drawing.now.nodes) result out.old out.new }
{
    write_refusal(settings, drawing, out.len())?;
    let version = Version::of(triangle_count(drawing.triangles));
    Ok(put_image(version, settings, drawing, out))
}
