// Reading an image: its layout is tested first, then the lengths of the lent lists.
ghost use Rattle.std.specs.Prelude.{◌≡◌, ◌*◌, ◌<◌, ◌^◌};
ghost use Rattle.spec_image.specs.Reading.{room_for};
ghost use Rattle.image.specs.Values.{rooms_of, ReadIs};

use crate::get::{read_lists, settings_of};
use lists::refusal::Refusal;
use lists::settings::Settings;
use records::layout::image_layout;
use records::versions::Version;

// How many entries the lent lists have.
#[derive(Clone, Copy)]
struct Rooms {
    triangles: usize,
    order: usize,
    links: usize,
    boxes: usize,
}

// What an image holds besides its lists.
#[derive(Clone, Copy)]
pub struct ImageRead {
    pub settings: Settings,
    pub triangles: usize,
    pub nodes: usize,
}

// Whether the lists have room for that many triangles and nodes.
fn has_room(rooms: Rooms, triangles: usize, nodes: usize) -> bool
    requires { (9 * triangles < 2 ^ 64) × (6 * nodes < 2 ^ 64) }
    ensures { result ≡ room_for (rooms_of rooms) triangles nodes }
{
    (9 * triangles <= rooms.triangles)
        & (triangles <= rooms.order)
        & (3 * nodes <= rooms.links)
        & (6 * nodes <= rooms.boxes)
}

// Leaves the lists of the image at the front of the lent ones and answers its settings and counts. Entries behind them stay as they were.
// 10 refuses a wrong layout, then 6 a list with too little room. Nothing else is tested: the tree check is a call of its own.
// A refusal changes nothing.
pub fn read_image(
    bytes: &[u8],
    triangles: &mut [f32],
    order: &mut [u32],
    links: &mut [u32],
    boxes: &mut [f32],
) -> Result<ImageRead, Refusal>
    ensures { ReadIs bytes.now result triangles.old order.old links.old boxes.old
        triangles.new order.new links.new boxes.new }
{
    let counts = match image_layout(bytes) {
        Ok(counts) => counts,
        Err(wrong) => return Err(Refusal::BadLayout(wrong.at)),
    };
    let rooms = Rooms {
        triangles: triangles.len(),
        order: order.len(),
        links: links.len(),
        boxes: boxes.len(),
    };
    if !has_room(rooms, counts.triangles, counts.nodes) {
        return Err(Refusal::NoRoom);
    }
    let version = Version::of(counts.triangles);
    read_lists(
        version,
        bytes,
        counts.triangles,
        counts.nodes,
        triangles,
        order,
        links,
        boxes,
    );
    Ok(ImageRead {
        settings: settings_of(bytes, version),
        triangles: counts.triangles,
        nodes: counts.nodes,
    })
}
