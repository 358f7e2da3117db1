// The records of an image and of an input of `gauge`, one behind the other, with nothing behind the last.
// The last of an input, its measuring rule, may be left out.
ghost use Rattle.std.specs.Prelude.{◌≡◌};
ghost use Rattle.spec_records.specs.Records.{laid_out};
ghost use Rattle.spec_records.specs.Layouts.{image_wants, gauge_wants};
ghost use Rattle.lists.specs.declared.refusal.Refusal.TheVariants.{BadLayout};
ghost use Rattle.records.specs.Values.{opening_of, TreeNext, image_laid, gauge_laid};

use crate::bodies::{has_body, has_settings, triangles_body, whole_body};
use crate::versions::Version;
use lists::refusal::Refusal;

// The offset of the first wrong record.
#[derive(Clone, Copy)]
pub struct WrongRecord {
    pub at: usize,
}

// A call that refuses its input for that tells the offset.
impl From<WrongRecord> for Refusal {
    ghost from_gives = { λ wrong refusal. refusal ≡ BadLayout wrong.at };

    fn from(wrong: WrongRecord) -> Refusal {
        Refusal::BadLayout(wrong.at)
    }
}

// How many triangles and nodes an image has.
#[derive(Clone, Copy)]
pub struct ImageCounts {
    pub triangles: usize,
    pub nodes: usize,
}

// How many triangles and points an input of `gauge` has, and whether it tells a rule.
#[derive(Clone, Copy)]
pub struct GaugeCounts {
    pub triangles: usize,
    pub points: usize,
    pub ruled: bool,
}

// The two records that an image and an input of `gauge` begin with, settings and triangles: the size of the second's body.
fn opening_of(bytes: &[u8]) -> Result<usize, WrongRecord>
    ensures { result ≡ opening_of bytes.now }
{
    if !has_settings(bytes) {
        return Err(WrongRecord { at: 0 });
    }
    triangles_body(bytes).ok_or(WrongRecord { at: 14 })
}

// The layout of an image behind its triangles: `order` bytes of order entries, and whole nodes of `node` bytes.
fn tree_layout(
    bytes: &[u8],
    triangles: usize,
    order: usize,
    node: usize,
) -> Result<ImageCounts, WrongRecord>
    requires { TreeNext bytes.now triangles order node }
    ensures { image_laid result ≡ laid_out image_wants bytes.now 0 }
{
    let third = 20 + triangles;
    if !has_body(bytes, third, 3, order) {
        return Err(WrongRecord { at: third });
    }
    let fourth = third + 6 + order;
    let nodes = whole_body(bytes, fourth, 4, node).ok_or(WrongRecord { at: fourth })?;
    let end = fourth + 6 + nodes;
    if end != bytes.len() {
        return Err(WrongRecord { at: end });
    }
    Ok(ImageCounts {
        triangles: triangles / 36,
        nodes: nodes / node,
    })
}

// The layout of an image.
pub fn image_layout(bytes: &[u8]) -> Result<ImageCounts, WrongRecord>
    ensures { image_laid result ≡ laid_out image_wants bytes.now 0 }
{
    let triangles = opening_of(bytes)?;
    let count = triangles / 36;
    let version = Version::of(count);
    tree_layout(
        bytes,
        triangles,
        version.order_size(count),
        version.node_size(),
    )
}

// The layout of an input of `gauge` whose triangles' body has this size.
fn query_layout(bytes: &[u8], triangles: usize) -> Result<GaugeCounts, WrongRecord>
    requires { opening_of bytes.now ≡ Ok triangles }
    ensures { gauge_laid result ≡ laid_out gauge_wants bytes.now 0 }
{
    let third = 20 + triangles;
    let points = whole_body(bytes, third, 5, 12).ok_or(WrongRecord { at: third })?;
    let fourth = third + 6 + points;
    if !has_body(bytes, fourth, 6, 4) {
        return Err(WrongRecord { at: fourth });
    }
    let fifth = fourth + 6 + 4;
    if fifth == bytes.len() {
        return Ok(GaugeCounts {
            triangles: triangles / 36,
            points: points / 12,
            ruled: false,
        });
    }
    if !has_body(bytes, fifth, 7, 2) {
        return Err(WrongRecord { at: fifth });
    }
    let end = fifth + 6 + 2;
    if end != bytes.len() {
        return Err(WrongRecord { at: end });
    }
    Ok(GaugeCounts {
        triangles: triangles / 36,
        points: points / 12,
        ruled: true,
    })
}

// The layout of an input of `gauge`.
pub fn gauge_layout(bytes: &[u8]) -> Result<GaugeCounts, WrongRecord>
    ensures { gauge_laid result ≡ laid_out gauge_wants bytes.now 0 }
{
    let triangles = opening_of(bytes)?;
    query_layout(bytes, triangles)
}
