// The public calls, over any bytes and any lists at all: an STL read into a triangle list, and a triangle list written as an STL.
// A refusal changes nothing.
ghost use Rattle.std.specs.Prelude.{◌≡◌};
ghost use Rattle.lists.specs.Values.{as_verdict};
ghost use Rattle.spec_stl.specs.Calls.{read_refusal, write_refusal};
ghost use Rattle.stl.specs.Values.{ReadIs, WrittenIs};

use crate::get::{Facets, size_refusal};
use crate::put::put_stl;
use lists::refusal::{Refusal, room_refusal};
use lists::tests::{triangle_count, triangles_refusal};

// 11, then 2 to 4 of the triangles that the bytes hold, then 6.
fn read_refusal(bytes: &[u8], room: usize) -> Result<(), Refusal>
    ensures { as_verdict result ≡ read_refusal bytes.now room }
{
    size_refusal(bytes)?;
    let facets = Facets::of(bytes);
    facets.corners_refusal()?;
    room_refusal(room, 9 * facets.count)
}

// Leaves the triangles of an STL at the front of the list and answers how many there are. Entries behind them stay as they were.
// Header, normals and attributes are not looked at.
pub fn read_stl(bytes: &[u8], triangles: &mut [f32]) -> Result<usize, Refusal>
    ensures { ReadIs bytes.now triangles.old result triangles.new }
{
    read_refusal(bytes, triangles.len())?;
    let facets = Facets::of(bytes);
    facets.read(triangles);
    Ok(facets.count)
}

// 1 to 4, then 6.
fn write_refusal(triangles: &[f32], given: usize) -> Result<(), Refusal>
    ensures { as_verdict result ≡ write_refusal triangles.now given }
{
    triangles_refusal(triangles)?;
    room_refusal(given, 84 + 50 * triangle_count(triangles))
}

// Writes the STL of the triangles to the front of `out` and answers how many bytes it has. The bytes behind them stay as they were.
// Header, normals and attributes are zeros.
pub fn write_stl(triangles: &[f32], out: &mut [u8]) -> Result<usize, Refusal>
    ensures { WrittenIs triangles.now out.old result out.new }
{
    write_refusal(triangles, out.len())?;
    Ok(put_stl(triangles, out))
}
