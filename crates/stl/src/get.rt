// Reads an STL: its facets, what is refused of it, and its triangles. Everything is tested in the bytes, before anything is written.
ghost use Rattle.std.specs.Prelude.{◌≡◌, ◌*◌, ◌^◌, ◌≤◌, ◌<◌, length};
ghost use Rattle.lists.specs.Values.{as_verdict};
ghost use Rattle.spec_tables.specs.Tables.{overwrite, concat_map};
ghost use Rattle.spec_lists.specs.Refusals.{coordinate_refusal, triangles_refusal};
ghost use Rattle.spec_stl.specs.Stl.{stl_count, stl_size, corners_in, stl_triangles};
ghost use Rattle.spec_stl.specs.Calls.{size_refusal};

use lists::limits;
use lists::refusal::{Refusal, refused_if};
use records::coordinates::first_bad_in;
use records::entries::read_f32s;
use records::numbers::u32_at;

// How many triangles the bytes say that they hold.
pub fn count_of(bytes: &[u8]) -> usize
    requires { 84 ≤ length bytes.now }
    ensures value { result ≡ stl_count bytes.now }
    ensures upper_bound { result < 2 ^ 32 }
{
    u32_at(bytes, 80) as usize
}

// 11: the size is another than the count says.
pub fn size_refusal(bytes: &[u8]) -> Result<(), Refusal>
    ensures { as_verdict result ≡ size_refusal bytes.now }
{
    let size = bytes.len();
    refused_if(
        size < 84 || size != 84 + 50 * count_of(bytes),
        Refusal::BadStlSize(size),
    )
}

// The facets of an STL: its bytes, which have room for as many as their count says.
#[derive(Clone, Copy)]
pub struct Facets<'a> {
    bytes: &'a [u8],
    pub count: usize,
    ghost count_is: { count ≡ stl_count bytes.now },
    ghost room: { stl_size count ≤ length bytes.now },
}

impl<'a> Facets<'a> {
    // The facets of bytes of the right size.
    pub fn of(bytes: &'a [u8]) -> Facets<'a>
        requires { stl_size (stl_count bytes.now) ≤ length bytes.now }
        ensures { result.bytes.now ≡ bytes.now }
    {
        Facets {
            bytes,
            count: count_of(bytes),
        }
    }

    // 4: a number of the corners is no coordinate.
    fn coordinate_refusal(&self) -> Result<(), Refusal>
        ensures { as_verdict result ≡ coordinate_refusal 4 (stl_triangles self.now.bytes.now) }
    {
        for i in 0..self.count {
            let at = first_bad_in(self.bytes, 84 + 50 * i + 12, 9);
            if at < 9 {
                return Err(Refusal::BadCoordinate(9 * i + at));
            }
        }
        Ok(())
    }

    // 2 to 4 of the triangles that the bytes hold; a list read from bytes is never ragged.
    pub fn corners_refusal(&self) -> Result<(), Refusal>
        ensures { as_verdict result ≡ triangles_refusal (stl_triangles self.now.bytes.now) }
    {
        refused_if(self.count == 0, Refusal::NoTriangle)?;
        refused_if(
            limits::MAX_TRIANGLES < self.count,
            Refusal::TooManyTriangles,
        )?;
        self.coordinate_refusal()
    }

    // Leaves the triangles at the front of the list.
    pub fn read(&self, triangles: &mut [f32])
        requires { 9 * self.now.count ≤ length triangles.old }
        ensures { triangles.new ≡ overwrite 0 (stl_triangles self.now.bytes.now) triangles.old }
    {
        read_facets(self.bytes, self.count, triangles);
    }
}

// Leaves the triangles of the first `count` facets at the front of the list: as many as there are, whatever the bytes say.
pub fn read_facets(bytes: &[u8], count: usize, triangles: &mut [f32])
    requires { (stl_size count ≤ length bytes.now) × (9 * count ≤ length triangles.old) }
    ensures { triangles.new ≡ overwrite 0 (concat_map (corners_in bytes.now) count) triangles.old }
{
    for i in 0..count {
        read_f32s(bytes, 84 + 50 * i + 12, 9, triangles, 9 * i);
    }
}
