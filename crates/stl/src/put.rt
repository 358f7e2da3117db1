// Writes an STL: header, count, facets. What writes answers the index behind what it wrote.
// Kept: (d) `at` beside `out`. As a part, `put_zeros(12, &mut out[at..])`, each contract would tell what stands in front of the part too.
ghost use Rattle.std.specs.Prelude.{◌≡◌, ◌+◌, ◌*◌, ◌≤◌, length};
ghost use Rattle.spec_tables.specs.Tables.{concat_map, Put};
ghost use Rattle.spec_lists.specs.Reading.{triangle_count};
ghost use Rattle.spec_stl.specs.Stl.{stl_size, zeros, facet_bytes, stl_bytes};

use lists::tests::triangle_count;
use records::entries::put_f32s;
use records::numbers::put_u32;

// Writes so many zeros.
fn put_zeros(count: usize, out: &mut [u8], at: usize) -> usize
    requires { at + count ≤ length out.old }
    ensures put { Put at (zeros count) out.old out.new result }
    ensures value { result ≡ at + count }
{
    let next = at + count;
    out[at..next].fill(0);
    next
}

// Writes facet i: no normal, the corners of triangle i, no attribute.
fn put_facet(triangles: &[f32], i: usize, out: &mut [u8], at: usize) -> usize
    requires { (9 * i + 9 ≤ length triangles.now) × (at + 50 ≤ length out.old) }
    ensures put { Put at (facet_bytes triangles.now i) out.old out.new result }
    ensures value { result ≡ at + 50 }
{
    let corners = put_zeros(12, out, at);
    let attribute = put_f32s(triangles, 9 * i, 9, out, corners);
    put_zeros(2, out, attribute)
}

// Writes the facets of the first `count` triangles.
fn put_facets(triangles: &[f32], count: usize, out: &mut [u8], at: usize) -> usize
    requires { (9 * count ≤ length triangles.now) × (at + 50 * count ≤ length out.old) }
    ensures put { Put at (concat_map (facet_bytes triangles.now) count) out.old out.new result }
    ensures value { result ≡ at + 50 * count }
{
    let mut next = at;
    for i in 0..count {
        next = put_facet(triangles, i, out, next);
    }
    next
}

// Writes the STL of the triangles to the front of `out` and answers how many bytes it has. The bytes behind them stay as they were.
pub fn put_stl(triangles: &[f32], out: &mut [u8]) -> usize
    requires { stl_size (triangle_count triangles.now) ≤ length out.old }
    ensures put { Put 0 (stl_bytes triangles.now) out.old out.new result }
    ensures value { result ≡ stl_size (triangle_count triangles.now) }
{
    let count = triangle_count(triangles);
    let number = put_zeros(80, out, 0);
    let facets = put_u32(out, number, count);
    put_facets(triangles, count, out, facets)
}
