// The calls of a C host over STLs. A call that refuses changes nothing that is lent.
ghost use Rattle.std.specs.Prelude.{◌≡◌};
ghost use Rattle.stl.specs.Values.{as_counted};
ghost use Rattle.spec_host.specs.Stls.{counted_status, CountedPlaced, ReadStlPut, WriteStlPut};

use host_bytes::status::encode_told;
use lists::refusal::Refusal;
use stl::calls::{read_stl, write_stl};

// The status of reading or writing: the count, or its refusal.
fn encode_counted(counted: Result<usize, Refusal>) -> u64
    requires { CountedPlaced (as_counted counted) }
    ensures { result ≡ counted_status (as_counted counted) }
{
    match counted {
        Ok(count) => count as u64,
        Err(refusal) => encode_told(refusal),
    }
}

// Reads an STL to the front of `triangles`: tests 11, 2 to 4, 6. The status is the number of triangles.
pub fn read_triangles(stl: &[u8], triangles: &mut [f32]) -> u64
    ensures { ReadStlPut stl.now triangles.old result triangles.new }
{
    let read = read_stl(stl, triangles);
    encode_counted(read)
}

// Writes the STL of the triangles to the front of `stl`: tests 1 to 4, 6. The status is the number of bytes.
pub fn write_triangles(triangles: &[f32], stl: &mut [u8]) -> u64
    ensures { WriteStlPut triangles.now stl.old result stl.new }
{
    let written = write_stl(triangles, stl);
    encode_counted(written)
}
