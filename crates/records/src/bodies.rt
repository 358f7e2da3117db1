// Whether a record of a wanted kind and size stands at an index of the bytes, and the size of its body if so.
ghost use Rattle.std.specs.Prelude.{◌≡◌, ◌<◌};
ghost use Rattle.spec_records.specs.Little.{little_at};
ghost use Rattle.spec_records.specs.Records.{exactly, whole, size_at, is_record, is_right};
ghost use Rattle.spec_records.specs.Layouts.{is_known, settings_right, triangles_right};
ghost use Rattle.records.specs.Values.{body_if};

use crate::numbers::{u16_at, u32_at};
use crate::versions::Version;

// The size of the body of a record of this kind that lies within the bytes.
pub fn body_at(bytes: &[u8], at: usize, kind: u32) -> Option<usize>
    ensures { result ≡ body_if (is_record kind bytes.now at) (size_at bytes.now at) }
{
    let room = bytes.len().checked_sub(6)?.checked_sub(at)?;
    let size = u32_at(bytes, at) as usize;
    (size <= room && u16_at(bytes, at + 4) == kind).then_some(size)
}

// The size of the body of such a record that holds whole entries of this size.
pub fn whole_body(bytes: &[u8], at: usize, kind: u32, entry: usize) -> Option<usize>
    requires { 0 < entry }
    ensures { result ≡ body_if (is_right kind (whole entry) bytes.now at) (size_at bytes.now at) }
{
    let size = body_at(bytes, at, kind)?;
    (size % entry == 0).then_some(size)
}

// Whether such a record stands there with a body of exactly this size.
pub fn has_body(bytes: &[u8], at: usize, kind: u32, wanted: usize) -> bool
    ensures { result ≡ is_right kind (exactly wanted) bytes.now at }
{
    body_at(bytes, at, kind) == Some(wanted)
}

// Whether this version is read.
fn is_known(version: u32) -> bool
    ensures { result ≡ is_known version }
{
    version == 1 || version == 2
}

// Whether record 1 of a known version stands at the front.
pub fn has_settings(bytes: &[u8]) -> bool
    ensures { result ≡ is_right 1 settings_right bytes.now 0 }
{
    has_body(bytes, 0, 1, 8) && is_known(u16_at(bytes, 6))
}

// The size of the body of record 2: whole triangles, as many as the version in record 1 keeps.
pub fn triangles_body(bytes: &[u8]) -> Option<usize>
    ensures { result ≡ body_if (is_right 2 (triangles_right (little_at 2 bytes.now 6)) bytes.now 14) (size_at bytes.now 14) }
{
    let size = whole_body(bytes, 14, 2, 36)?;
    (Version::of(size / 36).number() == u16_at(bytes, 6)).then_some(size)
}
