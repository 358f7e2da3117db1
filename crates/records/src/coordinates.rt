// Coordinates in bytes: where the first number stands that is none. They are tested there, so that a call can refuse before it writes.
ghost use Rattle.std.specs.Prelude.{◌≡◌, ◌+◌, ◌*◌, ◌≤◌, length};
ghost use Rattle.std.specs.Float.{binary32};
ghost use Rattle.spec_lists.specs.Refusals.{first_bad};
ghost use Rattle.spec_records.specs.Entries.{floats_in};

use crate::entries::f32_at;
use lists::coordinates::is_coordinate;

// Kept: (d) `count` for none, as `first_bad` says it: an `Option<usize>` would be compared with `cond (ltb first count) (Some first) None`.
// The index of the first of `count` numbers from byte `start` on that is no coordinate, or `count`.
pub fn first_bad_in(bytes: &[u8], start: usize, count: usize) -> usize
    requires { start + 4 * count ≤ length bytes.now }
    ensures { result ≡ first_bad (floats_in binary32 bytes.now start count) }
{
    for i in 0..count {
        if !is_coordinate(f32_at(bytes, start + 4 * i)) {
            return i;
        }
    }
    count
}
