// Writes as bytes an answer, its words, the answers in the places, or a winding number.
ghost use Rattle.std.specs.Prelude.{◌≡◌, ◌+◌, ◌*◌, ◌≤◌, length};
ghost use Rattle.std.specs.Float.{binary32};
ghost use Rattle.std.specs.Float.Ieee.{to_bits};
ghost use Rattle.spec_tables.specs.Tables.{overwrite};
ghost use Rattle.spec_records.specs.Little.{little};
ghost use Rattle.spec_search.specs.Answers.{words_of};
ghost use Rattle.spec_search.specs.Calls.{most_few, point_words};
ghost use Rattle.spec_host.specs.PointBytes.{answer_size, word_bytes};
ghost use Rattle.walks.specs.Places as Kept;
ghost use Rattle.walks.specs.Values.{as_answer};

use floats::bits_of;
use records::entries::put_numbers;
use records::numbers::put_u32;
use walks::answer::Hit;
use walks::places::{MOST_AT, Places};
use walks::words::{ANSWER_WIDTH, put_answer};

// How many bytes an answer takes.
pub const ANSWER_SIZE: usize = 4 * ANSWER_WIDTH;

// Writes the words of the answer, four bytes each, from `at` on.
pub fn put_answer_bytes(out: &mut [u8], at: usize, answer: Option<Hit>)
    requires { at + answer_size ≤ length out.old }
    ensures { out.new ≡ overwrite at (word_bytes (words_of binary32 (as_answer answer))) out.old }
{
    let mut words = [0u32; ANSWER_WIDTH];
    put_answer(&mut words, 0, answer);
    put_numbers::<4>(&words, 0, ANSWER_WIDTH, out, at);
}

// Writes the answers in all places, the nearest first, from `at` on.
// Kept: (d) beside `walks::words::put_places`: as `put_places(&mut words, 0, places); put_numbers::<4>(..)` all answers pass through words once more.
pub fn put_places_bytes(out: &mut [u8], at: usize, places: &Places)
    requires few_places { Kept.most_of places.now.which ≤ most_few }
    requires room { at + answer_size * Kept.most_of places.now.which ≤ length out.old }
    ensures { out.new
        ≡ overwrite at (word_bytes (point_words binary32 (Kept.most_of places.now.which)
        (Kept.answer_of places.now.best places.now.which))) out.old }
{
    let most = places.which[MOST_AT] as usize;
    for j in 0..most {
        put_answer_bytes(out, at + ANSWER_SIZE * j, places.answer_at(j));
    }
}

// Writes the bits of the winding number, four bytes from `at` on.
pub fn put_winding_bytes(out: &mut [u8], at: usize, winding: f32)
    requires { at + 4 ≤ length out.old }
    ensures { out.new ≡ overwrite at (little 4 (to_bits binary32 winding)) out.old }
{
    put_u32(out, at, bits_of(winding) as usize);
}
