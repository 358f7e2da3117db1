// An answer, and the answers in the places, as words in a lent list.
ghost use Rattle.std.specs.Prelude.{◌≡◌, ◌+◌, ◌*◌, ◌≤◌, length};
ghost use Rattle.std.specs.Float.{binary32};
ghost use Rattle.spec_tables.specs.Tables as Tables;
ghost use Rattle.spec_search.specs.Answers as Answers;
ghost use Rattle.spec_search.specs.Calls as Calls;
ghost use Rattle.walks.specs.Places as Kept;
ghost use Rattle.walks.specs.Values as Values;

use crate::answer::Hit;
use crate::places::{MOST_AT, Places};
use floats::bits_of;

// How many words an answer takes.
pub const ANSWER_WIDTH: usize = 7;

// Writes 1, the triangle, the bits of x, y, z and the squared distance, and the part from index `at` on, or zeros alone for nothing.
pub fn put_answer(out: &mut [u32], at: usize, answer: Option<Hit>)
    requires { at + Answers.answer_width ≤ length out.old }
    ensures { out.new ≡ Tables.overwrite at (Answers.words_of binary32 (Values.as_answer answer)) out.old }
{
    let words = match answer {
        None => [0; ANSWER_WIDTH],
        Some(hit) => [
            1,
            hit.triangle,
            bits_of(hit.point.x),
            bits_of(hit.point.y),
            bits_of(hit.point.z),
            bits_of(hit.squared),
            hit.part,
        ],
    };
    out[at..at + ANSWER_WIDTH].copy_from_slice(&words);
}

// Writes the answers in all places, the nearest first, from index `at` on.
pub fn put_places(out: &mut [u32], at: usize, places: &Places)
    requires few_places { Kept.most_of places.now.which ≤ Calls.most_few }
    requires room { at + Answers.answer_width * Kept.most_of places.now.which ≤ length out.old }
    ensures { out.new
        ≡ Tables.overwrite at (Calls.point_words binary32 (Kept.most_of places.now.which)
        (Kept.answer_of places.now.best places.now.which)) out.old }
{
    let most = places.which[MOST_AT] as usize;
    for j in 0..most {
        put_answer(out, at + ANSWER_WIDTH * j, places.answer_at(j));
    }
}
