// The words of a stored case, read one behind the other.
ghost use Rattle.std.specs.Prelude.{◌≡◌, ◌*◌, ◌≤◌, min, length};
ghost use Rattle.test_words.specs.Words as Words;

use crate::{Word, fill, more, pattern_at};
use lists::drawing::Drawing;

// Where the next word of a case stands.
#[derive(Clone, Copy)]
pub struct Cursor<'a> {
    pub bytes: &'a [u8],
    pub at: usize,
}

impl<'a> Cursor<'a> {
    // The next word, which the cursor passes.
    pub fn next<T: Word>(&mut self) -> T
        ensures value { result ≡ T.of_word (Words.word_at self.old.bytes.now self.old.at) }
        ensures at { self.new.at ≡ Words.more self.old.at 4 }
        ensures bytes { self.new.bytes ≡ self.old.bytes }
    {
        let word = pattern_at(self.bytes, self.at);
        self.at = more(self.at, 4);
        T::of_pattern(word)
    }

    // Fills the first `count` entries of `room` with the next words, or all where it has fewer, and lends them.
    pub fn fill<'b, T: Word>(&mut self, count: usize, room: &'b mut [T]) -> &'b [T]
        ensures filled { result.now ≡ Words.words_from T.of_word self.old.bytes.now self.old.at (min count (length room.old)) }
        ensures at { self.new.at ≡ Words.more self.old.at (4 * min count (length room.old)) }
        ensures bytes { self.new.bytes ≡ self.old.bytes }
    {
        let count = count.min(room.len());
        let out = &mut room[0..count];
        fill(self.bytes, self.at, out);
        self.at = more(self.at, count.saturating_mul(4));
        out
    }

    // The drawing of these triangles and so many nodes, whose order, links and boxes are the next words.
    pub fn drawing<'b>(
        &mut self,
        triangles: &'b [f32],
        nodes: usize,
        order: &'b mut [u32],
        links: &'b mut [u32],
        boxes: &'b mut [f32],
    ) -> Drawing<'b>
        requires { nodes ≤ 1000 }
        ensures { result.nodes ≡ nodes }
    {
        let order = self.fill(triangles.len() / 9, order);
        let links = self.fill(3 * nodes, links);
        let boxes = self.fill(6 * nodes, boxes);
        Drawing {
            triangles,
            order,
            links,
            boxes,
            nodes,
        }
    }
}
