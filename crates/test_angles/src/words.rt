// The list as words, u32 little-endian. A word past the end reads as 0, so that a list that is cut short stops no replay.
ghost use Rattle.std.specs.Prelude.{◌≡◌, length};
ghost use Rattle.shapes.specs.Values.{as_point};
ghost use Rattle.test_angles.specs.Words as Words;

use shapes::vec3::Vec3;
use test_words::pattern_at;

// The word at this index.
#[tactic(auto, unfolding(crate::specs::Words::word_at))]
pub fn word_at(block: &[u8], index: usize) -> u32
    ensures { result ≡ Words.word_at block.now index }
{
    if index < 16384 {
        pattern_at(block, 4 * index)
    } else {
        0
    }
}

// The word as a count, at most 16384.
#[tactic(auto, unfolding(crate::specs::Words::size_at))]
pub fn size_at(block: &[u8], index: usize) -> usize
    ensures { result ≡ Words.size_at block.now index }
{
    (word_at(block, index) as usize).min(16384)
}

// The word as a number.
#[tactic(auto, unfolding(crate::specs::Words::number_at))]
pub fn number_at(block: &[u8], index: usize) -> f32
    ensures { result ≡ Words.number_at block.now index }
{
    floats::from_bits(word_at(block, index))
}

// at + size * i, or the end where that is past it.
#[tactic(auto, unfolding(crate::specs::Words::place))]
pub fn place(at: usize, size: usize, i: usize) -> usize
    ensures { result ≡ Words.place at size i }
{
    if (at < 16384) & (size < 16384) & (i < 16384) {
        let found = at + size * i;
        if found < 16384 {
            return found;
        }
    }
    16384
}

// The point in three words.
#[tactic(auto, unfolding(crate::specs::Words::point_at))]
pub fn point_of(block: &[u8], at: usize) -> Vec3
    ensures { as_point result ≡ Words.point_at block.now at }
{
    Vec3 {
        x: number_at(block, place(at, 1, 0)),
        y: number_at(block, place(at, 1, 1)),
        z: number_at(block, place(at, 1, 2)),
    }
}

// How many words the mesh at `at` takes: two counts, nine a triangle, and four a point.
#[tactic(auto, unfolding(crate::specs::Words::mesh_words))]
pub fn mesh_words(block: &[u8], at: usize) -> usize
    ensures { result ≡ Words.mesh_words block.now at }
{
    let triangles = size_at(block, at);
    let points = size_at(block, place(at, 1, 1));
    place(place(2, 9, triangles), 4, points)
}

// The 720 numbers from `at` on: no mesh has more.
pub fn numbers_from(block: &[u8], at: usize) -> [f32; 720]
    ensures value { result ≡ Words.numbers_from block.now at }
    ensures result_len { length result ≡ 720 }
{
    let mut numbers = [0.0f32; 720];
    for (i, entry) in numbers.iter_mut().enumerate() {
        *entry = number_at(block, place(at, 1, i));
    }
    numbers
}
