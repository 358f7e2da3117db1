// The words of a stored case, for the programs that replay cases: numbers and floats of four bytes each, the lowest byte first.
// The functions need nothing of the case or the place, so that a case that is cut short stops no replay.
#![tactic(auto)]

ghost use Rattle.std.specs.Prelude.{◌≡◌, ℕ, length};
ghost use Rattle.std.specs.Float.{binary32};
ghost use Rattle.std.specs.Float.Ieee.{of_bits};
ghost use Rattle.test_words.specs.Words as Words;

pub mod cursor;
pub mod tally;

use lists::refusal::Refusal;

// What a word can stand for.
pub trait Word: Copy {
    ghost of_word: { ℕ → Self };

    fn of_pattern(pattern: u32) -> Self
        ensures { result ≡ of_word pattern };

    fn pattern(self) -> u32;
}

impl Word for u32 {
    ghost of_word = { λ w. w };

    fn of_pattern(pattern: u32) -> u32 {
        pattern
    }

    fn pattern(self) -> u32 {
        self
    }
}

impl Word for f32 {
    ghost of_word = { λ w. of_bits binary32 w };

    fn of_pattern(pattern: u32) -> f32 {
        floats::from_bits(pattern)
    }

    fn pattern(self) -> u32 {
        floats::bits_of(self)
    }
}

// The sum, or n where one of the two is so large that the sum could overflow.
#[tactic(auto, unfolding(crate::specs::Words::more))]
pub fn more(n: usize, by: usize) -> usize
    ensures { result ≡ Words.more n by }
{
    if n < 1000000000 && by < 1000000000 {
        n + by
    } else {
        n
    }
}

// The word from byte `at` on, or 0 past the end.
#[tactic(auto, unfolding(crate::specs::Words::word_at))]
pub fn pattern_at(bytes: &[u8], at: usize) -> u32
    ensures { result ≡ Words.word_at bytes.now at }
{
    if bytes.len() < 4 || bytes.len() - 4 < at {
        return 0;
    }
    records::numbers::u32_at(bytes, at)
}

// Fills `out` with what the words from byte `from` on stand for.
pub fn fill<T: Word>(bytes: &[u8], from: usize, out: &mut [T])
    ensures { out.new ≡ Words.words_from T.of_word bytes.now from (length out.old) }
{
    for (i, entry) in out.iter_mut().enumerate() {
        *entry = T::of_pattern(pattern_at(bytes, more(from, i.saturating_mul(4))));
    }
}

// Reads the next `size` bytes of standard input into `out`. None where there are fewer, or `out` has no room for them.
pub fn read_next(size: usize, out: &mut [u8]) -> Option<&[u8]> {
    if size > out.len() {
        return None;
    }
    let body = &mut out[0..size];
    if io::read_full(0, body) < size {
        return None;
    }
    Some(body)
}

// Reads the next case of standard input: its length, in four bytes, then its bytes.
pub fn read_case(out: &mut [u8]) -> Option<&[u8]> {
    let mut head = [0u8; 4];
    let head = read_next(4, &mut head)?;
    read_next(pattern_at(head, 0) as usize, out)
}

// Prints a space and the number.
pub fn put_number(n: usize) {
    io::write_all(1, b" ");
    io::print_decimal(1, n as u64);
}

// Prints a space and the eight hex digits of the word.
pub fn put_word<T: Word>(word: T) {
    io::write_all(1, b" ");
    io::print_hex(1, word.pattern() as u64, 8);
}

// Prints how many of something there are.
pub fn put_count(n: usize, what: &[u8]) {
    io::print_decimal(1, n as u64);
    io::write_all(1, what);
}

// Prints the number and the place of a refusal.
pub fn put_refusal(refusal: Refusal) {
    io::write_all(1, b"refused");
    put_number(refusal.number());
    put_number(refusal.place());
}
