// What a replay has compared.
use crate::cursor::Cursor;
use crate::{Word, more};
use lists::refusal::Refusal;

// How many cases were replayed and how many words differed. `kind` is what is printed before the number of a case.
#[derive(Clone, Copy)]
pub struct Tally {
    pub kind: &'static [u8],
    pub cases: usize,
    pub differ: usize,
}

// Prints which word differs, behind what was printed of its case.
pub fn put_difference(word: usize, ours: u32, theirs: u32) {
    io::write_all(1, b"word ");
    io::print_decimal(1, word as u64);
    io::write_all(1, b" ours ");
    io::print_hex(1, ours as u64, 8);
    io::write_all(1, b" theirs ");
    io::print_hex(1, theirs as u64, 8);
    io::write_all(1, b"\n");
}

impl Tally {
    pub fn of(kind: &'static [u8]) -> Tally {
        Tally {
            kind,
            cases: 0,
            differ: 0,
        }
    }

    // One case more was replayed.
    pub fn count_case(&mut self) {
        self.cases = more(self.cases, 1);
    }

    // One word more differs. Prints the first ten.
    pub fn differs(&mut self, what: &[u8], word: usize, ours: u32, theirs: u32) {
        if self.differ < 10 {
            io::write_all(1, self.kind);
            io::print_decimal(1, self.cases as u64);
            io::write_all(1, b" ");
            io::write_all(1, what);
            put_difference(word, ours, theirs);
        }
        self.differ = more(self.differ, 1);
    }

    // Nothing may be refused.
    pub fn answered(&mut self, what: &[u8], told: Result<(), Refusal>) {
        if told.is_err() {
            self.differs(what, 0, 1, 0);
        }
    }

    // Compares our words with the next words of the case.
    pub fn compare<T: Word, F: Fn(u32, u32) -> bool>(
        &mut self,
        what: &[u8],
        ours: &[T],
        case: &mut Cursor,
        is_right: F,
    )
        requires { F.IsAlwaysCallable is_right }
    {
        for (i, entry) in ours.iter().enumerate() {
            let word = entry.pattern();
            let theirs = case.next();
            if !is_right(word, theirs) {
                self.differs(what, i, word, theirs);
            }
        }
    }

    // The same, bit for bit.
    pub fn same<T: Word>(&mut self, what: &[u8], ours: &[T], case: &mut Cursor) {
        self.compare(what, ours, case, |word, theirs| word == theirs);
    }
}
