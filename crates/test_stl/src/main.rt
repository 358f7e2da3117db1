// Reads each STL on standard input into a list, then writes all that the list holds as an STL, and prints what the two calls answer and every
// entry that was lent to them. A case is its length, in four bytes, and its bytes: how many floats the list has, how many bytes the writer is
// lent, the bits that fill the list, and the STL. tests/stl/generate.rs made the cases and, by a reading of its own, `stdout`.
#![tactic(auto)]

use lists::refusal::Refusal;
use stl::calls::{read_stl, write_stl};
use test_words::cursor::Cursor;
use test_words::{put_number, put_refusal, read_case};

fn put_answer(what: &[u8], answer: Result<usize, Refusal>) {
    io::write_all(1, what);
    match answer {
        Ok(count) => put_number(count),
        Err(refusal) => {
            io::write_all(1, b" ");
            put_refusal(refusal);
        }
    }
    io::write_all(1, b"\n");
}

fn put_floats(list: &[f32]) {
    for x in list {
        io::print_hex(1, floats::bits_of(*x) as u64, 8);
        io::write_all(1, b" ");
    }
    io::write_all(1, b"\n");
}

fn put_bytes(list: &[u8]) {
    for byte in list {
        io::print_hex(1, u64::from(*byte), 2);
    }
    io::write_all(1, b"\n");
}

fn write_list(triangles: &[f32], given: usize) {
    let mut all = [238u8; 400];
    let out = &mut all[0..given % 401];
    put_answer(b"write", write_stl(triangles, out));
    put_bytes(out);
}

fn read_list(bytes: &[u8], room: usize, fill: f32, given: usize) {
    let mut all = [fill; 54];
    let triangles = &mut all[0..room % 55];
    put_answer(b"read", read_stl(bytes, triangles));
    put_floats(triangles);
    write_list(triangles, given);
}

fn replay(bytes: &[u8]) {
    if bytes.len() >= 12 {
        let mut case = Cursor { bytes, at: 0 };
        let room: u32 = case.next();
        let given: u32 = case.next();
        let fill = case.next();
        read_list(&bytes[12..bytes.len()], room as usize, fill, given as usize);
    }
}

// Replays the next case. Answers whether there was one that fits.
fn replay_next() -> bool {
    let mut all = [0u8; 512];
    let Some(bytes) = read_case(&mut all) else {
        return false;
    };
    replay(bytes);
    true
}

fn main() {
    for _ in 0..2000 {
        if !replay_next() {
            return;
        }
    }
}
