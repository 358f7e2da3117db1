// Replays roots and angles of Rust's own, and the oracle's solid angles and winding numbers, from the list on standard input
// (tests/oracle/angles.rs made it, and says how it is laid out). Prints the first ten cases that differ, and for each kind how many cases there are
// and how many differ. Roots must be equal bit for bit, angles within 2^-20, solid angles, which are twice an angle, within 2^-19,
// and the winding number of n triangles within n * 2^-20.
#![tactic(auto)]

ghost use Rattle.std.specs.Prelude.{◌<◌, ◌≤◌};

mod cases;
mod words;

use crate::cases::{Kind, case_at, is_near, words_of};
use crate::words::{mesh_words, numbers_from, place, size_at, word_at};
use angles::winding::winding;
use test_words::tally::{Tally, put_difference};
use test_words::{more, put_count};

// One case more was compared. It stands from the word `at` on.
fn count(tally: &mut Tally, right: bool, at: usize, ours: f32, theirs: u32) {
    tally.count_case();
    if !right {
        if tally.differ < 10 {
            io::write_all(1, b"at ");
            put_difference(at, floats::bits_of(ours), theirs);
        }
        tally.differ = more(tally.differ, 1);
    }
}

// Replays the cases of one kind from the word `at` on.
fn replay_section(block: &[u8], kind: Kind, at: usize, cases: usize) -> Tally {
    let mut tally = Tally::of(b"at ");
    for i in 0..cases {
        let first = place(at, words_of(kind), i);
        let case = case_at(block, kind, first);
        count(&mut tally, case.right, first, case.ours, case.theirs);
    }
    tally
}

// Compares the winding numbers `ours` of a mesh of so many triangles with theirs, which stand from the word `at` on.
fn replay_windings(block: &[u8], at: usize, triangles: usize, ours: &[f32], tally: &mut Tally)
    requires { triangles ≤ 80 }
{
    let most = std::num::nearest_u32_to_f32(triangles as u32) * 0.00000095367431640625;
    for (k, number) in ours.iter().enumerate() {
        let theirs = word_at(block, place(at, 1, k));
        let near = is_near(*number, floats::from_bits(theirs), most);
        count(tally, near, at, *number, theirs);
    }
}

// Replays a mesh of up to 80 triangles and 16 points. Nothing may be refused, and the entry past those used must stay.
fn replay_small_mesh(block: &[u8], at: usize, triangles: usize, points: usize, tally: &mut Tally)
    requires { (triangles ≤ 80) × (points ≤ 16) }
{
    let first_point = place(place(at, 1, 2), 9, triangles);
    let corners = numbers_from(block, place(at, 1, 2));
    let asked = numbers_from(block, first_point);
    let mut out = [7.0f32; 17];
    let used = 9 * triangles;
    let numbers = 3 * points;
    let told = winding(&corners[0..used], &asked[0..numbers], &mut out);
    if told.is_err() || out[points] != 7.0 {
        count(tally, false, at, out[points], 0);
        return;
    }
    let answers = place(first_point, 3, points);
    replay_windings(block, answers, triangles, &out[0..points], tally);
}

fn replay_mesh(block: &[u8], at: usize, tally: &mut Tally) {
    let triangles = size_at(block, at);
    let points = size_at(block, place(at, 1, 1));
    if triangles <= 80 && points <= 16 {
        replay_small_mesh(block, at, triangles, points, tally);
    } else {
        count(tally, false, at, 0.0, 0);
    }
}

// Replays the meshes, each behind the one before it.
fn replay_meshes(block: &[u8], first: usize, meshes: usize) -> Tally {
    let mut tally = Tally::of(b"at ");
    let mut at = first;
    for _ in 0..meshes {
        replay_mesh(block, at, &mut tally);
        at = place(at, 1, mesh_words(block, at));
    }
    tally
}

fn put_tally(name: &[u8], tally: Tally) {
    io::write_all(1, name);
    put_count(tally.cases, b" differ ");
    put_count(tally.differ, b"\n");
}

fn replay(block: &[u8]) {
    let roots = size_at(block, 0);
    let angles = size_at(block, 1);
    let solids = size_at(block, 2);
    let after_roots = place(4, words_of(Kind::Root), roots);
    let after_angles = place(after_roots, words_of(Kind::Angle), angles);
    let after_solids = place(after_angles, words_of(Kind::Solid), solids);
    put_tally(b"roots ", replay_section(block, Kind::Root, 4, roots));
    put_tally(
        b"angles ",
        replay_section(block, Kind::Angle, after_roots, angles),
    );
    put_tally(
        b"solid angles ",
        replay_section(block, Kind::Solid, after_angles, solids),
    );
    put_tally(
        b"winding numbers ",
        replay_meshes(block, after_solids, size_at(block, 3)),
    );
}

fn main() {
    let mut block = [0u8; 65536];
    let n = io::read_full(0, &mut block);
    replay(&block[..n]);
}
