// Replays what the Rust answers for boxes, planes and closest points, and the sure query's point and the parts of a plain scan
// (tests/oracle/shapes.rs made the list on standard input). Prints the first ten words that differ, how many cases there are and how many
// words differ.
// A case is 68 words: two triangles, a point, then the answers.
#![tactic(auto)]

ghost use Rattle.std.specs.Prelude.{◌<◌};

use shapes::box3::Box3;
use shapes::plane3::Plane3;
use shapes::triangle3::{Part, Spot, Triangle3};
use shapes::vec3::{Axis, Vec3};
use test_words::cursor::Cursor;
use test_words::tally::Tally;
use test_words::{Word, pattern_at, put_count, read_next};

// The answers of a case that were not compared yet, and the tally of those that were.
#[derive(Clone, Copy)]
struct Answers<'a> {
    case: Cursor<'a>,
    tally: Tally,
}

fn next_point(case: &mut Cursor) -> Vec3 {
    Vec3 {
        x: case.next(),
        y: case.next(),
        z: case.next(),
    }
}

fn next_triangle(case: &mut Cursor) -> Triangle3 {
    Triangle3 {
        a: next_point(case),
        b: next_point(case),
        c: next_point(case),
    }
}

impl<'a> Answers<'a> {
    fn compare(&mut self, at: usize, ours: u32, theirs: u32) {
        if ours != theirs {
            self.tally.differs(b"", at, ours, theirs);
        }
    }

    fn word<T: Word>(&mut self, ours: T) {
        let at = self.case.at / 4;
        let theirs = self.case.next();
        self.compare(at, ours.pattern(), theirs);
    }

    // The parts stand behind all other words.
    fn part(&mut self, at: usize, ours: Part)
        requires { at < 68 }
    {
        let theirs = pattern_at(self.case.bytes, 4 * at);
        self.compare(at, u32::from(ours), theirs);
    }

    fn spot(&mut self, ours: Spot, p: Vec3, part_at: usize)
        requires { part_at < 68 }
    {
        self.point(ours.point);
        self.word(ours.point.squared_distance(p));
        self.part(part_at, ours.part);
    }

    fn point(&mut self, ours: Vec3) {
        self.word(ours.x);
        self.word(ours.y);
        self.word(ours.z);
    }

    fn bounds(&mut self, ours: Box3) {
        self.point(ours.min);
        self.point(ours.max);
    }

    fn measures(&mut self, b: Box3, p: Vec3) {
        self.point(b.centre());
        self.point(b.sizes());
        self.word(b.area());
        self.word(b.volume());
        self.point(b.offset(p));
        self.word(b.squared_distance(p));
        self.word(b.contains_point(p) as u32);
        self.point(b.closest_point(p));
    }

    fn plane(&mut self, axis: Axis, b: Box3, p: Vec3) {
        let plane = Plane3 {
            normal: shapes::plane3::unit_of(axis),
            distance: p.on(axis),
        };
        self.word(plane.intersects_box3(b) as u32);
    }

    fn all(&mut self, t: Triangle3, other: Box3, p: Vec3) {
        let b = t.bbox();
        self.spot(t.closest_spot(p), p, 66);
        self.bounds(b);
        self.bounds(b.union_box(other));
        self.bounds(b.union_point(p));
        self.measures(b, p);
        for axis in [Axis::X, Axis::Y, Axis::Z] {
            self.plane(axis, b, p);
        }
        self.spot(t.held_spot(p), p, 67);
    }
}

// Replays the next case of standard input, if there is one.
fn replay_next(tally: &mut Tally) {
    let mut all = [0u8; 272];
    if let Some(bytes) = read_next(272, &mut all) {
        let mut case = Cursor { bytes, at: 0 };
        let t = next_triangle(&mut case);
        let other = next_triangle(&mut case).bbox();
        let p = next_point(&mut case);
        let mut answers = Answers {
            case,
            tally: *tally,
        };
        answers.all(t, other, p);
        *tally = answers.tally;
        tally.count_case();
    }
}

fn main() {
    let mut tally = Tally::of(b"case ");
    for _ in 0..10000 {
        replay_next(&mut tally);
    }
    put_count(tally.cases, b" cases, ");
    put_count(tally.differ, b" words differ\n");
}
