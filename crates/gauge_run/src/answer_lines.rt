// One printed line a point, from the words of its answer.
ghost use Rattle.std.specs.Prelude.{◌+◌, ◌*◌, ◌≤◌, length};
ghost use Rattle.spec_tables.specs.Tables.{Put, concat_map};
ghost use Rattle.spec_printing.specs.Printed.{longest_found};
ghost use Rattle.spec_search.specs.Answers.{answer_width};
ghost use Rattle.spec_gauge.specs.Lines.{words_line};

use printing::lines::{Found, put_found, put_nothing};
use walks::words::ANSWER_WIDTH;

// Writes the line of point k.
fn put_answer_line(answers: &[u32], k: usize, out: &mut [u8], at: usize) -> usize
    requires { (answer_width * k + answer_width ≤ length answers.now) × (at + longest_found ≤ length out.old) }
    ensures put { Put at (words_line answers.now k) out.old out.new result }
    ensures upper_bound { result ≤ at + longest_found }
{
    let first = ANSWER_WIDTH * k;
    if answers[first] == 0 {
        return put_nothing(out, at, k);
    }
    let found = Found {
        triangle: answers[first + 1] as usize,
        x: answers[first + 2],
        y: answers[first + 3],
        z: answers[first + 4],
        squared: answers[first + 5],
        part: answers[first + 6] as usize,
    };
    put_found(out, at, k, found)
}

// Writes the lines of `count` points, one behind the other.
pub fn put_answer_lines(answers: &[u32], count: usize, out: &mut [u8], at: usize) -> usize
    requires { (answer_width * count ≤ length answers.now) × (at + longest_found * count ≤ length out.old) }
    ensures { Put at (concat_map (words_line answers.now) count) out.old out.new result }
{
    let mut next = at;
    for k in 0..count {
        next = put_answer_line(answers, k, out, next);
    }
    next
}
