// Prints what each case on standard input is, as an image and as an input of `gauge`. Where the image reader takes it, prints whether writing
// what was read gives the same bytes, and what the writer says. A case is its length, in four bytes, and its bytes. Then come images that are
// too large to be stored. tests/records/generate.rs made the cases and, by a reading of its own, `stdout`.
#![tactic(auto)]

ghost use Rattle.std.specs.Prelude.{◌≡◌, ◌*◌, ◌≤◌, length};

use image::put::put_image;
use image::read::read_image;
use image::write::write_image;
use lists::drawing::Drawing;
use lists::refusal::Refusal;
use lists::settings::Settings;
use printing::lines::{put_counts, put_refused};
use records::layout::{gauge_layout, image_layout};
use records::versions::Version;

mod large;

fn image_line(bytes: &[u8], line: &mut [u8; 96]) -> usize
    ensures { result ≤ 96 }
{
    match image_layout(bytes) {
        Err(wrong) => put_refused(line, 0, 10, wrong.at),
        Ok(counts) => put_counts(line, 0, counts.triangles, counts.nodes, 0),
    }
}

// The third count is 1 where there is a measuring rule.
fn gauge_line(bytes: &[u8], line: &mut [u8; 96]) -> usize
    ensures { result ≤ 96 }
{
    match gauge_layout(bytes) {
        Err(wrong) => put_refused(line, 0, 10, wrong.at),
        Ok(counts) => put_counts(
            line,
            0,
            counts.triangles,
            counts.points,
            counts.ruled as usize,
        ),
    }
}

fn put_layouts(bytes: &[u8]) {
    let mut line = [0; 96];
    let end = image_line(bytes, &mut line);
    io::write_all(1, &line[..end]);
    let last = gauge_line(bytes, &mut line);
    io::write_all(1, &line[..last]);
}

fn put_refusal(refusal: Refusal) {
    let mut line = [0; 96];
    let end = put_refused(&mut line, 0, refusal.number(), refusal.place());
    io::write_all(1, &line[..end]);
}

fn put_same(same: bool) {
    if same {
        io::write_all(1, b"the same bytes\n");
    } else {
        io::write_all(1, b"other bytes\n");
    }
}

// Writes with the tests. The writer is lent fewer bytes than the largest image that is read has.
fn write_tested(bytes: &[u8], settings: Settings, drawing: &Drawing) {
    let mut out = [0; 300];
    match write_image(settings, drawing, &mut out) {
        Err(refusal) => put_refusal(refusal),
        Ok(end) => {
            if end <= 300 {
                put_same(check::same(&out[..end], bytes));
            }
        }
    }
}

fn write_again(bytes: &[u8], settings: Settings, drawing: &Drawing)
    requires triangles_len { (length drawing.now.triangles.now ≡ 9 * length drawing.now.order.now) × (length drawing.now.order.now ≤ 4) }
    requires nodes_in_bounds { (3 * drawing.now.nodes ≤ length drawing.now.links.now) × (6 * drawing.now.nodes ≤ length drawing.now.boxes.now)
        × (drawing.now.nodes ≤ 7) }
{
    let mut out = [0; 400];
    let end = put_image(Version::One, settings, drawing, &mut out);
    put_same(check::same(&out[..end], bytes));
    write_tested(bytes, settings, drawing);
}

// Reads the image, with room for four triangles and seven nodes, and writes it again.
fn put_contents(bytes: &[u8]) {
    let mut triangles = [0.0; 36];
    let mut order = [0; 4];
    let mut links = [0; 21];
    let mut boxes = [0.0; 42];
    match read_image(bytes, &mut triangles, &mut order, &mut links, &mut boxes) {
        Err(refusal) => put_refusal(refusal),
        Ok(read) => {
            if read.triangles <= 4 && read.nodes <= 7 {
                let drawing = Drawing {
                    triangles: &triangles[..9 * read.triangles],
                    order: &order[..read.triangles],
                    links: &links,
                    boxes: &boxes,
                    nodes: read.nodes,
                };
                write_again(bytes, read.settings, &drawing);
            }
        }
    }
}

// Prints for the next case, if there is one that fits.
fn put_next() {
    let mut all = [0; 512];
    if let Some(bytes) = test_words::read_case(&mut all) {
        put_layouts(bytes);
        put_contents(bytes);
    }
}

fn main() {
    for _ in 0..1000 {
        put_next();
    }
    crate::large::put_all();
}
