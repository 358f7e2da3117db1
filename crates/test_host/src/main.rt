// Builds a drawing for each case on standard input, as a C host would, writes its image, reads that back and writes it again. Prints the statuses,
// in hex, and the lent bytes.
// A case is the strategy, the leaf minimum, the maximum depth and the number of lent bytes, two bytes each, then the length of the triangles' bytes,
// in four bytes, and the triangles' bytes. The lists have room for two triangles.
// tests/records/generate.rs made the cases and, by a reading of its own, `stdout`.
#![tactic(auto)]

use host_build::calls::build_lists;
use host_image::calls::{image_max, image_triangles, read_lists, write_lists};
use lists::drawing::Drawing;
use lists::settings::Settings;
use records::numbers::u16_at;
use test_words::cursor::Cursor;
use test_words::{read_case, read_next};

fn put_status(status: u64) {
    let mut line = [b'\n'; 17];
    let next = printing::numbers::put_hex(&mut line, 0, (status / 4294967296) as u32);
    printing::numbers::put_hex(&mut line, next, (status % 4294967296) as u32);
    io::write_all(1, &line);
}

// Reads the image back, and writes what was read into other bytes.
fn put_back(image: &[u8]) {
    let count = image_triangles(image);
    put_status(count);
    let mut settings = [0u32; 3];
    let mut triangles = [0.0f32; 18];
    let mut order = [0u32; 2];
    let mut links = [0u32; 9];
    let mut boxes = [0.0f32; 18];
    let nodes = read_lists(
        image,
        &mut settings,
        &mut triangles,
        &mut order,
        &mut links,
        &mut boxes,
    );
    put_status(nodes);
    if count <= 2 {
        let mut again = [b'.'; 256];
        let size = write_lists(
            settings[0] as usize,
            settings[1] as usize,
            settings[2] as usize,
            &triangles[0..9 * count as usize],
            &order[0..count as usize],
            &links,
            &boxes,
            nodes as usize,
            &mut again,
        );
        put_status(size);
        io::write_all(1, &again);
        io::write_all(1, b"\n");
    }
}

// Writes the image of what was built to these bytes, which hold nothing yet.
fn put_lent(settings: Settings, drawing: &Drawing, image: &mut [u8]) {
    let size = write_lists(
        settings.strategy,
        settings.leaf_minimum,
        settings.maximum_depth,
        drawing.triangles,
        drawing.order,
        drawing.links,
        drawing.boxes,
        drawing.nodes,
        image,
    );
    put_status(size);
    io::write_all(1, image);
    io::write_all(1, b"\n");
    let end = size as usize;
    if end <= image.len() {
        put_back(&image[0..end]);
    }
}

// Builds in lists with room for two triangles.
fn put_drawing(settings: Settings, triangles: &[f32], room: usize) {
    let mut order = [0u32; 2];
    let mut links = [0u32; 9];
    let mut boxes = [0.0f32; 18];
    let mut bounds = [0.0f32; 12];
    let mut centres = [0.0f32; 6];
    let mut scratch = [0u32; 2];
    let nodes = build_lists(
        settings.strategy,
        settings.leaf_minimum,
        settings.maximum_depth,
        triangles,
        &mut order,
        &mut links,
        &mut boxes,
        &mut bounds,
        &mut centres,
        &mut scratch,
    );
    put_status(nodes);
    let count = triangles.len() / 9;
    if nodes <= 3 && room <= 256 && count <= 2 {
        let drawing = Drawing {
            triangles,
            order: &order[0..count],
            links: &links,
            boxes: &boxes,
            nodes: nodes as usize,
        };
        let mut image = [b'.'; 256];
        put_lent(settings, &drawing, &mut image[0..room]);
    }
}

// Builds for the next case, if there is one that fits.
fn put_next() {
    let mut head = [0u8; 8];
    if read_next(8, &mut head).is_none() {
        return;
    }
    let mut all = [0; 256];
    if let Some(bytes) = read_case(&mut all) {
        let settings = Settings {
            strategy: u16_at(&head, 0) as usize,
            leaf_minimum: u16_at(&head, 2) as usize,
            maximum_depth: u16_at(&head, 4) as usize,
        };
        let mut case = Cursor { bytes, at: 0 };
        let mut numbers = [0.0f32; 64];
        let triangles = case.fill(bytes.len() / 4, &mut numbers);
        put_drawing(settings, triangles, u16_at(&head, 6) as usize);
    }
}

// The sizes that a host lends room by: of each version the largest, and where there is none.
const COUNTS: [usize; 6] = [0, 1, 4096, 4097, 65536, 65537];

fn main() {
    for _ in 0..100 {
        put_next();
    }
    for count in COUNTS {
        put_status(image_max(count));
    }
}
