// Trees of up to 4,097 triangles that a rule of numbers makes, printed as counts and digests.
use build::calls::{Built, build};
use lists::settings::Settings;
use test_words::Word;

#[derive(Clone, Copy)]
struct Case {
    triangles: usize,
    settings: Settings,
    range: u64,
}

fn next(state: u64) -> u64 {
    (state % 2147483648 * 1103515245 + 12345) % 2147483648
}

// A coordinate in sixteenths, below 2 ^ 20.
fn coordinate(state: u64, range: u64, index: usize) -> f32 {
    let spread = state / 256 % (range % 1048576 + 1) % 1048576;
    let shift = (index / 9 % 4096 * 37 % 1024) as u64;
    let sixteenths = (spread + shift) % 4294967296;
    std::num::nearest_u32_to_f32(sixteenths as u32) / 16.0
}

fn fill(triangles: &mut [f32], range: u64) {
    let mut state: u64 = 1;
    for (i, entry) in triangles.iter_mut().enumerate() {
        state = next(state);
        *entry = coordinate(state, range, i);
    }
}

// The digest with one word more.
fn with_word(digest: u64, word: u32) -> u64 {
    (digest % 4294967291 * 31 + word as u64) % 4294967291
}

fn digest<T: Word>(list: &[T]) -> u64 {
    list.iter()
        .fold(7, |digest, entry| with_word(digest, entry.pattern()))
}

fn put(n: u64) {
    io::print_decimal(1, n);
    io::write_all(1, b" ");
}

fn put_tree(built: Built, order: &[u32], links: &[u32], boxes: &[f32]) {
    put(built.nodes as u64);
    put(built.depth as u64);
    put(digest(order));
    let kinds = 3 * (built.nodes % 8194);
    let numbers = 6 * (built.nodes % 8194);
    if kinds <= links.len() {
        put(digest(&links[0..kinds]));
    }
    if numbers <= boxes.len() {
        put(digest(&boxes[0..numbers]));
    }
    io::write_all(1, b"\n");
}

fn put_case(case: Case) {
    put(case.triangles as u64);
    put(case.settings.strategy as u64);
    put(case.settings.leaf_minimum as u64);
    put(case.settings.maximum_depth as u64);
    put(case.range);
}

fn build_into(
    case: Case,
    triangles: &[f32],
    order: &mut [u32],
    links: &mut [u32],
    boxes: &mut [f32],
) {
    let mut bounds = [7.0f32; 24582];
    let mut centres = [7.0f32; 12291];
    let mut scratch = [7u32; 4097];
    let told = build(
        triangles,
        case.settings,
        order,
        links,
        boxes,
        &mut bounds,
        &mut centres,
        &mut scratch,
    );
    match told {
        Ok(built) => put_tree(built, order, links, boxes),
        Err(refusal) => {
            put(refusal.number() as u64);
            put(refusal.place() as u64);
        }
    }
}

fn build_case(case: Case, triangles: &[f32]) {
    let mut all = [7u32; 4097];
    let mut links = [7u32; 24579];
    let mut boxes = [7.0f32; 49158];
    let order = &mut all[0..case.triangles % 4098];
    build_into(case, triangles, order, &mut links, &mut boxes);
}

fn run(case: Case) {
    put_case(case);
    let mut all = [0.0f32; 36873];
    let triangles = &mut all[0..9 * (case.triangles % 4098)];
    fill(triangles, case.range);
    build_case(case, triangles);
}

fn run_both(triangles: usize, leaf_minimum: usize, maximum_depth: usize, range: u64) {
    for strategy in [1, 2] {
        run(Case {
            triangles,
            settings: Settings {
                strategy,
                leaf_minimum,
                maximum_depth,
            },
            range,
        });
    }
}

pub(crate) fn put_all() {
    run_both(4096, 1, 64, 1000);
    run_both(4096, 10, 40, 100000);
    run_both(4097, 1, 64, 1000);
    run_both(4097, 4097, 40, 1000);
    run_both(4095, 1, 12, 15);
    run_both(2048, 2, 64, 0);
    run_both(1000, 3, 40, 31);
    run_both(257, 1, 40, 7);
    run_both(100, 99, 40, 500);
    run_both(100, 100, 40, 500);
    run_both(64, 1, 0, 500);
    run_both(64, 1, 2, 500);
}
