// Prints what gauge prints for each of many inputs. They stand one behind the other on standard input, each behind its length
// (tests/gauge made the list, and what must be printed).
#![tactic(auto)]

fn print_one(input: &[u8]) {
    let mut out = [0u8; gauge_run::run::MAX_PRINTED];
    let size = gauge_run::run::print(input, &mut out);
    io::write_all(1, &out[..size]);
}

// Prints for the next input, if there is one that fits.
fn print_next() {
    let mut all = [0u8; 32769];
    if let Some(input) = test_words::read_case(&mut all) {
        print_one(input);
    }
}

fn main() {
    for _ in 0..2000 {
        print_next();
    }
}
