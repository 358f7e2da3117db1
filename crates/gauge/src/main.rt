// gauge: reads records from standard input and prints the run.
// It reads one byte more than it accepts, so that it can tell a longer input from one that fits.
#![tactic(auto)]

fn main() {
    let mut input = [0u8; 32769];
    let got = io::read_full(0, &mut input);
    let mut out = [0u8; gauge_run::run::MAX_PRINTED];
    let size = gauge_run::run::print(&input[..got], &mut out);
    io::write_all(1, &out[..size]);
}
