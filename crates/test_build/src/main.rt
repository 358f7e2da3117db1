// Prints what the build makes of many triangles, and what it answers where the room just suffices or just does not.
// The file `stdout` beside src/ has the trees of the Rust, from tests/oracle/large.rs, and at its end eight lines written by hand.
#![tactic(auto)]

mod large;
mod rooms;

fn main() {
    crate::large::put_all();
    crate::rooms::put_all();
}
