// What the build answers for two triangles with rooms that just suffice, and with one room an entry short; and what the working lists hold afterwards.
ghost use Rattle.std.specs.Prelude.{◌≤◌};

use build::calls::{Built, build};
use lists::refusal::Refusal;
use lists::settings::Settings;
use test_words::{put_number, put_refusal};

fn put_built(told: Result<Built, Refusal>) {
    match told {
        Ok(built) => {
            io::write_all(1, b" nodes");
            put_number(built.nodes);
            io::write_all(1, b" depth");
            put_number(built.depth);
        }
        Err(refusal) => {
            io::write_all(1, b" ");
            put_refusal(refusal);
        }
    }
}

// The entries of a working list: 7 as before the call, else the bits.
fn put_floats(list: &[f32]) {
    for x in list {
        if *x == 7.0 {
            put_number(7);
        } else {
            put_number(floats::bits_of(*x) as usize);
        }
    }
}

fn put_numbers(list: &[u32]) {
    for x in list {
        put_number(*x as usize);
    }
}

// T0 and T1 of the printed run.
const TRIANGLES: [f32; 18] = [
    0.0, 0.0, 0.0, 1.0, 0.0, 0.0, 0.0, 1.0, 0.0, 10.0, 0.0, 0.0, 11.0, 0.0, 0.0, 10.0, 1.0, 0.0,
];

// How many entries of each list are lent.
#[derive(Clone, Copy)]
struct Rooms {
    order: usize,
    links: usize,
    boxes: usize,
    bounds: usize,
    centres: usize,
    scratch: usize,
}

// Rooms that just suffice.
const ENOUGH: Rooms = Rooms {
    order: 2,
    links: 9,
    boxes: 18,
    bounds: 12,
    centres: 6,
    scratch: 2,
};

// Builds in rooms of these lengths, and prints the answer and the whole working lists, which are one entry longer than they need to be.
fn put_rooms(name: &[u8], rooms: Rooms)
    requires tree { (rooms.order ≤ 2) × (rooms.links ≤ 9) × (rooms.boxes ≤ 18) }
    requires working { (rooms.bounds ≤ 13) × (rooms.centres ≤ 7) × (rooms.scratch ≤ 3) }
{
    let mut order = [7u32; 2];
    let mut links = [7u32; 9];
    let mut boxes = [7.0f32; 18];
    let mut bounds = [7.0f32; 13];
    let mut centres = [7.0f32; 7];
    let mut scratch = [7u32; 3];
    let settings = Settings {
        strategy: 1,
        leaf_minimum: 1,
        maximum_depth: 40,
    };
    let told = build(
        &TRIANGLES,
        settings,
        &mut order[0..rooms.order],
        &mut links[0..rooms.links],
        &mut boxes[0..rooms.boxes],
        &mut bounds[0..rooms.bounds],
        &mut centres[0..rooms.centres],
        &mut scratch[0..rooms.scratch],
    );
    io::write_all(1, name);
    put_built(told);
    io::write_all(1, b", bounds");
    put_floats(&bounds);
    io::write_all(1, b" centres");
    put_floats(&centres);
    io::write_all(1, b" scratch");
    put_numbers(&scratch);
    io::write_all(1, b"\n");
}

pub(crate) fn put_all() {
    put_rooms(b"room for all:", ENOUGH);
    put_rooms(
        b"room for more:",
        Rooms {
            bounds: 13,
            centres: 7,
            scratch: 3,
            ..ENOUGH
        },
    );
    put_rooms(b"order one short:", Rooms { order: 1, ..ENOUGH });
    put_rooms(b"links one short:", Rooms { links: 8, ..ENOUGH });
    put_rooms(
        b"boxes one short:",
        Rooms {
            boxes: 17,
            ..ENOUGH
        },
    );
    put_rooms(
        b"bounds one short:",
        Rooms {
            bounds: 11,
            ..ENOUGH
        },
    );
    put_rooms(
        b"centres one short:",
        Rooms {
            centres: 5,
            ..ENOUGH
        },
    );
    put_rooms(
        b"scratch one short:",
        Rooms {
            scratch: 1,
            ..ENOUGH
        },
    );
}
