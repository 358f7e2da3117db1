// One case of each kind: our answer beside the list's.
ghost use Rattle.std.specs.Prelude.{◌≡◌};
ghost use Rattle.shapes.specs.Values.{as_triangle};
ghost use Rattle.test_angles.specs.Cases as Cases;
ghost use Rattle.test_angles.specs.Values.{as_compared, as_kind};

use crate::words::{number_at, place, point_of, word_at};
use angles::arc_tangent::angle_or_nan;
use angles::root::root_or_nan;
use angles::solid_angle::solid_angle;
use shapes::triangle3::Triangle3;

// `theirs` is the word that the list has, and `right` says that ours is near enough.
#[derive(Clone, Copy)]
pub struct Case {
    pub right: bool,
    pub ours: f32,
    pub theirs: u32,
}

// What the cases of a section try.
#[derive(Clone, Copy)]
pub enum Kind {
    Root,
    Angle,
    Solid,
}

// How many words a case of a kind takes.
#[tactic(auto, unfolding(crate::specs::Cases::words_of))]
pub fn words_of(kind: Kind) -> usize
    ensures { result ≡ Cases.words_of (as_kind kind) }
{
    match kind {
        Kind::Root => 2,
        Kind::Angle => 4,
        Kind::Solid => 13,
    }
}

// Whether the two are within `most` of each other, or both a NaN.
#[tactic(auto, unfolding(crate::specs::Cases::near))]
pub fn is_near(ours: f32, theirs: f32, most: f32) -> bool
    ensures { result ≡ Cases.near ours theirs most }
{
    (floats::absolute(ours - theirs) <= most) | ((ours != ours) & (theirs != theirs))
}

#[tactic(auto, unfolding(crate::specs::Cases::root_case))]
fn root_case(block: &[u8], at: usize) -> Case
    ensures { as_compared result ≡ Cases.root_case block.now at }
{
    let ours = root_or_nan(number_at(block, at));
    let theirs = word_at(block, place(at, 1, 1));
    Case {
        right: floats::bits_of(ours) == theirs,
        ours,
        theirs,
    }
}

// Whether ours is within 2^-20 of theirs, which is a whole number of units of 2^-30: 1024 of them.
#[tactic(auto, unfolding(crate::specs::Cases::near_units))]
fn is_near_units(ours: f32, units: u32, below_zero: u32) -> bool
    ensures { result ≡ Cases.near_units ours units below_zero }
{
    let found = floats::cut(floats::absolute(ours) * 1073741824.0);
    let wanted = units as usize;
    if found > 4294967295 {
        return false;
    }
    let sign = floats::bits_of(ours) / 0x8000_0000;
    (found <= wanted + 1024) & (wanted <= found + 1024) & (sign == below_zero)
}

#[tactic(auto, unfolding(crate::specs::Cases::angle_case))]
fn angle_case(block: &[u8], at: usize) -> Case
    ensures { as_compared result ≡ Cases.angle_case block.now at }
{
    let ours = angle_or_nan(number_at(block, at), number_at(block, place(at, 1, 1)));
    let theirs = word_at(block, place(at, 1, 2));
    let below_zero = word_at(block, place(at, 1, 3));
    Case {
        right: is_near_units(ours, theirs, below_zero),
        ours,
        theirs,
    }
}

#[tactic(auto, unfolding(crate::specs::Cases::triangle_of))]
fn triangle_of(block: &[u8], at: usize) -> Triangle3
    ensures { as_triangle result ≡ Cases.triangle_of block.now at }
{
    Triangle3 {
        a: point_of(block, at),
        b: point_of(block, place(at, 1, 3)),
        c: point_of(block, place(at, 1, 6)),
    }
}

#[tactic(auto, unfolding(crate::specs::Cases::solid_case))]
fn solid_case(block: &[u8], at: usize) -> Case
    ensures { as_compared result ≡ Cases.solid_case block.now at }
{
    let ours = solid_angle(triangle_of(block, at), point_of(block, place(at, 1, 9)));
    let theirs = word_at(block, place(at, 1, 12));
    Case {
        right: is_near(ours, floats::from_bits(theirs), 0.0000019073486328125),
        ours,
        theirs,
    }
}

// The case of this kind from the word `at` on.
#[tactic(auto, unfolding(crate::specs::Cases::case_at))]
pub fn case_at(block: &[u8], kind: Kind, at: usize) -> Case
    ensures { as_compared result ≡ Cases.case_at block.now (as_kind kind) at }
{
    match kind {
        Kind::Root => root_case(block, at),
        Kind::Angle => angle_case(block, at),
        Kind::Solid => solid_case(block, at),
    }
}
