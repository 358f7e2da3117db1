// What a walk keeps, lent from call to call: the places of the nearest few, four numbers a place for a point with its squared distance, two for its
// triangle and its part, and behind those the number of places. The last place, which decides what is skipped, comes first, so that it stands at a fixed
// index; the nearest comes last.
ghost use Rattle.std.specs.Prelude.{◌≡◌, true, ◌≤◌, ◌<◌, take};
ghost use Rattle.spec_search.specs.Answers as Answers;
ghost use Rattle.spec_search.specs.Few as Few;
ghost use Rattle.spec_search.specs.Marked as Marked;
ghost use Rattle.spec_search.specs.Ranked as Ranked;
ghost use Rattle.spec_search.specs.Calls.{most_few};
ghost use Rattle.walks.specs.declared.answer.Measures.TheVariants.{Held};
ghost use Rattle.walks.specs.Places as Kept;
ghost use Rattle.walks.specs.Values as Values;

use crate::answer::Hit;
use shapes::vec3::Vec3;

// The number of a marker: no triangle has it.
pub const NO_TRIANGLE: u32 = u32::MAX;

// How many places there are at most.
pub const MOST_FEW: usize = 16;

// How many numbers the lists of places have, and at which index of the second the number of places stands.
pub const BEST: usize = 4 * MOST_FEW;

pub const WHICH: usize = 2 * MOST_FEW + 1;

pub const MOST_AT: usize = 2 * MOST_FEW;

// The two lists.
// Kept: (d) `hits: [Hit; MOST_FEW], most: usize`: a hit put by value is six stores as well, and the definitions (walks/specs/Places) are of two lists.
#[derive(Drop)]
pub struct Places {
    pub best: [f32; BEST],
    pub which: [u32; WHICH],
}

impl Places {
    // The lists as they are lent, all numbers zero.
    pub fn new() -> Places
        ensures { Kept.Lent result.best result.which }
    {
        Places {
            best: [0.0; BEST],
            which: [0; WHICH],
        }
    }

    // Puts the hit at slot j.
    pub fn put_slot(&mut self, j: usize, hit: Hit)
        requires { j < most_few }
        ensures { Kept.PutAt self.old.best self.old.which j (Values.as_hit hit) self.new.best self.new.which }
    {
        self.best[4 * j] = hit.point.x;
        self.best[4 * j + 1] = hit.point.y;
        self.best[4 * j + 2] = hit.point.z;
        self.best[4 * j + 3] = hit.squared;
        self.which[2 * j] = hit.triangle;
        self.which[2 * j + 1] = hit.part;
    }

    // The hit at slot j.
    #[tactic(auto, unfolding(crate::specs::Places::slot_at))]
    pub fn slot_at(&self, j: usize) -> Hit
        requires { j < most_few }
        ensures { Values.as_hit result ≡ Kept.slot_at self.now.best self.now.which j }
    {
        let point = Vec3 {
            x: self.best[4 * j],
            y: self.best[4 * j + 1],
            z: self.best[4 * j + 2],
        };
        Hit {
            point,
            squared: self.best[4 * j + 3],
            triangle: self.which[2 * j],
            part: self.which[2 * j + 1],
        }
    }

    // Whether the hit goes before that at slot j: it is smaller, or equal to it with a lower triangle number.
    #[tactic(auto, unfolding(crate::specs::Places::slot_at))]
    fn goes_before(&self, hit: Hit, j: usize) -> bool
        requires { j < most_few }
        ensures { result
            ≡ Ranked.before Answers.squared_of Answers.number_of (Values.as_hit hit) (Kept.slot_at self.now.best self.now.which j) }
    {
        let squared = self.best[4 * j + 3];
        (hit.squared < squared) | ((hit.squared == squared) & (hit.triangle < self.which[2 * j]))
    }

    // Puts the hit, which goes before the last place, where it goes: the last place is given up, and those behind the hit move
    // back by one.
    fn insert(&mut self, hit: Hit)
        requires sound { Kept.Sound self.old.best self.old.which }
        requires before_last { Ranked.before Answers.squared_of Answers.number_of (Values.as_hit hit)
            (Kept.slot_at self.old.best self.old.which 0) ≡ true }
        ensures { Kept.Holds Held self.new.best self.new.which (Kept.most_of self.old.which)
            (take (Kept.most_of self.old.which) (Ranked.inserted Answers.squared_of Answers.number_of (Values.as_hit hit)
            (Kept.places_of self.old.best self.old.which))) }
    {
        let nearest = self.which[MOST_AT] as usize - 1;
        for j in 0..nearest {
            if !self.goes_before(hit, j + 1) {
                self.put_slot(j, hit);
                return;
            }
            let next = self.slot_at(j + 1);
            self.put_slot(j, next);
        }
        self.put_slot(nearest, hit);
    }

    // Whether a box at this squared distance is skipped: the distance does not count, or is above the last place.
    #[tactic(auto, using(crate::proofs::Slots::skipped_by_last), unfolding(crate::specs::Places::slot_at, spec_search::specs::Rules::counts))]
    pub fn is_skipped(&self, limit: f32, squared: f32) -> bool
        requires { Kept.Sound self.now.best self.now.which }
        ensures { result ≡ Few.is_skipped (Kept.most_of self.now.which) (Marked.below limit) squared
            (Kept.places_of self.now.best self.now.which) }
    {
        !(squared < limit) | (self.best[3] < squared)
    }

    // Keeps the hit where it counts and goes before the last place.
    #[tactic(auto, using(crate::proofs::Slots::offer_inserts, crate::proofs::Slots::offer_keeps), unfolding(spec_search::specs::Rules::counts))]
    pub fn offer(&mut self, limit: f32, hit: Hit)
        requires { Kept.Sound self.old.best self.old.which }
        ensures { Kept.Holds Held self.new.best self.new.which (Kept.most_of self.old.which)
            (Few.offered_few (Kept.most_of self.old.which) (Marked.below limit) (Values.as_hit hit)
            (Kept.places_of self.old.best self.old.which)) }
    {
        if (hit.squared < limit) & self.goes_before(hit, 0) {
            self.insert(hit);
        }
    }

    // Fills so many places with markers.
    #[tactic(auto, using(crate::proofs::Slots::marked_places))]
    pub fn start(&mut self, most: usize, squared: f32)
        requires { (1 ≤ most) × (most ≤ most_few) }
        ensures { Kept.Holds Held self.new.best self.new.which most (Marked.markers most squared) }
    {
        self.which[MOST_AT] = most as u32;
        let marker = Hit {
            point: Vec3 {
                x: 0.0,
                y: 0.0,
                z: 0.0,
            },
            squared,
            triangle: NO_TRIANGLE,
            part: 0,
        };
        for j in 0..most {
            self.put_slot(j, marker);
        }
    }

    // The answer at place j, from 0: nothing where the place is still a marker's.
    #[tactic(auto, unfolding(spec_search::specs::Marked::unmarked))]
    pub fn answer_at(&self, j: usize) -> Option<Hit>
        requires { (j < Kept.most_of self.now.which) × (Kept.most_of self.now.which ≤ most_few) }
        ensures { Values.as_answer result ≡ Kept.answer_of self.now.best self.now.which j }
    {
        let hit = self.slot_at(self.which[MOST_AT] as usize - 1 - j);
        if hit.triangle == NO_TRIANGLE {
            return None;
        }
        Some(hit)
    }
}
