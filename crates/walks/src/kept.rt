// What the source's walk keeps: a hit in slot 0, where an infinite squared distance stands for nothing kept.
ghost use Rattle.std.specs.Prelude.{◌≡◌};
ghost use Rattle.spec_search.specs.Source as Source;
ghost use Rattle.walks.specs.declared.answer.Measures.TheVariants.{Computed};
ghost use Rattle.walks.specs.Places as Kept;
ghost use Rattle.walks.specs.Values as Values;

use crate::answer::Hit;
use crate::places::Places;

impl Places {
    // Keeps the hit where it is strictly smaller. The source's walk uses it.
    #[tactic(auto, using(spec_search::proofs::Kept::kept_smaller, spec_search::proofs::Kept::kept_no_smaller), unfolding(crate::specs::Places::slot_at))]
    pub fn keep_smaller(&mut self, hit: Hit)
        ensures { Kept.Holds Computed self.new.best self.new.which (Kept.most_of self.old.which)
            (Source.keep_smaller (Values.as_hit hit) (Kept.kept_in Computed self.old.best self.old.which)) }
    {
        if hit.squared < self.best[3] {
            self.put_slot(0, hit);
        }
    }

    // What the source's walk keeps, as an answer.
    pub fn answer(&self) -> Option<Hit>
        ensures { Values.as_answer result ≡ Kept.kept_in Computed self.now.best self.now.which }
    {
        let hit = self.slot_at(0);
        if hit.squared == f32::INFINITY {
            return None;
        }
        Some(hit)
    }
}
