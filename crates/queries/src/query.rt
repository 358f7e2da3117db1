// What a query answers at one point.
ghost use Rattle.std.specs.Prelude.{◌≡◌, ◌≤◌};
ghost use Rattle.std.specs.Float.{binary32};
ghost use Rattle.shapes.specs.Values.{as_point};
ghost use Rattle.spec_numbers.specs.Axes.{Finite};
ghost use Rattle.spec_shapes.specs.Points as Points;
ghost use Rattle.spec_lists.specs.Passed.{GoodDistance};
ghost use Rattle.spec_search.specs.Rules.{rule_of};
ghost use Rattle.spec_search.specs.Calls.{most_few, Searchable, few_answer, source_answer};
ghost use Rattle.walks.specs.Places as Kept;
ghost use Rattle.walks.specs.Values.{as_answer};

use lists::drawing::Drawing;
use shapes::vec3::Vec3;
use walks::answer::{Hit, Probe};
use walks::places::Places;
use walks::{source, sure};

// Leaves the nearest few at one point in the places: those of a scan of all triangles.
pub fn few_at(
    drawing: &Drawing,
    p: Vec3,
    distance: f32,
    rule: u32,
    most: usize,
    places: &mut Places,
)
    requires searchable { Searchable drawing.now.triangles.now drawing.now.order.now drawing.now.links.now drawing.now.boxes.now drawing.now.nodes }
    requires finite { Finite (Points.at (as_point p)) }
    requires good_distance { GoodDistance distance }
    requires le_most { (1 ≤ most) × (most ≤ most_few) }
    ensures { Kept.Answered places.new.best places.new.which most
        (few_answer binary32 (rule_of rule) most drawing.now.triangles.now distance (as_point p)) }
{
    let probe = Probe {
        point: p,
        limit: distance * distance,
    };
    sure::search(drawing, probe, rule, most, places);
}

// The answer of the source's walk at one point.
#[tactic(auto, unfolding(spec_search::specs::Calls::source_answer, spec_search::specs::Rules::limit_squared))]
pub fn source_at(drawing: &Drawing, p: Vec3, distance: f32) -> Option<Hit>
    requires { Searchable drawing.now.triangles.now drawing.now.order.now drawing.now.links.now drawing.now.boxes.now drawing.now.nodes }
    ensures { as_answer result ≡ source_answer binary32 drawing.now.triangles.now drawing.now.order.now drawing.now.links.now
        drawing.now.boxes.now drawing.now.nodes distance (as_point p) }
{
    let probe = Probe {
        point: p,
        limit: distance * distance,
    };
    source::search(drawing, probe).best
}
