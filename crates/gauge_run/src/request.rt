// A request, which is what the records of the input hold, and its tests.
ghost use Rattle.std.specs.Prelude.{◌≡◌};
ghost use Rattle.lists.specs.Values.{as_verdict};
ghost use Rattle.spec_gauge.specs.Printed.{request_refusal};
ghost use Rattle.gauge_run.specs.Values.{as_request};

use image::write::leaf_refusal;
use lists::refusal::Refusal;
use lists::settings::{Settings, settings_refusal};
use lists::tests::{distance_refusal, points_refusal, triangles_refusal};
use queries::rules::rule_refusal;
use records::versions::Version;

#[derive(Clone, Copy)]
pub struct Request<'a> {
    pub triangles: &'a [f32],
    pub settings: Settings,
    pub points: &'a [f32],
    pub distance: f32,
    pub rule: u32,
}

impl Request<'_> {
    // The first of the tests 1 to 5, 8 and 9 that refuses.
    pub fn refusal(&self) -> Result<(), Refusal>
        ensures { as_verdict result ≡ request_refusal (as_request self.now) }
    {
        triangles_refusal(self.triangles)?;
        settings_refusal(self.settings)?;
        leaf_refusal(Version::One, self.settings)?;
        rule_refusal(self.rule)?;
        points_refusal(self.points)?;
        distance_refusal(self.distance)
    }
}
