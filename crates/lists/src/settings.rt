// The settings of a build: strategy 1 is the median split, 2 is the area split.
ghost use Rattle.std.specs.Prelude.{◌≡◌};
ghost use Rattle.spec_lists.specs.Refusals as Refusals;
ghost use Rattle.lists.specs.Values as Values;

use crate::limits;
use crate::refusal::{Refusal, refused_if};

// Kept: (a) the strategy by its number, as a host sets it and an image keeps it: any number has to come as far as `settings_refusal`.
#[derive(Clone, Copy)]
pub struct Settings {
    pub strategy: usize,
    pub leaf_minimum: usize,
    pub maximum_depth: usize,
}

// Whether each setting is in range.
fn are_settings(s: Settings) -> bool
    ensures { result ≡ Refusals.are_settings (Values.as_settings s) }
{
    (1 <= s.strategy)
        & (s.strategy <= 2)
        & (1 <= s.leaf_minimum)
        & (s.leaf_minimum <= limits::MAX_LEAF_MINIMUM)
        & (s.maximum_depth <= limits::DEEPEST)
}

// 5: a setting is out of range.
pub fn settings_refusal(settings: Settings) -> Result<(), Refusal>
    ensures { Values.as_verdict result ≡ Refusals.settings_refusal (Values.as_settings settings) }
{
    refused_if(!are_settings(settings), Refusal::BadSetting)
}
