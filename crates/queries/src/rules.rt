// The tests of what a query chooses: its measuring rule, and how many answers a point has.
ghost use Rattle.std.specs.Prelude.{◌≡◌};
ghost use Rattle.lists.specs.Values.{as_verdict};
ghost use Rattle.spec_search.specs.Rules.{rule_refusal};
ghost use Rattle.spec_search.specs.Calls.{most_refusal, choice_refusal, most_by};
ghost use Rattle.walks.specs.Values.{as_query};

use lists::refusal::{Refusal, refused_if};
use walks::answer::Query;

// 5: a rule other than 1 and 2.
#[tactic(auto, unfolding(spec_search::specs::Rules::rule_refusal))]
pub fn rule_refusal(rule: u32) -> Result<(), Refusal>
    ensures { as_verdict result ≡ rule_refusal rule }
{
    refused_if(!((rule == 1) | (rule == 2)), Refusal::BadSetting)
}

// 5: so many answers a point, other than 1 to 16.
#[tactic(auto, unfolding(spec_search::specs::Calls::most_refusal))]
pub fn most_refusal(most: u32) -> Result<(), Refusal>
    ensures { as_verdict result ≡ most_refusal most }
{
    refused_if(!((most >= 1) & (most <= 16)), Refusal::BadSetting)
}

// 5 of a sure query's rule, and of how many answers are asked for. The source query has neither.
pub fn choice_refusal(query: Query) -> Result<(), Refusal>
    ensures { as_verdict result ≡ choice_refusal (as_query query) }
{
    match query {
        Query::Sure { rule } => rule_refusal(rule),
        Query::Few { rule, most } => {
            rule_refusal(rule)?;
            most_refusal(most)
        }
        Query::Source => Ok(()),
    }
}

// How many answers a point has.
pub fn most_by(query: Query) -> usize
    ensures { result ≡ most_by (as_query query) }
{
    match query {
        Query::Few { rule: _, most } => most as usize,
        Query::Sure { .. } | Query::Source => 1,
    }
}
