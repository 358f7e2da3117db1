// The status: the one u64 that a call of a C host returns. It is a count where the call is done, else the number and place of a refusal.
ghost use Rattle.std.specs.Prelude.{◌≡◌};
ghost use Rattle.spec_host.specs.Status as Status;
ghost use Rattle.lists.specs.Values as Refusals;
ghost use Rattle.host_bytes.specs.Values as Values;

use lists::refusal::Refusal;

const TOP_BIT: u64 = 9223372036854775808;

const TOP_BYTE: u64 = 72057594037927936;

const LAST_PLACE: usize = 72057594037927935;

// The place as 56 bits tell it: the length of a longer slice, which no machine can address, as the largest place that they hold.
pub fn told_place(place: usize) -> usize
    ensures { result ≡ Status.told_place place }
{
    place.min(LAST_PLACE)
}

// The status of a refusal of this number, at this place. An 8 sets the top bit, since its place may be large; any other number stands in the top byte.
pub fn encode_at(number: usize, place: usize) -> u64
    requires { Status.Placed number place }
    ensures { result ≡ Status.refusal_status number place }
{
    if number == 8 {
        return TOP_BIT + place as u64;
    }
    number as u64 * TOP_BYTE + place as u64
}

// The status of a refusal.
pub fn encode_refusal(refusal: Refusal) -> u64
    requires { Status.Placed (Refusals.number_of refusal) (Refusals.place_of refusal) }
    ensures { result ≡ Status.refusal_status (Refusals.number_of refusal) (Refusals.place_of refusal) }
{
    encode_at(refusal.number(), refusal.place())
}

// The status of a refusal whose place may be longer than 56 bits tell.
pub fn encode_told(refusal: Refusal) -> u64
    requires { Status.Placed (Refusals.number_of refusal) (Status.told_place (Refusals.place_of refusal)) }
    ensures { result
        ≡ Status.refusal_status (Refusals.number_of refusal) (Status.told_place (Refusals.place_of refusal)) }
{
    encode_at(refusal.number(), told_place(refusal.place()))
}

// The status of a call that is done with this count, or refused.
pub fn encode(answer: Result<usize, Refusal>) -> u64
    requires { Status.InPlace (Values.verdict_of answer) }
    ensures { result ≡ Status.status (Values.verdict_of answer) (Values.count_of answer) }
{
    match answer {
        Ok(count) => count as u64,
        Err(refusal) => encode_refusal(refusal),
    }
}
