// Why a call refuses. A test answers `Ok(())`, or the refusal with the place of what is wrong; a row of tests is `a?; b?; c`.
ghost use Rattle.std.specs.Prelude.{◌≡◌};
ghost use Rattle.spec_lists.specs.Refusals as Refusals;
ghost use Rattle.lists.specs.Values as Values;

#[derive(Clone, Copy, Debug, PartialEq, Eq)]
pub enum Refusal {
    // The length of the triangle list is no multiple of nine; it holds no triangle; it holds more than the limit.
    RaggedTriangles,
    NoTriangle,
    TooManyTriangles,
    // The number at this index of the triangle list is no coordinate.
    BadCoordinate(usize),
    // A setting, a measuring rule or how many answers are asked for is out of range.
    BadSetting,
    // An output is shorter than it needs to be.
    NoRoom,
    // The order list at this entry; the count of the nodes; the listing, the depth, the box at this node.
    BadOrder(usize),
    BadNodeCount,
    BadListing(usize),
    TooDeep(usize),
    BadBox(usize),
    // The point list: its length where it is ragged, else the index of the first number that is no coordinate.
    BadPoint(usize),
    BadDistance,
    // The offset of the first wrong record of an image or an input.
    BadLayout(usize),
    // The size of an STL, which is another than its count says.
    BadStlSize(usize),
    BadScale,
}

impl Refusal {
    // The number by which the table of refusals lists it.
    pub fn number(self) -> usize
        ensures { result ≡ Values.number_of self }
    {
        match self {
            Refusal::RaggedTriangles => 1,
            Refusal::NoTriangle => 2,
            Refusal::TooManyTriangles => 3,
            Refusal::BadCoordinate(_) => 4,
            Refusal::BadSetting => 5,
            Refusal::NoRoom => 6,
            Refusal::BadOrder(_) => 71,
            Refusal::BadNodeCount => 72,
            Refusal::BadListing(_) => 73,
            Refusal::TooDeep(_) => 74,
            Refusal::BadBox(_) => 75,
            Refusal::BadPoint(_) => 8,
            Refusal::BadDistance => 9,
            Refusal::BadLayout(_) => 10,
            Refusal::BadStlSize(_) => 11,
            Refusal::BadScale => 14,
        }
    }

    // The place of what is wrong, 0 where there is none to tell.
    pub fn place(self) -> usize
        ensures { result ≡ Values.place_of self }
    {
        match self {
            Refusal::BadCoordinate(place)
            | Refusal::BadOrder(place)
            | Refusal::BadListing(place)
            | Refusal::TooDeep(place)
            | Refusal::BadBox(place)
            | Refusal::BadPoint(place)
            | Refusal::BadLayout(place)
            | Refusal::BadStlSize(place) => place,
            Refusal::RaggedTriangles
            | Refusal::NoTriangle
            | Refusal::TooManyTriangles
            | Refusal::BadSetting
            | Refusal::NoRoom
            | Refusal::BadNodeCount
            | Refusal::BadDistance
            | Refusal::BadScale => 0,
        }
    }
}

// This refusal where the flag is set, else a pass.
pub fn refused_if(refuses: bool, refusal: Refusal) -> Result<(), Refusal>
    ensures { Values.as_verdict result ≡ Refusals.refused_if refuses (Values.number_of refusal) (Values.place_of refusal) }
{
    if refuses { Err(refusal) } else { Ok(()) }
}

// A refusal by its number and place alone: of the table above or of another.
#[derive(Clone, Copy, Debug, PartialEq, Eq)]
pub struct Listed {
    pub number: usize,
    pub place: usize,
}

// A refusal with this number and place where the flag is set, else a pass.
pub fn listed_if(refuses: bool, number: usize, place: usize) -> Result<(), Listed>
    ensures { Values.as_listed result ≡ Refusals.refused_if refuses number place }
{
    if refuses {
        Err(Listed { number, place })
    } else {
        Ok(())
    }
}

// 6: an output of `given` entries is shorter than it needs to be.
pub fn room_refusal(given: usize, need: usize) -> Result<(), Refusal>
    ensures { Values.as_verdict result ≡ Refusals.room_refusal given need }
{
    refused_if(given < need, Refusal::NoRoom)
}
