// Which of the two rules a build cuts by.
ghost use Rattle.std.specs.Prelude.{◌≡◌, ◌==◌};
ghost use Rattle.splits.specs.Values.{number_of};

#[derive(Clone, Copy, PartialEq, Eq)]
pub enum Strategy {
    Median,
    Area,
}

impl Strategy {
    // The strategy of this number among the settings: 1 is median, and any other number cuts by area, as the definition has it.
    pub fn of_number(number: usize) -> Strategy
        ensures { (number_of result == 1) ≡ (number == 1) }
    {
        if number == 1 {
            Strategy::Median
        } else {
            Strategy::Area
        }
    }
}
