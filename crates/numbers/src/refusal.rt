// What an entry is refused for: document 01's table, but for its 0, which is an answer that is done.
ghost use Rattle.std.specs.Prelude.{◌≡◌};
ghost use Rattle.numbers.specs.Numbers.{number_of, number};

use super::DONE;

#[derive(Clone, Copy, Debug, PartialEq, Eq)]
pub enum Refusal {
    NoRoom = 1,
    TooLarge = 2,
    WrongLength = 3,
    NoLayers = 4,
    OffPaper = 5,
    TooMany = 6,
    Short = 7,
    TooTall = 8,
    BadCanvas = 9,
    EmptyArea = 10,
    BadJob = 11,
    TooLong = 12,
    NotTranslated = 13,
    BadPlan = 14,
    NoRow = 15,
    LayerSize = 16,
}

impl Refusal {
    pub fn number(self) -> u8
        ensures { result ≡ number_of self }
    {
        self as u8
    }
}

// The number of an answer that says nothing but whether it is done.
pub fn number(answer: Result<(), Refusal>) -> u8
    ensures { result ≡ number answer }
{
    match answer {
        Ok(()) => DONE,
        Err(why) => why.number(),
    }
}
