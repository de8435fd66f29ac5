ghost use Rattle.std.specs.Prelude.{◌≡◌};
ghost use Rattle.base.specs.Refusals.{refusal_number};

// Why the planner says no. docs/REFUSALS.md has the exact condition of each.
#[derive(Clone, Copy, PartialEq, Eq, Debug)]
pub enum Refusal {
    Size = 1,
    Ragged = 2,
    Stranger = 3,
    SelfPair = 4,
    Twice = 5,
    Crowded = 6,
    Split = 7,
    Neck = 8,
    ShortList = 9,
    NoMover = 10,
    NoTile = 11,
    Aboard = 12,
    Absent = 13,
    Taken = 14,
    UnderWay = 15,
    Long = 16,
    Cut = 17,
    Tag = 18,
    Length = 19,
    Opening = 20,
    Value = 21,
}

impl From<Refusal> for u8 {
    ghost from_gives = { λ refusal number. number ≡ refusal_number refusal };

    fn from(refusal: Refusal) -> u8 {
        refusal as u8
    }
}

impl Refusal {
    // The number by which sheets, programs and people know the refusal.
    pub fn number(self) -> u8
        ensures { result ≡ refusal_number self }
    {
        u8::from(self)
    }
}
