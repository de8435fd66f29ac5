ghost use Rattle.std.specs.Prelude.{◌≡◌};
ghost use Rattle.sheets.specs.Opening.{may_stand, awaited_after};

use crate::tag::Tag;

// What the next field of a sheet has to be: a floor first, then a preference, and calls of the table from then on.
#[derive(Clone, Copy, PartialEq, Eq, Debug)]
pub enum Awaited {
    Floor,
    Preference,
    Call,
}

impl Awaited {
    // Whether a field of this kind may stand here.
    pub(crate) fn admits(self, tag: Tag) -> bool
        ensures { result ≡ may_stand self tag }
    {
        match tag {
            Tag::OpenFloor | Tag::DrawnFloor => self == Awaited::Floor,
            Tag::Preference => self == Awaited::Preference,
            Tag::Place | Tag::Assign | Tag::Lift | Tag::Beat => self == Awaited::Call,
        }
    }

    // What comes after the field that was awaited.
    pub(crate) fn next(self) -> Awaited
        ensures { result ≡ awaited_after self }
    {
        match self {
            Awaited::Floor => Awaited::Preference,
            Awaited::Preference | Awaited::Call => Awaited::Call,
        }
    }
}
