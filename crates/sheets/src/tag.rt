ghost use Rattle.std.specs.Prelude.{◌≡◌};
ghost use Rattle.std.specs.Option.{ok_or};
ghost use Rattle.base.specs.declared.refusal.Refusal.TheVariants as refusal;
ghost use Rattle.sheets.specs.Numbers.{tag_of};
ghost use Rattle.sheets.specs.Suits.{length_suits};

use base::Refusal;

// The kinds of field.
#[derive(Clone, Copy, PartialEq, Eq, Debug)]
pub enum Tag {
    OpenFloor = 1,
    DrawnFloor = 2,
    Preference = 3,
    Place = 4,
    Assign = 5,
    Lift = 6,
    Beat = 7,
}

// The kind of field that a sheet names by this number.
impl TryFrom<u8> for Tag {
    type Error = Refusal;

    ghost try_from_gives = { λ number result. result ≡ ok_or (tag_of number) refusal.Tag };

    fn try_from(number: u8) -> Result<Tag, Refusal> {
        match number {
            1 => Ok(Tag::OpenFloor),
            2 => Ok(Tag::DrawnFloor),
            3 => Ok(Tag::Preference),
            4 => Ok(Tag::Place),
            5 => Ok(Tag::Assign),
            6 => Ok(Tag::Lift),
            7 => Ok(Tag::Beat),
            _ => Err(Refusal::Tag),
        }
    }
}

impl Tag {
    // Whether contents of this many bytes suit a field of this kind.
    pub(crate) fn suits(self, length: usize) -> bool
        ensures { result ≡ length_suits self length }
    {
        match self {
            Tag::OpenFloor | Tag::Place | Tag::Assign => length == 2,
            Tag::DrawnFloor => length >= 1,
            Tag::Preference | Tag::Lift => length == 1,
            Tag::Beat => length == 0,
        }
    }
}
