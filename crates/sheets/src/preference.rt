ghost use Rattle.std.specs.Prelude.{◌≡◌};
ghost use Rattle.std.specs.Option.{ok_or};
ghost use Rattle.base.specs.declared.refusal.Refusal.TheVariants.{Value};
ghost use Rattle.sheets.specs.Numbers.{preference_of};

use base::Refusal;

// A preference ranks the tiles that a mover may take next; this says which one a run uses.
#[derive(Clone, Copy, PartialEq, Eq, Debug)]
pub enum PreferenceKind {
    Plain = 0,
    Vacant = 1,
    Hindrance = 2,
}

// The preference that a sheet names by this number.
impl TryFrom<u8> for PreferenceKind {
    type Error = Refusal;

    ghost try_from_gives = { λ number result. result ≡ ok_or (preference_of number) Value };

    fn try_from(number: u8) -> Result<PreferenceKind, Refusal> {
        match number {
            0 => Ok(PreferenceKind::Plain),
            1 => Ok(PreferenceKind::Vacant),
            2 => Ok(PreferenceKind::Hindrance),
            _ => Err(Refusal::Value),
        }
    }
}
