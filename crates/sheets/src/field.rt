use crate::preference::PreferenceKind;

// What a field says. `L` is how the links of a drawn floor are held; the reader lends them from the sheet. Every two
// bytes of the links name two joined tiles.
#[derive(Clone, Copy, PartialEq, Eq, Debug)]
pub enum Field<L> {
    Open { width: u8, height: u8 },
    Drawn { size: u8, links: L },
    Prefer { preference: PreferenceKind },
    Place { mover: u8, tile: u8 },
    Assign { mover: u8, goal: u8 },
    Lift { mover: u8 },
    Beat,
}

// A field of a sheet, with the byte place of its tag.
#[derive(Clone, Copy, PartialEq, Eq, Debug)]
pub struct Entry<L> {
    pub place: usize,
    pub field: Field<L>,
}
