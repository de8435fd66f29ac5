ghost use Rattle.std.specs.Prelude.{◌*◌, ◌≤◌};

use floor::Tile;

// A floor of `width` columns and `height` rows. Tile y * width + x stands in column x and row y.
#[derive(Debug, Clone, Copy, PartialEq, Eq)]
pub struct OpenFloor {
    pub(crate) width: Tile,
    pub(crate) height: Tile,
    ghost wide: { 2 ≤ width },
    ghost high: { 2 ≤ height },
    ghost small: { width * height ≤ 255 },
}
