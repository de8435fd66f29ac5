ghost use Rattle.std.specs.Prelude.{◌≡◌, ℕ, ◌<◌, ◌≤◌, length, Some};
ghost use Rattle.drawn_floor.specs.Tables.{at_place, SixPlaces};

use floor::Tile;

// The most tiles that may be joined to one tile.
pub(crate) const MOST: usize = 6;

// A place for each number that a tile can have.
pub(crate) const TILES: usize = 256;

// The tiles that are joined to one tile, ascending; the places that are left hold none.
pub(crate) type Row = [Option<Tile>; MOST];

// The tiles that are joined to each tile of a floor of `size` tiles. An array, since a survey cannot fail for want of
// memory.
#[derive(Clone, Copy)]
pub struct JoinedTiles {
    pub(crate) size: Tile,
    pub(crate) tiles: [Row; TILES],
    ghost least: { 3 ≤ size },
    ghost fits: { size < 256 },
    ghost long: { length tiles ≡ 256 },
    ghost wide: { SixPlaces tiles },
    ghost below: { (t k u : ℕ) → at_place tiles t k ≡ Some u → u < size },
}
