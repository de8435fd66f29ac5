ghost use Rattle.drawn_floor.specs.Kept.{Stands, InPlace, IsReach};

use crate::joined_tiles::JoinedTiles;
use floor::Pull;

// A floor that was drawn: the tiles that `links` join, with the pulls that a survey of them left in `pulls`. The joined
// tiles and the reach are kept beside them, so that no question has to look through the links.
#[derive(Clone, Copy)]
pub struct DrawnFloor<'a> {
    pub(crate) joined: JoinedTiles,
    pub(crate) links: &'a [u8],
    pub(crate) pulls: &'a [Pull],
    pub(crate) reach: Pull,
    ghost stands: { Stands joined.size links.now pulls.now },
    ghost placed: { InPlace joined.size links.now joined.tiles },
    ghost far: { IsReach joined.size links.now reach },
}
