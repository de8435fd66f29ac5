ghost use Rattle.base.specs.Lists.{greatest};
ghost use Rattle.floor.specs.Links.{pairs_of, linked};
ghost use Rattle.floor.specs.Survey.{distances};
ghost use Rattle.floor.specs.Walks.{distance};
ghost use Rattle.floor.proofs.Standing.{standing_laws};

use crate::drawn::DrawnFloor;
use floor::{Floor, Pull, Tile};

impl<'a> Floor for DrawnFloor<'a> {
    ghost tiles = { λ f. f.joined.size };

    ghost joins = { λ f. linked (pairs_of f.links.now) };

    ghost pulls = { λ f. distance (linked (pairs_of f.links.now)) f.joined.size };

    ghost farthest = { λ f. greatest (distances f.joined.size f.links.now) };

    ghost laws = { λ f. standing_laws f.joined.size f.links.now f.pulls.now f.stands };

    fn size(&self) -> Tile {
        self.joined.size
    }

    fn reach(&self) -> Pull {
        self.reach
    }

    fn joined(&self, tile: Tile, k: u8) -> Option<Tile> {
        if tile >= self.joined.size {
            return None;
        }
        let row = self.joined.tiles[usize::from(tile)];
        row.get(usize::from(k)).copied().flatten()
    }

    fn pull(&self, tile: Tile, goal: Tile) -> Option<Pull> {
        let n = self.joined.size;
        if tile >= n || goal >= n {
            return None;
        }
        // One list, and a place computed in it: callers hand the numbers over so.
        Some(self.pulls[usize::from(goal) * usize::from(n) + usize::from(tile)])
    }
}
