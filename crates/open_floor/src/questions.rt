ghost use Rattle.std.specs.Prelude.{◌≡◌, ◌*◌, ◌<◌, IfOk};
ghost use Rattle.std.specs.List.{slice_get};
ghost use Rattle.std.specs.Result.{result_err};
ghost use Rattle.floor.specs.Grid.{steps, beside, corners, open_refusal};
ghost use Rattle.floor.specs.Sides.{sides, somes};
ghost use Rattle.floor.proofs.GridLaws.{open_laws};

use crate::grid::OpenFloor;
use base::Refusal;
use floor::{Floor, Pull, Tile};

impl Floor for OpenFloor {
    ghost tiles = { λ f. f.width * f.height };

    ghost joins = { λ f. beside f.width f.height };

    ghost pulls = { λ f. steps f.width };

    ghost farthest = { λ f. corners f.width f.height };

    ghost laws = { λ f. open_laws f.width f.height f.wide f.high f.small };

    fn size(&self) -> Tile {
        self.width * self.height
    }

    fn reach(&self) -> Pull {
        Pull::from(self.width - 1) + Pull::from(self.height - 1)
    }

    fn joined(&self, tile: Tile, k: u8) -> Option<Tile> {
        if tile >= self.size() {
            return None;
        }
        nth_present(&self.around(tile), k)
    }

    fn pull(&self, tile: Tile, goal: Tile) -> Option<Pull> {
        let n = self.size();
        let columns = (tile % self.width).abs_diff(goal % self.width);
        let rows = (tile / self.width).abs_diff(goal / self.width);
        (tile < n && goal < n).then_some(Pull::from(columns) + Pull::from(rows))
    }
}

impl OpenFloor {
    // The open floor of this width and height, or a refusal where these lie outside the bounds.
    pub fn new(width: Tile, height: Tile) -> Result<OpenFloor, Refusal>
        ensures answer { result_err result ≡ open_refusal width height }
        ensures made { IfOk result (λ f. (f.width ≡ width) × (f.height ≡ height)) }
    {
        if width < 2 || height < 2 || u16::from(width) * u16::from(height) > 255 {
            return Err(Refusal::Size);
        }
        Ok(OpenFloor { width, height })
    }

    // Above, left, right and below: each side of `tile` that the floor has there.
    fn around(&self, tile: Tile) -> [Option<Tile>; 4]
        requires { tile < 255 }
        ensures { result ≡ sides self.now.width (self.now.width * self.now.height) tile }
    {
        let column = tile % self.width;
        let size = self.size();
        [
            tile.checked_sub(self.width),
            (column > 0).then(|| tile - 1),
            (column + 1 < self.width).then(|| tile + 1),
            tile.checked_add(self.width).filter(|below| *below < size),
        ]
    }
}

// The k-th, from 0, of the tiles that are there. Counted by hand: by `flatten` and `nth`, and by `filter_map` and `nth`,
// a question was measured to take three times as long.
fn nth_present(tiles: &[Option<Tile>], k: u8) -> Option<Tile>
    ensures { result ≡ slice_get (somes tiles.now) k }
{
    let mut ahead = k;
    for tile in tiles {
        if let Some(tile) = tile {
            if ahead == 0 {
                return Some(*tile);
            }
            ahead -= 1;
        }
    }
    None
}
