ghost use Rattle.std.specs.Prelude.{◌≡◌, ◌+◌, ◌%◌, ◌<◌, IfOk};
ghost use Rattle.std.specs.Vec.{vec_len};

use floor::Tile;
use std::alloc::{AllocError, Global};

// As many tiles as a floor can have.
pub(crate) const TILES: Tile = 255;

// Tile 0 comes after the last, so that every tile has as many joined tiles.
fn next(tile: Tile) -> Tile
    requires { tile < 255 }
    ensures { result ≡ (tile + 1) % 255 }
{
    (tile + 1) % TILES
}

// Joins a tile to the three that come after it: two bytes for each pair.
fn three_pairs(tile: Tile) -> [Tile; 6]
    requires { tile < 255 }
{
    let first = next(tile);
    let second = next(first);
    [tile, first, tile, second, tile, next(second)]
}

// Six joined tiles for each tile, and each pair named once: a drawing can have no more.
pub(crate) fn largest_links(heap: Global) -> Result<Vec<u8>, AllocError>
    ensures { IfOk result (λ links. vec_len links ≡ 1530) }
{
    let mut links = Vec::new(heap);
    for tile in 0..TILES {
        links.extend_from_slice(&three_pairs(tile))?;
    }
    Ok(links)
}
