// Drawings of one ring, for the tests of every module.
use floor::Tile;
use std::alloc::{AllocError, Global};

// Adds the pairs 0-1, 1-2 and so on, and last that of tile size - 1 and tile 0.
pub(crate) fn push_ring(bytes: &mut Vec<u8>, size: Tile) -> Result<(), AllocError> {
    for tile in 0..size {
        let next = (tile + 1) % size;
        bytes.extend_from_slice(&[tile, next])?;
    }
    Ok(())
}

// The links of a ring of so many tiles.
pub(crate) fn ring_links(heap: Global, size: Tile) -> Result<Vec<u8>, AllocError> {
    let mut links = Vec::new(heap);
    push_ring(&mut links, size)?;
    Ok(links)
}
