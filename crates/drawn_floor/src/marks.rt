ghost use Rattle.std.specs.Prelude.{◌≡◌, ℕ, ◌≤◌, true, false, [], ◌&&◌, ◌||◌, ◌==◌, length, IfSome, MatchOption, nat_lt};
ghost use Rattle.std.specs.List.{slice_get, list_any};
ghost use Rattle.base.specs.Lists.{below};
ghost use Rattle.floor.specs.Links.{joins_two};
ghost use Rattle.floor.specs.Survey.{joins_again};
ghost use Rattle.drawn_floor.specs.Marks.{marked, Marked, marked_to};
ghost use Rattle.drawn_floor.specs.Tables.{IsBare, Rowed, Tabled};

use crate::joined_tiles::{JoinedTiles, MOST, Row, TILES};
use crate::links::Pairs;
use arrayvec::ArrayVec;
use floor::Tile;
use std::array;

// Which tiles are joined: a mark for each two tiles, either way round. An array, since a survey cannot fail for want of
// memory.
#[derive(Drop)]
pub(crate) struct Marks {
    marks: [[bool; TILES]; TILES],
}

impl Marks {
    // No two tiles are marked.
    pub(crate) fn new() -> Marks
        ensures { Marked [] result.marks }
    {
        Marks {
            marks: [[false; TILES]; TILES],
        }
    }

    // Marks the tiles that the pairs join. The answer is none where two pairs join the same tiles; then not all are marked.
    // To hand out marks that were written would copy them all.
    pub(crate) fn add_all(&mut self, pairs: Pairs) -> Option<()>
        requires { Marked [] self.old.marks }
        ensures { MatchOption result (joins_again pairs.entry ≡ true) (λ _. (joins_again pairs.entry ≡ false) × Marked pairs.entry self.new.marks) }
    {
        for pair in pairs {
            if self.has(pair) {
                return None;
            }
            self.add(pair);
        }
        Some(())
    }

    fn has(&self, pair: (Tile, Tile)) -> bool
        ensures { result ≡ marked self.now.marks pair.0 pair.1 }
    {
        let (a, b) = pair;
        self.marks[usize::from(a)][usize::from(b)]
    }

    fn add(&mut self, pair: (Tile, Tile))
        ensures { (x y : ℕ) → marked self.new.marks x y ≡ (marked self.old.marks x y || joins_two pair x y) }
    {
        let (a, b) = pair;
        self.mark(a, b);
        self.mark(b, a);
    }

    // Marks `b` in the row of `a`, and not the other way round.
    fn mark(&mut self, a: Tile, b: Tile)
        ensures { (x y : ℕ) → marked self.new.marks x y ≡ (marked self.old.marks x y || (a == x && b == y)) }
    {
        let row = &mut self.marks[usize::from(a)];
        row[usize::from(b)] = true;
    }

    // The tiles below `size` that are marked as joined to `tile`; none where they are more than six.
    fn row(&self, size: Tile, tile: Tile) -> Option<Row>
        ensures { MatchOption result (nat_lt 6 (length (marked_to size self.now.marks tile)) ≡ true) (λ row. (nat_lt 6 (length (marked_to size self.now.marks tile)) ≡ false) × Rowed (marked_to size self.now.marks tile) row) }
    {
        let mut joined: ArrayVec<Tile, MOST> = ArrayVec::new();
        // Not by `filter`: with it this loop takes three times as long.
        for other in 0..size {
            if self.has((tile, other)) {
                joined.try_push(other).ok()?;
            }
        }
        let joined = joined.as_slice();
        Some(array::from_fn(
            |k|
                ensures { result ≡ slice_get joined.entry.now k }
            { joined.get(k).copied() },
        ))
    }
}

impl JoinedTiles {
    // No tiles are joined.
    pub(crate) fn new(size: Tile) -> JoinedTiles
        requires { 3 ≤ size }
        ensures size { result.size ≡ size }
        ensures none { IsBare result.tiles }
    {
        JoinedTiles {
            size,
            tiles: [[None; MOST]; TILES],
        }
    }

    // Lists for each tile those that are marked as joined to it. The answer is none where they are more than six to some
    // tile; then not all are listed. To hand out a table that was written would copy it.
    pub(crate) fn list(&mut self, marks: &Marks) -> Option<()>
        requires { IsBare self.old.tiles }
        ensures size { self.new.size ≡ self.old.size }
        ensures crowded { MatchOption result (list_any (λ t. nat_lt 6 (length (marked_to self.old.size marks.now.marks t))) (below self.old.size) ≡ true) (λ _. list_any (λ t. nat_lt 6 (length (marked_to self.old.size marks.now.marks t))) (below self.old.size) ≡ false) }
        ensures made { IfSome result (λ _. Tabled self.old.size (marked_to self.old.size marks.now.marks) self.new.tiles) }
    {
        // Not by `zip` with `&mut self.tiles`: of an array that such a loop wrote, a proof knows the length and no row. By
        // `iter_mut().enumerate()` each index would be cast to a tile, which is no plainer.
        for tile in 0..self.size {
            self.tiles[usize::from(tile)] = marks.row(self.size, tile)?;
        }
        Some(())
    }
}
