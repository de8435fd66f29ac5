ghost use Rattle.std.specs.Prelude.{◌≡◌, ◌+◌, ◌<◌, ◌≤◌, ◌++◌, length, slice_index};
ghost use Rattle.drawn_floor.specs.Searches.{left_out, Passes, Filled};
ghost use Rattle.drawn_floor.specs.Spreading.{Behind, HasRoom, IsNew, Meets, Spreads, layer_of, unmet};

use crate::joined_tiles::{JoinedTiles, TILES};
use arrayvec::ArrayVec;
use floor::{Pull, Tile};

// How many steps each tile is from the goal of a search; none where the search has not met it. An array, since a survey
// cannot fail for want of memory.
type Steps = [Option<Pull>; TILES];

// The ways that a search may go: to the joined tiles of a table, but not from one tile of the pair `cut` to the other.
#[derive(Clone, Copy)]
struct Ways<'a> {
    joined: &'a JoinedTiles,
    cut: Option<(Tile, Tile)>,
}

// A search that spreads from its goal, layer by layer.
#[derive(Drop)]
pub(crate) struct Search {
    pub(crate) steps: Steps,
    // the tiles that the search has met, in the order in which it met them
    met: ArrayVec<Tile, TILES>,
    // the tiles that it met last, its layer, are all but the first `nearer` of these, and are `far` steps from the goal
    nearer: usize,
    far: Pull,
}

impl Search {
    // A search that has met no tile.
    pub(crate) fn new() -> Search
        ensures { IsNew result }
    {
        Search {
            steps: [None; TILES],
            met: ArrayVec::new(),
            nearer: 0,
            far: 0,
        }
    }

    // Finds for each tile the steps of a shortest walk to `goal` that does not use the pair `cut`; none where there is no
    // walk. They are read where the search keeps them: what was written is copied when it is handed out.
    pub(crate) fn run(&mut self, joined: &JoinedTiles, goal: Tile, cut: Option<(Tile, Tile)>)
        requires { IsNew self.old }
        ensures long { length self.new.steps ≡ 256 }
        ensures found { Filled (Passes joined.now.tiles cut) goal self.new.steps }
    {
        let ways = Ways { joined, cut };
        self.meet(goal);
        while self.nearer < self.count() {
            self.spread(ways);
        }
    }

    // Meets the tiles that are joined to those of the layer, which become the next layer.
    fn spread(&mut self, ways: Ways)
        requires room { HasRoom self.old }
        requires few { self.old.far + (unmet self.old.steps + length (layer_of self.old)) ≤ 256 }
        requires some { self.old.nearer < length self.old.met.items }
        ensures far { self.new.far ≡ self.old.far + 1 }
        ensures nearer { self.new.nearer ≡ length self.old.met.items }
        ensures met { self.new.met.items ≡ self.old.met.items ++ layer_of self.new }
        ensures spreads { Spreads (Behind (Passes ways.entry.joined.now.tiles ways.entry.cut) (layer_of self.old)) self.new.far self.old.steps self.new.steps (layer_of self.new) }
    {
        // One list holds every layer: a list for each would be cleared and copied at each step of the search.
        let first = self.nearer;
        let end = self.count();
        self.nearer = end;
        self.far += 1;
        for place in first..end {
            let tile = self.tile_at(place);
            self.meet_joined(ways, tile);
        }
    }

    // How many tiles the search has met. Asked for through `&self`, as the next one: the check does not cover a field that
    // is lent from behind `&mut self`.
    fn count(&self) -> usize
        ensures { result ≡ length self.now.met.items }
    {
        self.met.len()
    }

    // The tile at a place of the list of met tiles.
    fn tile_at(&self, place: usize) -> Tile
        requires { place < length self.now.met.items }
        ensures { result ≡ slice_index self.now.met.items place }
    {
        self.met[place]
    }

    // Meets the tiles that are joined to `tile`, but not by the pair `cut`.
    fn meet_joined(&mut self, ways: Ways, tile: Tile)
        requires { HasRoom self.old }
        ensures { Meets (λ u. Passes ways.entry.joined.now.tiles ways.entry.cut u tile) self.old self.new }
    {
        // `iter().copied().flatten()` is no shorter here, and with it a survey takes half as long again.
        for place in &ways.joined.tiles[usize::from(tile)] {
            if let Some(next) = place
                && !is_left_out(ways.cut, tile, *next)
            {
                self.meet(*next);
            }
        }
    }

    // Notes how far `tile` is from the goal, unless it was met before.
    fn meet(&mut self, tile: Tile)
        requires { HasRoom self.old }
        ensures { Meets (λ u. u ≡ tile) self.old self.new }
    {
        if self.steps[usize::from(tile)].is_none() {
            self.steps[usize::from(tile)] = Some(self.far);
            self.met.push(tile);
        }
    }
}

// Whether the pair that a search leaves out joins the two tiles.
fn is_left_out(cut: Option<(Tile, Tile)>, a: Tile, b: Tile) -> bool
    ensures { result ≡ left_out cut a b }
{
    cut.is_some_and(|(x, y)| (x == a && y == b) || (x == b && y == a))
}
