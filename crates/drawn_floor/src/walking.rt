ghost use Rattle.std.specs.Prelude.{ℕ, ◌<◌, length, get_or, Some, None, Decides, slice_index_or};
ghost use Rattle.floor.specs.Walks.{Walk};
ghost use Rattle.drawn_floor.specs.Searches.{Passes};

use crate::joined_tiles::JoinedTiles;
use crate::links::Pairs;
use crate::search::Search;
use floor::Tile;

impl JoinedTiles {
    // Whether some tile has no walk to tile 0.
    pub(crate) fn is_split(&self) -> bool
        ensures { Decides result ((t : ℕ) × (t < self.now.size) × ((k : ℕ) → Walk (Passes self.now.tiles None) t 0 k → ⊥)) }
    {
        let mut search = Search::new();
        search.run(self, 0, None);
        search.steps[..usize::from(self.size)].contains(&None)
    }

    // Whether a walk leads from one tile of a pair to the other without going from one to the other at once. If so, the
    // pair is in a ring.
    fn is_in_ring(&self, pair: (Tile, Tile)) -> bool
        ensures { Decides result ((k : ℕ) × Walk (Passes self.now.tiles (Some pair)) pair.0 pair.1 k) }
    {
        let (a, b) = pair;
        let mut search = Search::new();
        search.run(self, b, Some(pair));
        search.steps[usize::from(a)].is_some()
    }

    // Whether some pair is in no ring.
    pub(crate) fn has_neck(&self, mut pairs: Pairs) -> bool
        ensures { Decides result ((i : ℕ) × (i < length pairs.entry) × (((k : ℕ) × Walk (Passes self.now.tiles (Some (slice_index_or pairs.entry i (0, 0)))) (get_or pairs.entry i (0, 0)).0 (get_or pairs.entry i (0, 0)).1 k) → ⊥)) }
    {
        pairs.any(|pair| !self.is_in_ring(pair))
    }
}
