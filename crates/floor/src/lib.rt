// A floor: tiles, which of them are joined, and how strongly each is drawn to each goal.
#![tactic(auto)]

ghost use Rattle.std.specs.Prelude.{◌≡◌, ℕ, Bool};
ghost use Rattle.std.specs.List.{slice_get};
ghost use Rattle.floor.specs.Floors.{Laws, floor_model, joined_to, pull_between};

// A tile is a numbered place on which a mover can stand; a floor of n tiles has the numbers 0 to n - 1.
pub type Tile = u8;

// The pull of a tile towards a goal tile: 0 on the goal alone, and smaller the nearer the goal.
pub type Pull = u16;

// A floor says by `tiles`, `joins`, `pulls` and `farthest` what it means, and `laws` shows that this is a floor: 3 to
// 255 tiles, joined both ways and at most six to a tile, each joined pair in a ring, and pulls that lead to the goal.
// A rule of the project: these stand as members of their own, and not as one of a record type.
pub trait Floor {
    ghost tiles: { Self → ℕ };

    ghost joins: { Self → ℕ → ℕ → Bool };

    ghost pulls: { Self → ℕ → ℕ → ℕ };

    ghost farthest: { Self → ℕ };

    // How many tiles the floor has.
    fn size(&self) -> Tile
        ensures { result ≡ tiles self.now };

    // The reach: the greatest pull on the floor.
    fn reach(&self) -> Pull
        ensures { result ≡ farthest self.now };

    // The tile that is joined to `tile` at place `k`, counted from 0 in ascending number.
    fn joined(&self, tile: Tile, k: u8) -> Option<Tile>
        ensures { result ≡ slice_get (joined_to (floor_model (tiles self.now) (joins self.now) (pulls self.now) (farthest self.now)) tile) k };

    // The pull of `tile` towards `goal`; none where one of them is no tile of the floor.
    fn pull(&self, tile: Tile, goal: Tile) -> Option<Pull>
        ensures { result ≡ pull_between (floor_model (tiles self.now) (joins self.now) (pulls self.now) (farthest self.now)) tile goal };

    ghost laws: { (f : Self) → Laws (floor_model (tiles f) (joins f) (pulls f) (farthest f)) };
}
