ghost use Rattle.std.specs.Prelude.{◌≡◌, ℕ, ◌+◌, ◌*◌, ◌<◌, ◌≤◌, true, false, length, is_some, IfSome, Decides, slice_index};
ghost use Rattle.base.specs.Lists.{greatest};
ghost use Rattle.floor.specs.Drawn.{stands_surveyed};
ghost use Rattle.drawn_floor.specs.Rings.{ring_links, ring_pulls};
ghost use Rattle.drawn_floor.specs.Searches.{IsSteps};

use crate::drawing::Drawing;
use crate::drawn::DrawnFloor;
use crate::joined_tiles::JoinedTiles;
use crate::search::Search;
use floor::{Pull, Tile};

static RING_LINKS: [u8; 6] = [0, 1, 1, 2, 0, 2];

static RING_PULLS: [Pull; 9] = [0, 1, 1, 1, 0, 1, 1, 1, 0];

impl JoinedTiles {
    // Whether the numbers are the steps of shortest walks to this goal.
    fn row_agrees(&self, goal: Tile, numbers: &[Pull]) -> bool
        requires { length numbers.now ≡ self.now.size }
        ensures { Decides result ((t : ℕ) → t < self.now.size → IsSteps self.now.tiles t goal (slice_index numbers.now t)) }
    {
        let mut search = Search::new();
        search.run(self, goal, None);
        numbers
            .iter()
            .zip(&search.steps)
            .all(|(number, steps)| *steps == Some(*number))
    }

    // Whether the numbers are the steps of shortest walks, for each goal.
    fn agrees(&self, numbers: &[Pull]) -> bool
        requires { self.now.size * self.now.size ≤ length numbers.now }
        ensures { Decides result ((g t : ℕ) → g < self.now.size → t < self.now.size → IsSteps self.now.tiles t g (slice_index numbers.now (g * self.now.size + t))) }
    {
        (0..self.size)
            .zip(numbers.chunks_exact(usize::from(self.size)))
            .all(|(goal, row)| self.row_agrees(goal, row))
    }
}

// The greatest of some numbers, 0 where there is none.
fn greatest_of(numbers: &[Pull]) -> Pull
    ensures { result ≡ greatest numbers.now }
{
    numbers.iter().copied().max().unwrap_or(0)
}

impl<'a> DrawnFloor<'a> {
    // The floor of a drawing with these pulls, if they stand as a granted survey leaves them.
    fn standing(drawing: Drawing<'a>, pulls: &'a [Pull]) -> Option<DrawnFloor<'a>>
        ensures answer { is_some result ≡ stands_surveyed drawing.entry.size drawing.entry.links.now pulls.now }
        ensures made { IfSome result (λ f. (f.joined.size ≡ drawing.entry.size) × (f.links.now ≡ drawing.entry.links.now) × (f.pulls.now ≡ pulls.now)) }
    {
        let joined = drawing.floor().ok()?;
        let width = usize::from(drawing.size);
        let places = width * width;
        if pulls.len() < places || !joined.agrees(pulls) {
            return None;
        }
        Some(DrawnFloor {
            joined,
            links: drawing.links,
            pulls,
            reach: greatest_of(&pulls[..places]),
        })
    }

    // A ring of three tiles.
    #[tactic(auto, using(crate::proofs::Adopting::ring_stands))]
    pub fn ring() -> DrawnFloor<'a>
        ensures size { result.joined.size ≡ 3 }
        ensures links { result.links.now ≡ ring_links }
        ensures pulls { result.pulls.now ≡ ring_pulls }
    {
        let ring = Drawing {
            size: 3,
            links: &RING_LINKS,
        };
        DrawnFloor::standing(ring, &RING_PULLS).unwrap()
    }

    // Becomes the floor of these tiles, links and pulls, if they stand as a granted survey leaves them. Else the answer
    // is no, and the floor stays as it was. The signature stays: a `bool`, and a size and links apart.
    pub fn adopt(&mut self, size: Tile, links: &'a [u8], pulls: &'a [Pull]) -> bool
        ensures answer { result ≡ stands_surveyed size links.now pulls.now }
        ensures became { result ≡ true → (self.new.joined.size ≡ size) × (self.new.links.now ≡ links.now) × (self.new.pulls.now ≡ pulls.now) }
        ensures same { result ≡ false → self.new ≡ self.old }
    {
        let Some(floor) = DrawnFloor::standing(Drawing { size, links }, pulls) else {
            return false;
        };
        *self = floor;
        true
    }
}
