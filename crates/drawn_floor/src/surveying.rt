ghost use Rattle.std.specs.Prelude.{◌≡◌, ℕ, ◌+◌, ◌*◌, ◌<◌, ◌≤◌, true, length, drop, is_ok, slice_index};
ghost use Rattle.std.specs.Result.{result_err};
ghost use Rattle.floor.specs.Drawn.{Surveyed, stands_surveyed};
ghost use Rattle.floor.specs.Survey.{survey_refusal, after_survey};
ghost use Rattle.drawn_floor.specs.Searches.{IsCutOff, IsSteps};

use crate::drawing::Drawing;
use crate::joined_tiles::JoinedTiles;
use crate::search::Search;
use base::Refusal;
use floor::{Pull, Tile};

impl JoinedTiles {
    // Writes for each tile that has a walk to the goal the steps of a shortest one. The others keep their numbers.
    fn measure_to(&self, goal: Tile, row: &mut [Pull])
        requires { length row.old ≡ self.now.size }
        ensures found { (t d : ℕ) → t < self.now.size → IsSteps self.now.tiles t goal d → slice_index row.new t ≡ d }
        ensures kept { (t : ℕ) → t < self.now.size → IsCutOff self.now.tiles t goal → slice_index row.new t ≡ slice_index row.old t }
    {
        let mut search = Search::new();
        search.run(self, goal, None);
        // Not by `zip` with what was found: of a row that such a loop wrote, a proof knows the length and no number.
        for (tile, place) in row.iter_mut().enumerate() {
            // The place is written in either case, so that the loop has no branch.
            *place = search.steps[tile].unwrap_or(*place);
        }
    }

    // Writes to place g * n + t, for each of the n tiles t and g, the steps of a shortest walk from t to g. Where there is
    // none, the place keeps its number.
    fn measure(&self, distances: &mut [Pull])
        requires { self.now.size * self.now.size ≤ length distances.old }
        ensures found { (g t d : ℕ) → g < self.now.size → t < self.now.size → IsSteps self.now.tiles t g d → slice_index distances.new (g * self.now.size + t) ≡ d }
        ensures kept { (g t : ℕ) → g < self.now.size → t < self.now.size → IsCutOff self.now.tiles t g → slice_index distances.new (g * self.now.size + t) ≡ slice_index distances.old (g * self.now.size + t) }
        ensures beyond { drop (self.now.size * self.now.size) distances.new ≡ drop (self.now.size * self.now.size) distances.old }
    {
        // Not by `chunks_exact_mut`: of a list that such a loop wrote, a proof knows the length and no number.
        let width = usize::from(self.size);
        for goal in 0..self.size {
            let start = usize::from(goal) * width;
            self.measure_to(goal, &mut distances[start..start + width]);
        }
    }
}

// Surveys a drawing of `size` tiles, of which every two bytes of `links` join two. Granted, it writes to place g * size
// + t of `distances` the steps of a shortest walk from tile t to tile g. Refused, it writes nothing. The size and the
// links come apart, as callers have them and as this signature has always stood.
pub fn survey(size: Tile, links: &[u8], distances: &mut [Pull]) -> Result<(), Refusal>
    ensures answer { result_err result ≡ survey_refusal size links.now (length distances.old) }
    ensures after { distances.new ≡ after_survey size links.now distances.old }
    ensures means { Surveyed size links.now (result_err result) distances.new }
    ensures stands { is_ok result ≡ true → stands_surveyed size links.now distances.new ≡ true }
{
    let joined = Drawing { size, links }.floor()?;
    let width = usize::from(size);
    if distances.len() < width * width {
        return Err(Refusal::ShortList);
    }
    joined.measure(distances);
    Ok(())
}
