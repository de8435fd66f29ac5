ghost use Rattle.std.specs.Prelude.{◌≡◌, ◌||◌, IfOk, ◌==◌, nat_le};
ghost use Rattle.std.specs.Result.{result_err};
ghost use Rattle.base.specs.Refusals.{first_refusal};
ghost use Rattle.floor.specs.Links.{pairs_of, linked_to};
ghost use Rattle.floor.specs.Survey.{names_stranger, names_itself, link_tests, drawing_refusal};
ghost use Rattle.drawn_floor.specs.Tables.{IsBare, Tabled};

use crate::joined_tiles::JoinedTiles;
use crate::links::Pairs;
use crate::marks::Marks;
use base::Refusal;
use floor::Tile;

// A drawing: tiles from 0 to `size` - 1, and links, of which every two bytes name two joined tiles.
#[derive(Clone, Copy)]
pub(crate) struct Drawing<'a> {
    pub(crate) size: Tile,
    pub(crate) links: &'a [u8],
}

impl<'a> Drawing<'a> {
    fn pairs(&self) -> Pairs<'a>
        ensures { result ≡ pairs_of self.now.links.now }
    {
        Pairs::of(self.links)
    }

    // Whether some pair names a tile that is not one of the drawing.
    fn names_stranger(&self) -> bool
        ensures { result ≡ names_stranger self.now.size (pairs_of self.now.links.now) }
    {
        let size = self.size;
        self.pairs().any(|pair| is_stranger(size, pair))
    }

    // Whether some pair names one tile twice.
    fn names_itself(&self) -> bool
        ensures { result ≡ names_itself (pairs_of self.now.links.now) }
    {
        self.pairs().any(is_self_pair)
    }

    // Fills a bare table with the tiles that the links join, where the links pass the tests that need no walk. Else the
    // answer is the test that refuses, and the table may hold some of them. A table has a size that passes already.
    fn fill(&self, joined: &mut JoinedTiles) -> Result<(), Refusal>
        requires size { joined.old.size ≡ self.now.size }
        requires none { IsBare joined.old.tiles }
        ensures answer { result_err result ≡ first_refusal (link_tests self.now.size self.now.links.now) }
        ensures size { joined.new.size ≡ self.now.size }
        ensures made { IfOk result (λ _. Tabled self.now.size (linked_to self.now.size (pairs_of self.now.links.now)) joined.new.tiles) }
    {
        if self.links.len() % 2 == 1 {
            return Err(Refusal::Ragged);
        }
        if self.names_stranger() {
            return Err(Refusal::Stranger);
        }
        if self.names_itself() {
            return Err(Refusal::SelfPair);
        }
        let mut marks = Marks::new();
        marks.add_all(self.pairs()).ok_or(Refusal::Twice)?;
        joined.list(&marks).ok_or(Refusal::Crowded)
    }

    // The tiles that the links join, where these make a floor; else why they make none.
    pub(crate) fn floor(&self) -> Result<JoinedTiles, Refusal>
        ensures answer { result_err result ≡ drawing_refusal self.now.size self.now.links.now }
        ensures made { IfOk result (λ j. (j.size ≡ self.now.size) × Tabled self.now.size (linked_to self.now.size (pairs_of self.now.links.now)) j.tiles) }
    {
        if self.size < 3 {
            return Err(Refusal::Size);
        }
        let mut joined = JoinedTiles::new(self.size);
        self.fill(&mut joined)?;
        if joined.is_split() {
            return Err(Refusal::Split);
        }
        if joined.has_neck(self.pairs()) {
            return Err(Refusal::Neck);
        }
        Ok(joined)
    }
}

// Whether a pair names a tile that is not below `size`.
fn is_stranger(size: Tile, pair: (Tile, Tile)) -> bool
    ensures { result ≡ (nat_le size pair.0 || nat_le size pair.1) }
{
    let (a, b) = pair;
    a >= size || b >= size
}

// Whether a pair names one tile twice.
fn is_self_pair(pair: (Tile, Tile)) -> bool
    ensures { result ≡ (pair.0 == pair.1) }
{
    let (a, b) = pair;
    a == b
}
