ghost use Rattle.std.specs.Prelude.{◌≡◌};
ghost use Rattle.std.specs.Iterator.{YieldsFirst, item_count};
ghost use Rattle.floor.specs.Links.{pairs_of};

use floor::Tile;
use std::marker::Model;

// The pairs of joined tiles that links name, one after the other: every two bytes name one, and an odd byte at the end
// names none.
#[derive(Drop)]
pub(crate) struct Pairs<'a> {
    links: &'a [u8],
}

impl<'a> Model for Pairs<'a> {
    ghost use Rattle.std.specs.Prelude.{ℕ, List};
    ghost use Rattle.floor.specs.Links.{pairs_of};

    ghost Value = { List (ℕ × ℕ) };

    ghost view = { λ p. pairs_of p.links.now };
}

impl<'a> Pairs<'a> {
    pub(crate) fn of(links: &'a [u8]) -> Pairs<'a>
        ensures { result ≡ pairs_of links.now }
    {
        Pairs { links }
    }
}

impl<'a> Iterator for Pairs<'a> {
    type Item = (Tile, Tile);

    ghost next_gives = { YieldsFirst (λ p. p) };

    ghost remaining = { item_count (λ p. p) };

    fn next(&mut self) -> Option<(Tile, Tile)> {
        let [a, b, rest @ ..] = self.links else {
            return None;
        };
        self.links = rest;
        Some((*a, *b))
    }
}
