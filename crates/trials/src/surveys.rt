// Surveys: each refusal, the order of the tests, and the distances that a granted survey writes.
use crate::checks::{check, check_eq};
use base::Refusal;
use drawn_floor::survey;
use floor::{Pull, Tile};
use std::iter;
use std::test::Fail;

// Tile 0 joined to the tiles 1 to 7.
const STAR: [u8; 14] = [0, 1, 0, 2, 0, 3, 0, 4, 0, 5, 0, 6, 0, 7];

// A survey that is handed `places` sevens, 64 at most, is refused so and leaves each of them. The list is an array, since
// a `Vec` would ask each test for the runtime.
fn refused(places: usize, size: Tile, links: &[u8], refusal: Refusal) -> Result<(), Fail> {
    let mut numbers = [7; 64];
    check(places <= 64)?;
    check_eq(survey(size, links, &mut numbers[..places]), Err(refusal))?;
    check_eq(numbers, [7; 64])
}

// So is a survey of each row, where the list has room.
fn all_refused(rows: &[(Tile, &[u8], Refusal)]) -> Result<(), Fail> {
    for (size, links, refusal) in rows {
        refused(64, *size, links, *refusal)?;
    }
    Ok(())
}

// A survey that is handed 64 sevens is granted, writes these rows one after the other, and leaves the other places.
fn writes<const N: usize>(size: Tile, links: &[u8], rows: &[[Pull; N]]) -> Result<(), Fail> {
    let mut numbers = [7; 64];
    survey(size, links, &mut numbers)?;
    let wanted = rows.as_flattened().iter().chain(iter::repeat(&7));
    for (number, wanted) in numbers.iter().zip(wanted) {
        check_eq(number, wanted)?;
    }
    Ok(())
}

#[test]
fn pairs_refused() -> Result<(), Fail> {
    all_refused(&[
        (0, &[], Refusal::Size),
        (1, &[], Refusal::Size),
        (2, &[0, 1], Refusal::Size),
        (3, &[0], Refusal::Ragged),
        (3, &[0, 1, 1, 2, 0], Refusal::Ragged),
        (3, &[0, 1, 1, 2, 0, 3], Refusal::Stranger),
        (3, &[3, 0], Refusal::Stranger),
        (255, &[255, 0], Refusal::Stranger),
        (3, &[0, 0], Refusal::SelfPair),
        (3, &[0, 1, 1, 2, 0, 2, 2, 2], Refusal::SelfPair),
        (255, &[254, 254], Refusal::SelfPair),
        (3, &[0, 1, 1, 0], Refusal::Twice),
        (3, &[0, 1, 1, 2, 0, 2, 0, 1], Refusal::Twice),
    ])
}

#[test]
fn drawings_refused() -> Result<(), Fail> {
    all_refused(&[
        (8, &STAR, Refusal::Crowded),
        // Tile 7 joined to the tiles 0 to 6, named second and first.
        (
            8,
            &[6, 7, 7, 5, 4, 7, 7, 3, 2, 7, 7, 1, 0, 7],
            Refusal::Crowded,
        ),
        (3, &[], Refusal::Split),
        // A triangle and a tile apart: tile 3, then tile 0.
        (4, &[0, 1, 1, 2, 0, 2], Refusal::Split),
        (4, &[1, 2, 2, 3, 1, 3], Refusal::Split),
        // Two triangles.
        (6, &[0, 1, 1, 2, 0, 2, 3, 4, 4, 5, 3, 5], Refusal::Split),
        (3, &[0, 1, 1, 2], Refusal::Neck),
        // A triangle and a tile that hangs from it.
        (4, &[3, 2, 0, 1, 1, 2, 0, 2], Refusal::Neck),
        // Two triangles and a pair between them.
        (
            6,
            &[0, 1, 1, 2, 0, 2, 3, 4, 4, 5, 3, 5, 2, 3],
            Refusal::Neck,
        ),
        (
            6,
            &[3, 2, 0, 1, 1, 2, 0, 2, 3, 4, 4, 5, 3, 5],
            Refusal::Neck,
        ),
    ])
}

// Each but the last two breaks a later rule too, if only that its list is too short.
#[test]
fn order() -> Result<(), Fail> {
    let rows: [(usize, Tile, &[u8], Refusal); 15] = [
        (3, 2, &[0, 1, 1], Refusal::Size),
        (8, 3, &[9], Refusal::Ragged),
        (8, 3, &[0, 9, 1], Refusal::Ragged),
        (8, 3, &[3, 3], Refusal::Stranger),
        (8, 3, &[1, 1, 0, 3], Refusal::Stranger),
        (8, 3, &[1, 1, 1, 1], Refusal::SelfPair),
        (8, 3, &[0, 1, 1, 0, 2, 2], Refusal::SelfPair),
        (
            63,
            8,
            &[0, 1, 0, 2, 0, 3, 0, 4, 0, 5, 0, 6, 0, 7, 7, 0],
            Refusal::Twice,
        ),
        // Tile 8 stands apart.
        (64, 9, &STAR, Refusal::Crowded),
        (15, 4, &[0, 1], Refusal::Split),
        // The pair 3-4 stands apart and is in no ring.
        (24, 5, &[3, 4, 0, 1, 1, 2, 0, 2], Refusal::Split),
        (8, 3, &[0, 1, 1, 2], Refusal::Neck),
        (0, 4, &[0, 1, 1, 2, 0, 2, 2, 3], Refusal::Neck),
        (8, 3, &[0, 1, 1, 2, 0, 2], Refusal::ShortList),
        (0, 3, &[0, 1, 1, 2, 0, 2], Refusal::ShortList),
    ];
    for (places, size, links, refusal) in rows {
        refused(places, size, links, refusal)?;
    }
    Ok(())
}

// Row g has the steps to tile g.
#[test]
fn granted() -> Result<(), Fail> {
    let triangle = &[[0, 1, 1], [1, 0, 1], [1, 1, 0]];
    writes(3, &[0, 1, 1, 2, 0, 2], triangle)?;
    writes(3, &[2, 0, 2, 1, 1, 0], triangle)?;
    // A ring of four: two steps to the tile across.
    writes(
        4,
        &[0, 1, 1, 2, 2, 3, 3, 0],
        &[[0, 1, 2, 1], [1, 0, 1, 2], [2, 1, 0, 1], [1, 2, 1, 0]],
    )?;
    // Two triangles that share tile 2: two steps from one to the other, by way of it.
    writes(
        5,
        &[0, 1, 1, 2, 0, 2, 2, 3, 3, 4, 2, 4],
        &[
            [0, 1, 1, 2, 2],
            [1, 0, 1, 2, 2],
            [1, 1, 0, 1, 1],
            [2, 2, 1, 0, 1],
            [2, 2, 1, 1, 0],
        ],
    )
}

// Three triangles that share tile 0, which six tiles are joined to: not too many.
#[test]
fn six_joined() -> Result<(), Fail> {
    writes(
        7,
        &[0, 1, 0, 2, 1, 2, 0, 3, 0, 4, 3, 4, 0, 5, 0, 6, 5, 6],
        &[
            [0, 1, 1, 1, 1, 1, 1],
            [1, 0, 1, 2, 2, 2, 2],
            [1, 1, 0, 2, 2, 2, 2],
            [1, 2, 2, 0, 1, 2, 2],
            [1, 2, 2, 1, 0, 2, 2],
            [1, 2, 2, 2, 2, 0, 1],
            [1, 2, 2, 2, 2, 1, 0],
        ],
    )
}

// A list of just enough places.
#[test]
fn no_place_left() -> Result<(), Fail> {
    let mut numbers = [7; 9];
    survey(3, &[0, 1, 1, 2, 0, 2], &mut numbers)?;
    check_eq(numbers, [0, 1, 1, 1, 0, 1, 1, 1, 0])
}
