// Drawn floors: what they adopt, what they stay, and what they answer.
use crate::checks::{check, check_answers, check_eq};
use crate::rings::ring_links;
use base::Refusal;
use drawn_floor::{DrawnFloor, survey};
use floor::{Floor, Pull, Tile};
use std::test::Fail;

// A ring of four with the pair 0-2 across, so that only 1 and 3 are two steps apart: its links, and its distances with
// one number more.
const KITE: [u8; 10] = [3, 0, 2, 0, 1, 0, 2, 1, 3, 2];

const KITE_PULLS: [Pull; 17] = [0, 1, 1, 1, 1, 0, 1, 2, 1, 1, 0, 1, 1, 2, 1, 0, 7];

// These two tiles are joined to the tile, and no third.
fn has_two_joined(floor: &DrawnFloor, tile: Tile, first: Tile, second: Tile) -> Result<(), Fail> {
    check_eq(floor.joined(tile, 0), Some(first))?;
    check_eq(floor.joined(tile, 1), Some(second))?;
    check_eq(floor.joined(tile, 2), None)
}

fn is_ring_of_three(floor: &DrawnFloor) -> Result<(), Fail> {
    check_eq(floor.size(), 3)?;
    check_eq(floor.reach(), 1)?;
    for (tile, first, second) in [(0, 1, 2), (1, 0, 2), (2, 0, 1)] {
        has_two_joined(floor, tile, first, second)?;
        check_eq(floor.pull(tile, tile), Some(0))?;
        check_eq(floor.pull(tile, first), Some(1))?;
        check_eq(floor.pull(tile, second), Some(1))?;
    }
    check_eq(floor.joined(3, 0), None)?;
    check_eq(floor.pull(3, 0), None)?;
    check_eq(floor.pull(0, 3), None)
}

fn is_kite(floor: &DrawnFloor) -> Result<(), Fail> {
    check_eq(floor.size(), 4)?;
    check_eq(floor.reach(), 2)?;
    check_answers(
        |tile, k| floor.joined(tile, k),
        &[
            (0, 0, Some(1)),
            (0, 1, Some(2)),
            (0, 2, Some(3)),
            (0, 3, None),
            (0, 6, None),
            (0, 255, None),
            (1, 0, Some(0)),
            (1, 1, Some(2)),
            (1, 2, None),
            (3, 0, Some(0)),
            (3, 1, Some(2)),
            (4, 0, None),
        ],
    )?;
    check_answers(
        |tile, goal| floor.pull(tile, goal),
        &[
            (0, 2, Some(1)),
            (1, 3, Some(2)),
            (3, 1, Some(2)),
            (3, 3, Some(0)),
            (0, 4, None),
            (4, 0, None),
        ],
    )
}

// Adopts the kite, and keeps it when it is handed links that name a fourth of three tiles.
fn becomes_kite(links: &[u8], pulls: &[Pull]) -> Result<(), Fail> {
    let mut floor = DrawnFloor::ring();
    check(floor.adopt(4, links, pulls))?;
    is_kite(&floor)?;
    check(!floor.adopt(3, links, pulls))?;
    is_kite(&floor)
}

fn stays_ring(size: Tile, links: &[u8], pulls: &[Pull]) -> Result<(), Fail> {
    let mut floor = DrawnFloor::ring();
    is_ring_of_three(&floor)?;
    check(!floor.adopt(size, links, pulls))?;
    is_ring_of_three(&floor)
}

#[test]
fn adopted() -> Result<(), Fail> {
    let mut numbers = [7; 17];
    survey(4, &KITE, &mut numbers)?;
    becomes_kite(&KITE, &numbers)?;
    becomes_kite(&KITE, &KITE_PULLS)?;
    becomes_kite(&KITE, &KITE_PULLS[0..16])
}

// The changed rows still lead to their goals, but not with the steps of a shortest walk from tile 1.
#[test]
fn not_adopted() -> Result<(), Fail> {
    let mut first_row = KITE_PULLS;
    first_row[1] = 2;
    let mut last_row = KITE_PULLS;
    last_row[13] = 3;
    let rows: [(Tile, &[u8], &[Pull]); 7] = [
        (4, &KITE, &first_row),
        (4, &KITE, &last_row),
        (4, &KITE, &KITE_PULLS[0..15]),
        (4, &KITE, &[]),
        // These are the steps of shortest walks, but both pairs are necks.
        (3, &[0, 1, 1, 2], &[0, 1, 2, 1, 0, 1, 2, 1, 0]),
        (3, &[0, 1, 1, 2, 0, 2, 0], &[0, 1, 1, 1, 0, 1, 1, 1, 0]),
        (2, &[0, 1], &[0, 1, 1, 0]),
    ];
    for (size, links, pulls) in rows {
        stays_ring(size, links, pulls)?;
    }
    Ok(())
}

// In a ring of 255 the way is the shorter of the two around it: from 10 to 200 it has 255 - 190 steps.
fn becomes_longest_ring(links: &[u8], pulls: &[Pull]) -> Result<(), Fail> {
    let mut floor = DrawnFloor::ring();
    check(floor.adopt(255, links, pulls))?;
    check_eq(floor.size(), 255)?;
    check_eq(floor.reach(), 127)?;
    for (tile, first, second) in [(0, 1, 254), (1, 0, 2), (100, 99, 101), (254, 0, 253)] {
        has_two_joined(&floor, tile, first, second)?;
    }
    check_eq(floor.joined(255, 0), None)?;
    check_answers(
        |tile, goal| floor.pull(tile, goal),
        &[
            (0, 254, Some(1)),
            (0, 127, Some(127)),
            (0, 128, Some(127)),
            (10, 200, Some(65)),
            (254, 254, Some(0)),
            (0, 255, None),
            (255, 0, None),
        ],
    )
}

#[test]
fn longest_ring(rt: HostRuntime) -> Result<(), Fail> {
    let heap = rt.alloc();
    let links = ring_links(heap, 255)?;
    let mut few = vec![in heap; 7; 65024]?;
    check_eq(survey(255, &links, &mut few), Err(Refusal::ShortList))?;
    check(few.iter().all(|number| *number == 7))?;
    let mut numbers = vec![in heap; 7; 65025]?;
    survey(255, &links, &mut numbers)?;
    becomes_longest_ring(&links, &numbers)
}
