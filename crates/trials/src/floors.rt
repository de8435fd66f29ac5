// Open floors: bounds, reach, joined tiles and pulls.
use crate::checks::{check, check_answers, check_eq};
use base::Refusal;
use floor::Floor;
use open_floor::OpenFloor;
use std::test::Fail;

#[test]
fn bounds() -> Result<(), Fail> {
    for (width, height) in [(15, 17), (17, 15), (2, 2), (127, 2), (3, 2)] {
        check(OpenFloor::new(width, height).is_ok())?;
    }
    for (width, height) in [(16, 16), (1, 5), (5, 1), (0, 0), (128, 2), (255, 255)] {
        check_eq(OpenFloor::new(width, height), Err(Refusal::Size))?;
    }
    Ok(())
}

// Columns 0 to 2 and rows 0 and 1:
//   0 1 2
//   3 4 5
#[test]
fn three_by_two() -> Result<(), Fail> {
    let floor = OpenFloor::new(3, 2)?;
    check_eq(floor.size(), 6)?;
    check_eq(floor.reach(), 3)?;
    check_answers(
        |tile, k| floor.joined(tile, k),
        &[
            (0, 0, Some(1)),
            (0, 1, Some(3)),
            (0, 2, None),
            (4, 0, Some(1)),
            (4, 1, Some(3)),
            (4, 2, Some(5)),
            (4, 3, None),
            (6, 0, None),
        ],
    )?;
    check_answers(
        |tile, goal| floor.pull(tile, goal),
        &[
            (0, 5, Some(3)),
            (5, 0, Some(3)),
            (2, 3, Some(3)),
            (4, 4, Some(0)),
            (4, 1, Some(1)),
            (0, 6, None),
            (6, 0, None),
        ],
    )
}
