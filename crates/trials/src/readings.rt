// What sheets print: each refusal of the reader with the place that it names, and the order of its tests.
use crate::checks::check_eq;
use runs::report;
use std::alloc::{AllocError, Global};
use std::test::Fail;

// An open floor of 3 by 2, as the first field.
const OPEN: [u8; 5] = [1, 0, 2, 3, 2];

fn prints(heap: Global, sheet: &[u8], text: &str) -> Result<(), Fail> {
    check_eq(report(heap, sheet)?.as_str(), text)
}

// The bytes of a 3 by 2 floor, then `more`.
fn after_floor(heap: Global, more: &[u8]) -> Result<Vec<u8>, AllocError> {
    [OPEN.as_slice(), more].concat(heap)
}

// Each row has what stands after the floor, and what the sheet prints.
fn all_print(heap: Global, rows: &[(&[u8], &str)]) -> Result<(), Fail> {
    for (more, text) in rows {
        prints(heap, after_floor(heap, more)?.as_slice(), text)?;
    }
    Ok(())
}

#[test]
fn first_fields(rt: HostRuntime) -> Result<(), Fail> {
    let heap = rt.alloc();
    prints(heap, &[], "stop sheet 20 0\n")?;
    prints(heap, &[1], "stop sheet 17 0\n")?;
    prints(heap, &[9, 0], "stop sheet 17 0\n")?;
    prints(heap, &[9, 0, 1], "stop sheet 17 0\n")?;
    prints(heap, &[9, 1, 0, 7], "stop sheet 17 0\n")?;
    prints(heap, &[0, 0, 0], "stop sheet 18 0\n")?;
    prints(heap, &[8, 0, 1, 7], "stop sheet 18 0\n")?;
    prints(heap, &[3, 0, 2, 0, 0], "stop sheet 19 0\n")?;
    prints(heap, &[2, 0, 0], "stop sheet 19 0\n")?;
    prints(heap, &[1, 0, 3, 3, 2, 0], "stop sheet 19 0\n")?;
    prints(heap, &[3, 0, 1, 9], "stop sheet 20 0\n")?;
    prints(heap, &[7, 0, 0], "stop sheet 20 0\n")?;
    prints(heap, &[1, 0, 2, 16, 16], "stop floor 1 0\n")?;
    prints(heap, &[1, 0, 2, 1, 5, 9], "stop floor 1 0\n")
}

#[test]
fn second_fields(rt: HostRuntime) -> Result<(), Fail> {
    all_print(
        rt.alloc(),
        &[
            (&[], "floor 6 3\nstop sheet 20 5\n"),
            (&[3, 0], "floor 6 3\nstop sheet 17 5\n"),
            (&[3, 0, 1], "floor 6 3\nstop sheet 17 5\n"),
            (&[77, 0, 0], "floor 6 3\nstop sheet 18 5\n"),
            (&[3, 0, 2, 1, 1], "floor 6 3\nstop sheet 19 5\n"),
            (&[1, 0, 2, 3, 2], "floor 6 3\nstop sheet 20 5\n"),
            (&[4, 0, 2, 0, 0], "floor 6 3\nstop sheet 20 5\n"),
            (&[3, 0, 1, 3], "floor 6 3\nstop sheet 21 5\n"),
            (&[3, 0, 1, 2], "floor 6 3\nok\n"),
            (
                &[3, 0, 1, 0, 3, 0, 1, 0],
                "floor 6 3\nok\nstop sheet 20 9\n",
            ),
        ],
    )
}

#[test]
fn later_fields(rt: HostRuntime) -> Result<(), Fail> {
    all_print(
        rt.alloc(),
        &[
            (
                &[3, 0, 1, 1, 4, 0, 2, 0, 0, 6, 0, 1, 0, 7, 0, 0],
                "floor 6 3\nok\n",
            ),
            (
                &[3, 0, 1, 1, 7, 0, 1, 0],
                "floor 6 3\nok\nstop sheet 19 9\n",
            ),
            (
                &[3, 0, 1, 1, 7, 0, 0, 6, 0, 2, 0, 0],
                "floor 6 3\nok\nstop sheet 19 12\n",
            ),
            (
                &[3, 0, 1, 1, 7, 0, 0, 2, 0, 1, 3],
                "floor 6 3\nok\nstop sheet 20 12\n",
            ),
            (
                &[3, 0, 1, 1, 5, 1, 2, 0, 0],
                "floor 6 3\nok\nstop sheet 17 9\n",
            ),
            (&[3, 0, 1, 1, 8, 0, 0], "floor 6 3\nok\nstop sheet 18 9\n"),
            (&[3, 0, 1, 1, 7, 0], "floor 6 3\nok\nstop sheet 17 9\n"),
        ],
    )
}

// A floor, a preference and beats up to 60,000 bytes, and then one byte more.
#[test]
fn longest(rt: HostRuntime) -> Result<(), Fail> {
    let heap = rt.alloc();
    let mut sheet = after_floor(heap, &[3, 0, 1, 0])?;
    for _ in 0..19997 {
        sheet.extend_from_slice(&[7, 0, 0])?;
    }
    check_eq(sheet.len(), 60000)?;
    prints(heap, sheet.as_slice(), "floor 6 3\nok\n")?;
    sheet.push(0)?;
    prints(heap, sheet.as_slice(), "stop sheet 16 0\n")
}
