// Measures how long drawn floors take to be laid, on the largest drawing there is.
#![tactic(auto)]

mod drawing;
mod times;

use crate::drawing::{TILES, largest_links};
use crate::times::Times;
use drawn_floor::{DrawnFloor, survey};
use floor::{Floor, Pull};
use std::{env, io};

// A place for each pair of a tile and a goal.
const DISTANCES: usize = TILES as usize * TILES as usize;

// A refused survey is an error, since it ends early and its time says nothing.
fn lay(links: &[u8], distances: &mut [Pull]) -> io::Result<()> {
    survey(TILES, links, distances).map_err(|_| io::Error::from(io::ErrorKind::InvalidData))
}

// A floor to adopt on has to be made each time; a ring costs little. Where the adoption is refused, the reach is that of
// the ring, 1.
fn adopted(links: &[u8], numbers: &[Pull]) -> Pull {
    let mut floor = DrawnFloor::ring();
    floor.adopt(TILES, links, numbers);
    floor.reach()
}

// Surveys first, since what a survey leaves is what is adopted. The reach is printed too, so that a reader sees what was
// adopted.
fn measure(rt: &HostRuntime) -> io::Result<()> {
    let links = largest_links(rt.alloc())?;
    let pairs = links.len() / 2;
    let mut distances = vec![in rt.alloc(); 0; DISTANCES]?;
    let surveys = Times::of(rt, || lay(&links, &mut distances))?;
    println!(rt; "survey {TILES} tiles, {pairs} pairs: {surveys}")?;
    let mut reach = 0;
    let adoptions = Times::of(rt, || {
        reach = adopted(&links, &distances);
        Ok(())
    })?;
    println!(rt; "adopt {TILES} tiles: {adoptions}")?;
    println!(rt; "reach {reach}")
}

// Nothing is measured unasked: a figure differs from run to run, and the gate compares what is printed.
fn asks_for_survey(rt: &HostRuntime) -> io::Result<bool> {
    let word = env::args(rt)?.nth(1);
    Ok(word.is_some_and(|word| word.as_str() == "survey"))
}

// Any other call says what can be asked for.
fn main(rt: HostRuntime) -> io::Result<()> {
    if asks_for_survey(&rt)? {
        measure(&rt)
    } else {
        rt.println("usage: bench survey")
    }
}
