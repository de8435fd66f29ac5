// Open floors: a full rectangle of tiles.
#![tactic(auto)]

pub mod grid;
pub mod questions;

pub use grid::OpenFloor;
