// Drawn floors: surveyed from a list of joined tiles, and adopted with the distances that a survey leaves.
#![tactic(auto)]

pub mod adoption;
pub mod drawing;
pub mod drawn;
pub mod joined_tiles;
pub mod links;
pub mod marks;
pub mod questions;
pub mod search;
pub mod surveying;
pub mod walking;

pub use drawn::DrawnFloor;
pub use surveying::survey;
