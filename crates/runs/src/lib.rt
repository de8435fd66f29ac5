// What a run sheet prints.
#![tactic(auto)]

pub mod lines;
pub mod reports;
pub mod stop;

pub use reports::report;
