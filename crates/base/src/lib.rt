// What every layer shares: the reasons for which the planner says no.
#![tactic(auto)]

pub mod refusal;

pub use refusal::Refusal;
