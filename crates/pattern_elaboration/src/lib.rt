//! Makes the patterns of the engine from the written patterns of a function that breaks no rule.
#![tactic(auto)]

pub mod build;
pub mod fields;
pub mod forms;
pub mod leaves;
pub mod literals;
pub mod names;
pub mod parts;
pub mod placing;
pub mod references;
pub mod rows;
pub mod top;
pub mod types;
pub mod walk;
