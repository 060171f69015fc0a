// The choice between the two predictions, the code of the chosen one, and what the predictors learn.
#![tactic(auto)]

mod choice;
mod predict;

pub use choice::{chosen, written, written_by_table};
pub use predict::Predictors;
