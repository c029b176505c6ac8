//! Exact distances in abstractions, which make up a pattern database if the abstraction is a projection: for each
//! abstract state the least total of shares over the walks to an abstract goal, found by a search backwards from the
//! goals. And the saturated cost function, the least shares that preserve these distances (Culberson and Schaeffer
//! 1998; Seipp, Keller and Helmert 2020).
#![tactic(auto)]

mod jobs;
mod kept;
mod least;
mod queue;
mod saturation;
mod scratch;
mod search;
mod table;

pub use jobs::{Job, build_all};
pub use saturation::saturate;
pub use scratch::Scratch;
pub use search::distances;
pub use table::take_table;
