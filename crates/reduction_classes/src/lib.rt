//! Classes of the values of a finite-domain task, and the reduced task under them: values in one class are not
//! distinguished, and variables with one class are left out.
#![tactic(auto)]

mod classes;
mod laws;
mod task;

pub use classes::Classes;
pub use laws::{
    images_follow_steps, reduced_task_has_bounds_of_task, reduced_task_is_task,
    worked_road_with_lamp,
};
