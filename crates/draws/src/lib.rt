//! What is drawn from a number: the turns of a run's actors, and the job of a load.
//!
//! A number draws the words of 32 bits that `Lcg64Xsh32` gives after `seed_from_u64`
//! (`specs/Draws.antt`). `schedule` takes each of them modulo the actors. `load_job` makes a
//! channel program of each three (`specs/Load.antt`); a load is a whole job, as one that was read.
#![tactic(auto)]

mod load;
mod program;
mod turns;

pub use load::load_job;
pub use turns::schedule;
