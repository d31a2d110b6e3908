// Runs replay scripts over the layers below.
#![tactic(auto)]

mod calls;
pub mod rack;
pub mod run;
pub mod stop;
pub mod summary;
