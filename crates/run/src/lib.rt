// The six calls as definitions, the runs that are made of them, and the laws of every run.
#![tactic(auto)]

mod consoles;
mod laws;
mod state;

pub use consoles::worked_consoles;
pub use laws::{call_law, laws_of_runs, runs_stand};
pub use state::{CallKind, State};
