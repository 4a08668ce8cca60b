//! The program: reads its words, does what they say with the parts of the outside, and prints what came of it.
//! Stands on `swh_exit` for what a run comes to and for the archive in a folder, on `swh_outside`, on `swh_words`,
//! `swh_jobs`, `swh_keeper`, `swh_check`, `swh_loader`, `swh_pool`, `swh_api`, `swh_cook`, `swh_identify` and
//! `swh_swhid` for what its commands do, and on crates below these whose types and definitions its clauses cite;
//! crates.txt lists all. `swharc` may rely on: the clauses of `run`, which are the archive theorem for the commands
//! that stand; what each command does is a record of its own (`Does` in specs/Commands.antt names them).
#![tactic(auto)]

mod ask_command;
mod check_command;
mod cook_command;
mod init_command;
mod job_inputs;
mod job_reading;
mod limits;
mod load_command;
mod outside;
mod own;
mod reading;
mod telling;
mod top;

pub use init_command::init;
pub use job_reading::read_jobs;
pub use limits::limits_in_numbers;
pub use outside::{Outside, Shown};
pub use own::{own_files_outlast_crashes, usable_images_are_own};
pub use reading::{Reading, read_archive};
pub use top::run;
