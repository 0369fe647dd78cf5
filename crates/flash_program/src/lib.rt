//! What the program does of what its words choose, between a file, a reader and two writers, and the exit status that it
//! ends with.
//!
//! Status 0: all was done. 2: the image, the volume or memory failed. 3: a cut tore the tree. 4: the lines or standard output
//! failed. With 2 and 4 one line, `fault` and a name, goes to the writer for errors. Words that are not taken come to none of
//! this: their status is 1 (`choose`).
#![tactic(auto)]

mod acting;
mod checking;
mod choosing;
mod chosen;
mod commands;
mod creating;
mod cutting;
mod ending;
mod fault;
mod law;
mod memory;
mod opening;
mod options;
mod running;
mod space;

pub use acting::act;
pub use choosing::{choose, parse};
pub use chosen::Chosen;
pub use ending::report;
pub use exerciser::draw;
pub use fault::ProgramFault;
pub use law::only_a_cut_stops_the_program;
pub use line_shell::{ShellFault, shell};
