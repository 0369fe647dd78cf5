//! A shell: lines of words that ask for commands, the texts of replies, and the loop between a reader, a writer and
//! anything that serves commands.
#![tactic(auto)]

mod arguments;
mod fault;
mod flags;
mod input;
mod law;
mod line;
mod meaning;
mod number;
mod output;
mod reply;
mod run;
mod script;
mod word;

pub use fault::ShellFault;
pub use law::{
    the_lines_of_an_input_are_those_of_std, what_is_spelled_is_one_word, whole_lines_are_the_input,
};
pub use line::Line;
pub use meaning::parse;
pub use output::{write_bytes, write_tagged_numbers};
pub use reply::write_reply;
pub use run::shell;
pub use script::{ScriptFault, read_script};
