//! The back end: the machine code of a program, which runs as the program does.
#![tactic(auto)]

mod compiling;
mod law;
mod numbering;

pub use compiling::compile;
pub use df_nerase::EraseFault;
pub use law::{compiled_code_never_faults, methods_by_number_have_names, the_entry_runs};
pub use numbering::number_on_machine;
