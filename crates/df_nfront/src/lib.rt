//! The front: the program of a source, or the first rule that the source breaks.
#![tactic(auto)]

mod law;
mod line;
mod reading;

pub use law::{
    declarations_have_names, methods_have_names, one_program, one_refusal, refused_is_unlawful,
};
pub use line::{pos_text, refusal_line};
pub use reading::read;
