//! Typing of files: the typed program of a source file, or the least rule of typing that it breaks.
#![tactic(auto)]

mod files;
mod methods;
mod newtypes;

pub use files::elaborate;
