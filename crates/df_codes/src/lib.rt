//! Codes by hand that tests and the bench run, each with the machine at a beginning from which it never faults.
#![tactic(auto)]

mod edges;
mod numbers;
mod parts;
mod programs;
mod refusing;
mod starts;

pub use edges::{edge_code, edge_vm};
pub use numbers::{number_code, number_vm, quotient_code, quotient_vm};
pub use parts::{method, shapes};
pub use programs::program_code;
pub use refusing::{refusing_code, refusing_vm};
pub use starts::{count_vm, even_vm, fib_vm, loop_vm, nest_vm, seven_vm};
