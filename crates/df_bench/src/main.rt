//! Runs layers alone, for their speed. With the name of one and a number it runs that one at that size, and tells
//! how long it took; with no words it runs each at a small size, and tells what it came to.
#![tactic(auto)]

mod emitting;
mod running;
mod writing;

use crate::emitting::emit_statements;
use crate::running::{Start, run};
use crate::writing::write_statements;
use anyhow::{Context, Result, ensure};
use std::env;
use std::time::Duration;

/// A layer.
#[derive(Clone, Copy, PartialEq, Eq)]
enum Layer {
    /// The machine, from a method.
    Machine(Start),
    /// The writer of listings.
    Listing,
    /// The emitter.
    Emitter,
}

/// What can be run: its name, and a small size.
const BENCHES: [(&str, Layer, u32); 5] = [
    ("count", Layer::Machine(Start::Count), 1000),
    ("fib", Layer::Machine(Start::Fibonacci), 15),
    ("deep", Layer::Machine(Start::Even), 1000),
    ("write", Layer::Listing, 1000),
    ("emit", Layer::Emitter, 1000),
];

/// The layer of a name.
fn named(name: &str) -> Option<Layer> {
    for (known, layer, _) in BENCHES {
        if known == name {
            return Some(layer);
        }
    }
    None
}

/// Runs a layer at a size: what it came to, and how long it took.
fn timed(rt: &HostRuntime, layer: Layer, size: u32) -> Result<(String, Duration)> {
    ensure!(size < 1 << 31, "a size is below 2^31");
    match layer {
        Layer::Machine(start) => run(rt, start, size),
        Layer::Listing => write_statements(rt, size),
        Layer::Emitter => emit_statements(rt, size),
    }
}

/// Runs each at its small size, and tells what it came to.
fn run_all(rt: &HostRuntime) -> Result<()> {
    for (name, layer, size) in BENCHES {
        let (result, _) = timed(rt, layer, size)?;
        println!(rt; "{name} {size}: {result}")?;
    }
    Ok(())
}

/// The size that the second word says.
fn wanted_size(rt: &HostRuntime) -> Result<u32> {
    let size = env::args(rt)?.nth(2).context("a size")?.parse::<u32>()?;
    Ok(size)
}

/// Runs the layer of a name at a size, and tells what it came to and how long it took.
fn run_at(rt: &HostRuntime, name: &str, size: u32) -> Result<()> {
    let layer = named(name).context("count, fib, deep, write or emit")?;
    let (result, time) = timed(rt, layer, size)?;
    let micros = time.as_micros();
    println!(rt; "{name} {size}: {result}, {micros} microseconds")?;
    Ok(())
}

/// Runs the layer of a name at the size that the second word says.
fn run_one(rt: &HostRuntime, name: &str) -> Result<()> {
    let size = wanted_size(rt)?;
    run_at(rt, name, size)
}

fn main(rt: HostRuntime) -> Result<()> {
    match env::args(&rt)?.nth(1) {
        Some(name) => run_one(&rt, name.as_str()),
        None => run_all(&rt),
    }
}
