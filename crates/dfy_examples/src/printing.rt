//! What is printed of obligations: how many there are, and their sequents for those who check a log.

use anyhow::Result;
use df_nowed::Obligations;
use df_obligation_rows::{Head, sheet};

/// How many obligations there are, and how many formulas their methods know.
#[derive(Clone, Copy, Default)]
struct Sizes {
    obligations: usize,
    known: usize,
}

fn sizes_of(obligations: &Obligations) -> Sizes {
    let mut sizes = Sizes::default();
    for method in &obligations.methods {
        sizes.obligations = sizes.obligations.saturating_add(method.obligations.len());
        sizes.known = sizes.known.saturating_add(method.known.as_slice().len());
    }
    sizes
}

/// Prints how many obligations the source of this path has, and how many hypotheses.
pub fn print_counts(rt: &HostRuntime, name: &str, obligations: &Obligations) -> Result<()> {
    let Sizes { obligations, known } = sizes_of(obligations);
    println!(rt; "{name}: {obligations} obligations, {known} hypotheses")?;
    Ok(())
}

/// Prints the newtypes and the sequents of a program.
pub fn print_sequents(rt: &HostRuntime, heads: &[Head], obligations: &Obligations) -> Result<()> {
    let text = sheet(rt.alloc(), heads, obligations)?;
    println!(rt; "{text}")?;
    Ok(())
}
