//! Logs: the steps that the empty clause needs, in order.

use crate::recording::Recorder;
use df_clauses::{Book, Origin};
use df_form::Step;
use std::alloc::{AllocError, Global};
use std::collections::BTreeSet;

/// What the clause is learned from waits.
fn wait_for(waiting: &mut BTreeSet<usize>, book: &Book, number: usize) -> Result<(), AllocError> {
    let Some(clause) = book.clause(number) else {
        return Ok(());
    };
    if let Origin::Learned(antecedents) = &clause.origin {
        for antecedent in antecedents.iter() {
            waiting.insert(*antecedent)?;
        }
    }
    Ok(())
}

/// The clauses that are needed for the last one, the latest first.
fn needed_for(alloc: Global, book: &Book, last: usize) -> Result<Vec<usize>, AllocError> {
    let mut needed = Vec::new(alloc);
    let mut waiting = BTreeSet::new(alloc);
    waiting.insert(last)?;
    // A clause is learned from earlier ones, so none comes twice.
    for _ in 0..book.len() {
        let Some(number) = waiting.pop_last() else {
            break;
        };
        needed.push(number)?;
        wait_for(&mut waiting, book, number)?;
    }
    Ok(needed)
}

/// The log that ends with a clause of the book, which is empty, after what is recorded already.
pub fn log_of(mut recorder: Recorder, book: &Book, last: usize) -> Result<Vec<Step>, AllocError> {
    let needed = needed_for(recorder.alloc, book, last)?;
    for number in needed.iter().rev() {
        if let Some(clause) = book.clause(*number) {
            recorder.record(*number, clause)?;
        }
    }
    Ok(recorder.steps)
}
