//! Which cells something speaks of. Nothing is promised of the marks but that they are made: what is copied by them is
//! tested where it is copied.

use crate::store::Store;
use crate::word::Word;
use std::alloc::{AllocError, Global};

/// Notes where the cells begin and end that a word speaks of.
fn note(starts: &mut Vec<usize>, ends: &mut Vec<usize>, word: Word) {
    let (from, count) = match word {
        Word::Data(_, from, count) | Word::Sequence(from, count) => (from, count),
        Word::Number(_) | Word::Truth(_) | Word::Char(_) | Word::Null | Word::Reference(_) => {
            return;
        }
    };
    if count == 0 {
        return;
    }
    if let Some(start) = starts.get_mut(from) {
        *start = start.wrapping_add(1);
    }
    if let Some(end) = ends.get_mut(from.wrapping_add(count)) {
        *end = end.wrapping_add(1);
    }
}

/// Notes where the cells begin and end that words speak of.
fn note_all(starts: &mut Vec<usize>, ends: &mut Vec<usize>, words: &[Word]) {
    for word in words {
        note(starts, ends, *word);
    }
}

/// Marks the cells that these words speak of, and those that these speak of, and so on.
pub(crate) fn marks(
    alloc: Global,
    store: &Store,
    locals: &[Word],
    operands: &[Word],
    slots: &[Word],
) -> Result<Vec<bool>, AllocError> {
    let size = store.size();
    let mut starts = vec![in alloc; 0; size]?;
    let mut ends = vec![in alloc; 0; size]?;
    ends.push(0)?;
    let mut live = vec![in alloc; false; size]?;
    note_all(&mut starts, &mut ends, locals);
    note_all(&mut starts, &mut ends, operands);
    note_all(&mut starts, &mut ends, slots);
    // The pieces that end behind a cell and begin no later than there speak of it.
    let mut open: usize = 0;
    for cell in (0..size).rev() {
        if let Some(end) = ends.get(cell + 1) {
            open = open.wrapping_add(*end);
        }
        if open != 0 {
            if let Some(mark) = live.get_mut(cell) {
                *mark = true;
            }
            if let Some(word) = store.cell(cell) {
                note(&mut starts, &mut ends, word);
            }
        }
        if let Some(start) = starts.get(cell) {
            open = open.wrapping_sub(*start);
        }
    }
    Ok(live)
}
