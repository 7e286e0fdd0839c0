//! Marks of the combinations that the last one needs, directly or not.

use df_form::Combination;
use std::alloc::{AllocError, Global};

/// Whether there is such a number, and it is marked.
pub(crate) fn is_marked(marks: &[bool], number: usize) -> bool {
    match marks.get(number) {
        Some(mark) => *mark,
        None => false,
    }
}

/// Marks the combinations whose rows the combination takes. The given rows have none.
fn mark_rows(marks: &mut [bool], given: usize, combination: &Combination) {
    for member in &combination.members {
        if member.row >= given {
            let number = member.row - given;
            if number < marks.len() {
                marks[number] = true;
            }
        }
    }
}

/// Marks of those of the combinations that a later one needs.
pub(crate) fn needed_marks(
    alloc: Global,
    given: usize,
    combinations: &[Combination],
    last: &Combination,
) -> Result<Vec<bool>, AllocError> {
    let mut marks = vec![in alloc; false; combinations.len()]?;
    mark_rows(&mut marks, given, last);
    for (number, combination) in combinations.iter().enumerate().rev() {
        if is_marked(&marks, number) {
            mark_rows(&mut marks, given, combination);
        }
    }
    Ok(marks)
}
