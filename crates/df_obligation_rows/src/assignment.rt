//! Values of free terms, as they are written.

use std::alloc::Global;

/// A value that is written for a free term.
#[derive(Clone, Copy)]
struct Given {
    free: usize,
    number: Option<i128>,
    truth: Option<bool>,
}

/// What is written for free terms.
#[derive(Drop)]
pub(crate) struct Assignment {
    given: Vec<Given>,
}

/// A truth that is written.
fn truth_of(text: &str) -> Option<bool> {
    if text == "true" {
        Some(true)
    } else if text == "false" {
        Some(false)
    } else {
        None
    }
}

/// What a word says of a free term: its number behind a `t`, `=`, and its value.
fn read_given(word: &str) -> Option<Given> {
    let (free, value) = word.split_once('=')?;
    let digits = free.strip_prefix('t')?;
    let free = digits.parse::<usize>().ok()?;
    Some(Given {
        free,
        number: value.parse::<i128>().ok(),
        truth: truth_of(value),
    })
}

/// Adds what a word says. Whether it says a value, and there was memory for it.
fn push_given(given: &mut Vec<Given>, word: &str) -> bool {
    match read_given(word) {
        Some(one) => given.push(one).is_ok(),
        None => false,
    }
}

/// Adds what each word says.
fn push_all_given(given: &mut Vec<Given>, words: &str) -> bool {
    for word in words.split(' ') {
        if !word.is_empty() && !push_given(given, word) {
            return false;
        }
    }
    true
}

impl Assignment {
    /// The values that words give; nothing where one gives none.
    pub(crate) fn read(alloc: Global, words: &str) -> Option<Assignment> {
        let mut given = Vec::new(alloc);
        if push_all_given(&mut given, words) {
            Some(Assignment { given })
        } else {
            None
        }
    }

    fn find(&self, free: usize) -> Option<Given> {
        for given in &self.given {
            if given.free == free {
                return Some(*given);
            }
        }
        None
    }

    /// The number of a free term.
    pub(crate) fn number(&self, free: usize) -> Option<i128> {
        self.find(free)?.number
    }

    /// The truth of a free term.
    pub(crate) fn truth(&self, free: usize) -> Option<bool> {
        self.find(free)?.truth
    }
}
