//! Codes of characters, by the labels of their classes.

use std::alloc::{AllocError, Global};
use std::collections::BTreeMap;

/// How many numbers are codes.
const CODES: i128 = 128;

/// Whether a number is the code of a character.
pub(crate) fn is_code(number: i128) -> bool {
    0 <= number && number < CODES
}

/// Which class has which code.
#[derive(Drop)]
pub(crate) struct Codes {
    of_labels: BTreeMap<usize, i128>,
    labels: BTreeMap<i128, usize>,
}

impl Codes {
    pub fn new(alloc: Global) -> Codes {
        Codes {
            of_labels: BTreeMap::new(alloc),
            labels: BTreeMap::new(alloc),
        }
    }

    /// The class has this code from here on.
    pub fn set(&mut self, label: usize, code: i128) -> Result<(), AllocError> {
        self.of_labels.insert(label, code)?;
        if !self.labels.contains_key(&code) {
            self.labels.insert(code, label)?;
        }
        Ok(())
    }

    /// The same, where the class has none.
    pub fn offer(&mut self, label: usize, code: i128) -> Result<(), AllocError> {
        if self.of_labels.contains_key(&label) {
            return Ok(());
        }
        self.set(label, code)
    }

    /// The first class that got this code.
    pub fn label(&self, code: i128) -> Option<usize> {
        self.labels.get(&code).copied()
    }

    /// A code that no class has.
    fn unused(&self) -> i128 {
        let mut code = 127i128;
        for _ in 0..127 {
            if !self.labels.contains_key(&code) {
                return code;
            }
            code = code.saturating_sub(1);
        }
        0
    }

    /// The code of a class, which gets one that is not used if it has none.
    pub fn code(&mut self, label: usize) -> Result<i128, AllocError> {
        if let Some(code) = self.of_labels.get(&label) {
            return Ok(*code);
        }
        let code = self.unused();
        self.set(label, code)?;
        Ok(code)
    }
}
