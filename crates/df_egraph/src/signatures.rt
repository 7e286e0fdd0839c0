//! Applications of operations, and the table by which congruent ones are found.

use df_form::Op;
use std::alloc::{AllocError, Global};
use std::collections::HashMap;

/// An operation on one part or on two.
#[derive(Clone, Copy, PartialEq, Eq, Hash)]
pub struct Application {
    pub op: Op,
    pub left: usize,
    pub right: Option<usize>,
}

/// What an entry was before it changed.
#[derive(Clone, Copy)]
pub(crate) struct Entry {
    pub signature: Application,
    pub before: Option<usize>,
}

/// A term for each signature: an application with labels in place of its parts.
#[derive(Drop)]
pub(crate) struct Signatures {
    terms: HashMap<Application, usize>,
}

impl Signatures {
    pub fn new(alloc: Global) -> Signatures {
        Signatures {
            terms: HashMap::new(alloc),
        }
    }

    pub fn term(&self, signature: &Application) -> Option<usize> {
        self.terms.get(signature).copied()
    }

    /// The term stands for the signature. What did before.
    pub fn enter(&mut self, signature: Application, term: usize) -> Result<Entry, AllocError> {
        let before = self.term(&signature);
        self.terms.insert(signature, term)?;
        Ok(Entry { signature, before })
    }

    /// Takes a change back. Where memory is refused the entry is lost.
    pub fn restore(&mut self, entry: Entry) -> Result<(), AllocError> {
        match entry.before {
            Some(term) => {
                self.terms.insert(entry.signature, term)?;
            }
            None => {
                self.terms.remove(&entry.signature);
            }
        }
        Ok(())
    }
}
