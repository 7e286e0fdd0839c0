//! The bytes of a file, in one place for all that have them.

ghost use Rattle.std.specs.Prelude.{◌≡◌, IfOk};

use std::alloc::{AllocError, Global};
use std::marker::Model;
use std::rc::Rc;

/// The bytes of a file, in the place where the files that gave them keep them too.
#[derive(Drop)]
pub struct FileBytes {
    shared: Rc<Vec<u8>>,
}

impl Model for FileBytes {
    ghost use Rattle.std.specs.Prelude.{ℕ, List};

    ghost Value = { List ℕ };

    ghost view = { λ f. f.shared.value.items };
}

impl FileBytes {
    /// These bytes.
    pub(super) fn new(alloc: Global, bytes: Vec<u8>) -> Result<FileBytes, AllocError>
        ensures { IfOk result (λ file. file ≡ bytes.items) }
    {
        let Ok(shared) = Rc::new(alloc, bytes) else {
            return Err(AllocError);
        };
        Ok(FileBytes { shared })
    }

    /// The bytes in order.
    pub fn as_slice(&self) -> &[u8]
        ensures { result.now ≡ self.now }
    {
        self.shared.as_slice()
    }

    /// The same bytes in the same place.
    pub(super) fn share(&self) -> Result<FileBytes, AllocError>
        ensures { IfOk result (λ same. same ≡ self.now) }
    {
        Ok(FileBytes {
            shared: self.shared.clone()?,
        })
    }
}
