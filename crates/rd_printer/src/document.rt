//! A document that is being printed.

ghost use Rattle.std.specs.Prelude.{◌≡◌, [], ◌++◌, length, OnErr, OnOk};

use rd_base::Bytes;
use std::alloc::{AllocError, Global};
use std::marker::Model;

/// A document that is being printed. Contracts see its bytes so far.
#[derive(Drop)]
pub struct Document {
    bytes: Vec<u8>,
}

impl Model for Document {
    ghost use Rattle.std.specs.Prelude.{ℕ, List};

    ghost Value = { List ℕ };

    ghost view = { λ d. d.bytes.items };
}

impl Document {
    pub fn new(alloc: Global) -> Self
        ensures { result ≡ [] }
    {
        Document {
            bytes: Vec::new(alloc),
        }
    }

    pub fn len(&self) -> usize
        ensures { result ≡ length self.now }
    {
        self.bytes.len()
    }

    /// Appends bytes. Room at least doubles where there is none, so that a long document is moved few times.
    pub fn append(&mut self, bytes: &[u8]) -> Result<(), AllocError>
        ensures ok { OnOk result (self.new ≡ self.old ++ bytes.now) }
        ensures err { OnErr result (self.new ≡ self.old) }
    {
        self.bytes.extend_from_slice(bytes)
    }

    /// Its bytes, which stay where they are.
    pub fn into_bytes(self) -> Bytes
        ensures { result ≡ self }
    {
        let Document { bytes } = self;
        Bytes::of(bytes)
    }
}
