//! Parts of a line that keep its value small.

use rd_base::{Bytes, Units};
use std::alloc::{AllocError, Global};
use std::marker::Model;

/// The most bytes of a `ShortName`.
const MOST: usize = 8;

/// Up to eight bytes, which lie in the value itself.
#[derive(Drop)]
pub struct ShortName {
    bytes: [u8; MOST],
    len: u32,
}

impl Model for ShortName {
    ghost use Rattle.std.specs.Prelude.{◌≤◌, ℕ, List, take};

    ghost Value = { List ℕ };

    ghost view = { λ n. take n.len n.bytes };

    ghost invariant = { λ n. n.len ≤ 8 };
}

impl ShortName {
    ghost use Rattle.std.specs.Prelude.{◌≡◌, ◌≤◌, length, IfOk};

    pub fn of(name: &[u8]) -> Self
        requires { length name.now ≤ 8 }
        ensures { result ≡ name.now }
    {
        let mut bytes = [0; MOST];
        for i in 0..name.len() {
            bytes[i] = name[i];
        }
        ShortName {
            bytes,
            len: name.len() as u32,
        }
    }

    pub fn as_slice(&self) -> &[u8]
        ensures { result.now ≡ self.now }
    {
        &self.bytes[..self.len as usize]
    }

    /// The same bytes in memory of their own.
    pub fn to_bytes(&self, alloc: Global) -> Result<Bytes, AllocError>
        ensures { IfOk result (λ bytes. bytes ≡ self.now) }
    {
        Ok(Bytes::of(Vec::from_slice(alloc, self.as_slice())?))
    }
}

/// Units behind a pointer, for a line that has many other parts.
#[derive(Drop)]
pub struct BoxedUnits {
    units: Box<Units>,
}

impl Model for BoxedUnits {
    ghost use Rattle.std.specs.Prelude.{ℕ, List};

    ghost Value = { List ℕ };

    ghost view = { λ b. b.units.value };
}

impl BoxedUnits {
    ghost use Rattle.std.specs.Prelude.{◌≡◌, IfOk};

    pub fn of(alloc: Global, units: Units) -> Result<Self, AllocError>
        ensures { IfOk result (λ boxed. boxed ≡ units) }
    {
        let units = Box::new(alloc, units)?;
        Ok(BoxedUnits { units })
    }

    /// The same units once more, without the pointer.
    pub fn copy(&self) -> Result<Units, AllocError>
        ensures { IfOk result (λ units. units ≡ self.now) }
    {
        self.units.copy()
    }
}
