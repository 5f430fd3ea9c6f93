//! The contents of a file, which contracts see as the list of its bytes.

ghost use Rattle.std.specs.Prelude.{◌≡◌, ◌≤◌, ◌<◌, ◌^◌, ◌↔◌, ◌++◌, IsTrue, [], length, replicate, Err, IfOk, OnOk, OnErr};
ghost use Rattle.std.specs.Int.{div_ceil};
ghost use Rattle.rd_contents.specs.Contents.{part, resized, written, max_len, EndsTooFar};
ghost use Rattle.rd_contents.specs.Pages.{page_len};
ghost use Rattle.rd_contents.specs.declared.contents.SizeNo.TheVariants as SizeNo;

use crate::pages::{Pages, append, cut, make_room, put};
use rd_base::Bytes;
use std::alloc::{AllocError, Global};
use std::marker::Model;
use thiserror::Error;

/// The most bytes of a file.
pub const MAX_LEN: u64 = 1 << 40;

/// Why a file's bytes could not be changed. They are as they were.
#[derive(Clone, Copy, Debug, PartialEq, Eq, Error)]
pub enum SizeNo {
    #[error("a file has at most 2^40 bytes")]
    TooBig,
    #[error("out of memory")]
    Memory,
}

/// The bytes of a file.
#[derive(Drop)]
pub struct Contents {
    alloc: Global,
    end: u64,
    pages: Pages,
}

impl Model for Contents {
    ghost use Rattle.std.specs.Prelude.{List, ℕ};
    ghost use Rattle.rd_contents.specs.Pages.{bytes_from, IsSound};

    ghost Value = { List ℕ };

    ghost view = { λ c. bytes_from c.pages.entries 0 c.end };

    ghost invariant = { λ c. IsSound c.end c.pages.entries };
}

impl Contents {
    /// No bytes.
    pub fn new(alloc: Global) -> Self
        ensures { result ≡ [] }
    {
        Contents {
            alloc,
            end: 0,
            pages: Pages::new(alloc),
        }
    }

    /// How many bytes there are.
    pub fn len(&self) -> u64
        ensures len { result ≡ length self.now }
        ensures most { result ≤ max_len }
    {
        self.end
    }

    /// Whether there are none.
    pub fn is_empty(&self) -> bool
        ensures { IsTrue result ↔ self.now ≡ [] }
    {
        self.end == 0
    }

    /// How many pages are kept: at most as many as the bytes fill, and none only where all bytes are zero.
    pub fn pages(&self) -> usize
        ensures most { result ≤ div_ceil (length self.now) page_len }
        ensures none { result ≡ 0 → self.now ≡ replicate (length self.now) 0 }
    {
        self.pages.len()
    }

    /// Appends the bytes from an offset up to the end, at most `length`.
    pub fn read_into(&self, out: &mut Vec<u8>, offset: u64, length: u32) -> Result<(), AllocError>
        ensures read { OnOk result (out.new.items ≡ out.old.items ++ part self.now offset length) }
        ensures err { OnErr result (out.new.items ≡ out.old.items) }
    {
        let count = self.end.saturating_sub(offset).min(u64::from(length)) as usize;
        out.try_reserve(count)?;
        append(out, &self.pages, offset, count);
        Ok(())
    }

    /// The bytes from an offset up to the end, at most `length`.
    pub fn read(&self, offset: u64, length: u32) -> Result<Bytes, AllocError>
        ensures { IfOk result (λ bytes. bytes ≡ part self.now offset length) }
    {
        let mut out = Vec::new(self.alloc);
        self.read_into(&mut out, offset, length)?;
        Ok(Bytes::of(out))
    }

    /// Writes bytes at an offset. A gap between the end and the offset reads as zeros, and no bytes change nothing.
    pub fn write(&mut self, offset: u64, bytes: &[u8]) -> Result<(), SizeNo>
        ensures written { OnOk result (self.new ≡ written self.old offset bytes.now) }
        ensures too_big { (result ≡ Err SizeNo.TooBig) ↔ (EndsTooFar offset bytes.now) }
        ensures err { OnErr result (self.new ≡ self.old) }
    {
        if bytes.is_empty() {
            return Ok(());
        }
        if offset > MAX_LEN || bytes.len() as u64 > MAX_LEN - offset {
            return Err(SizeNo::TooBig);
        }
        if make_room(self.alloc, &mut self.pages, offset, bytes.len()).is_err() {
            cut(&mut self.pages, self.end);
            return Err(SizeNo::Memory);
        }
        put(&mut self.pages, offset, bytes);
        self.end = self.end.max(offset + bytes.len() as u64);
        Ok(())
    }

    /// Cuts at an end, or extends to it by zeros. What was cut off never shows again, and its pages are given back.
    pub fn resize(&mut self, end: u64) -> Result<(), SizeNo>
        ensures resized { OnOk result (self.new ≡ resized self.old end) }
        ensures too_big { (result ≡ Err SizeNo.TooBig) ↔ (max_len < end) }
        ensures err { OnErr result (self.new ≡ self.old) }
    {
        if end > MAX_LEN {
            return Err(SizeNo::TooBig);
        }
        if end < self.end {
            cut(&mut self.pages, end);
        }
        self.end = end;
        Ok(())
    }
}
