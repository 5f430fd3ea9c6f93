//! The recording of a session, gathered and written in pieces.

ghost use Rattle.std.specs.Prelude.{◌≡◌, ℕ, List, [], ◌++◌, codes, map, IfOk, OnErr, OnOk};
ghost use Rattle.std.specs.List.{flat_map};
ghost use Rattle.std.specs.Io.KnownBytes.{Appends};
ghost use Rattle.rd_base.specs.Faults.{CountsFault};
ghost use Rattle.rd_base.specs.Prefixes.{AppendsPrefix};
ghost use Rattle.rd_chunk.specs.Carrier.{IsMessage, frames_for};
ghost use Rattle.rd_world.specs.Recording.{begins, ends, from_client, from_host, mark_before, recording_entry_bytes};

use rd_base::{Failed, Sink, write_all};
use rd_chunk::{CHUNK_LEN, put_frame};
use std::alloc::{AllocError, Global};
use std::marker::Model;

/// What a recording begins with.
const MAGIC: &[u8] = b"RDRREC01";

/// The first byte of an entry: a frame of the host or of the client, and a channel's begin and end.
const HOST: u8 = 0;

const CLIENT: u8 = 1;

const BEGINS: u8 = 2;

const ENDS: u8 = 3;

/// From how many gathered bytes on they are written.
const PIECE: usize = 65_536;

/// What was recorded and isn't written yet. Contracts see its bytes.
#[derive(Drop)]
pub struct Recorder {
    gathered: Vec<u8>,
}

impl Model for Recorder {
    ghost use Rattle.std.specs.Prelude.{ℕ, List};

    ghost Value = { List ℕ };

    ghost view = { λ r. r.gathered.items };
}

impl Recorder {
    /// A recording without entries.
    pub fn new(alloc: Global) -> Result<Self, AllocError>
        ensures { IfOk result (λ recorder. recorder ≡ codes "RDRREC01") }
    {
        let mut gathered = Vec::with_capacity(alloc, PIECE)?;
        gathered.extend_from_slice(MAGIC)?;
        Ok(Recorder { gathered })
    }

    /// A channel begins.
    pub fn begin(&mut self) -> Result<(), AllocError>
        ensures { OnOk result (self.new ≡ self.old ++ recording_entry_bytes begins) }
    {
        self.gathered.push(BEGINS)?;
        Ok(())
    }

    /// The channel ended.
    pub fn end(&mut self) -> Result<(), AllocError>
        ensures { OnOk result (self.new ≡ self.old ++ recording_entry_bytes ends) }
    {
        self.gathered.push(ENDS)?;
        Ok(())
    }

    /// The host sent a message: each frame of it is an entry.
    #[tactic(auto, using(crate::proofs::RecorderLemmas::host_entries))]
    pub fn host_sent(&mut self, message: &[u8]) -> Result<(), AllocError>
        requires { IsMessage message.now }
        ensures { OnOk result (self.new ≡ self.old ++ flat_map recording_entry_bytes (map from_host (frames_for message.now))) }
    {
        put_entries(&mut self.gathered, HOST, message)
    }

    /// The client sent a message.
    #[tactic(auto, using(crate::proofs::RecorderLemmas::client_entries))]
    pub fn client_sent(&mut self, message: &[u8]) -> Result<(), AllocError>
        requires { IsMessage message.now }
        ensures { OnOk result (self.new ≡ self.old ++ flat_map recording_entry_bytes (map from_client (frames_for message.now))) }
    {
        put_entries(&mut self.gathered, CLIENT, message)
    }

    /// Writes what was gathered, where it is a piece.
    pub fn write_piece<R: Sink>(&mut self, wire: &mut R) -> Result<(), Failed>
        ensures counted { CountsFault result (R.faults wire.old) (R.faults wire.new) }
        ensures written { OnOk result ((written : List ℕ) × (self.old ≡ written ++ self.new) × Appends (R.held wire.old) (R.held wire.new) written) }
        ensures prefix { OnErr result (AppendsPrefix (R.held wire.old) (R.held wire.new) self.old) }
    {
        if self.gathered.len() < PIECE {
            return Ok(());
        }
        self.write_all(wire)
    }

    /// Writes all that was gathered.
    pub fn write_all<R: Sink>(&mut self, wire: &mut R) -> Result<(), Failed>
        ensures counted { CountsFault result (R.faults wire.old) (R.faults wire.new) }
        ensures written { OnOk result ((self.new ≡ []) × Appends (R.held wire.old) (R.held wire.new) self.old) }
        ensures prefix { OnErr result (AppendsPrefix (R.held wire.old) (R.held wire.new) self.old) }
    {
        write_all(wire, self.gathered.as_slice())?;
        self.gathered.clear();
        Ok(())
    }
}

/// Puts the frames of a message after what was gathered, each after the mark of the side that sent it.
fn put_entries(gathered: &mut Vec<u8>, mark: u8, message: &[u8]) -> Result<(), AllocError>
    requires { IsMessage message.now }
    ensures { OnOk result (gathered.new.items ≡ gathered.old.items ++ flat_map (mark_before mark) (frames_for message.now)) }
{
    for k in 0..message.len().div_ceil(CHUNK_LEN) {
        gathered.push(mark)?;
        put_frame(gathered, message, k)?;
    }
    Ok(())
}
