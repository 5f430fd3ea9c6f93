//! All events of one kind at once, and the rounds with which a channel begins.

ghost use Rattle.std.specs.Prelude.{◌≡◌, ◌<◌, ◌^◌, ℕ, Bool, true, OnOk, Some};
ghost use Rattle.rd_base.specs.declared.journal.Key.{Key};
ghost use Rattle.rd_world.specs.Events.{act, connect, is_enabled};
ghost use Rattle.rd_world.specs.Recording.{recording_of_deeds};
ghost use Rattle.rd_world.specs.Wire.{StaysRecorded};
ghost use Rattle.rd_world.specs.Run.{all_client_sends, all_host_sends, client_reads_all, host_reads_all, is_quiet, rounds};

use crate::recorder::Recorder;
use crate::world::World;
use std::alloc::AllocError;

impl<'s> World<'s> {
    /// The host sends every message that it has.
    pub(crate) fn host_send_all(&mut self, recorder: &mut Recorder) -> Result<(), AllocError>
        ensures sent { OnOk result ((starves : Key → Bool) → self.new ≡ all_host_sends starves self.old) }
        ensures recorded { OnOk result (StaysRecorded self.old recorder.old self.new recorder.new) }
    {
        'sending: while self.side.has_message() {
            self.host_send(recorder)?;
        }
        Ok(())
    }

    /// The client sends every message of its own.
    pub(crate) fn client_send_all(&mut self, recorder: &mut Recorder) -> Result<(), AllocError>
        ensures sent { OnOk result ((starves : Key → Bool) → self.new ≡ all_client_sends starves self.old) }
        ensures recorded { OnOk result (StaysRecorded self.old recorder.old self.new recorder.new) }
    {
        'sending: while self.client.has_message() {
            self.client_send(recorder)?;
        }
        Ok(())
    }

    /// The client reads all that is under way, unless it keeps a job back.
    #[tactic(auto, using(crate::proofs::RoundsLemmas::client_read_quiet))]
    pub(crate) fn client_read_all(&mut self) -> Result<(), AllocError>
        ensures read { OnOk result ((starves : Key → Bool) → self.new ≡ client_reads_all starves self.old) }
        ensures recorded { OnOk result (recording_of_deeds self.new.deeds ≡ recording_of_deeds self.old.deeds) }
    {
        let count = self.to_client.len();
        if count > 0 && self.kept.is_none() {
            return self.client_read(count);
        }
        Ok(())
    }

    /// The host reads all that is under way.
    #[tactic(auto, using(crate::proofs::RoundsLemmas::host_read_quiet))]
    pub(crate) fn host_read_all(&mut self) -> Result<(), AllocError>
        ensures read { OnOk result ((starves : Key → Bool) → self.new ≡ host_reads_all starves self.old) }
        ensures recorded { OnOk result (recording_of_deeds self.new.deeds ≡ recording_of_deeds self.old.deeds) }
    {
        let count = self.to_host.len();
        if count > 0 {
            return self.host_read(count);
        }
        Ok(())
    }

    /// Whether nothing is to be sent or read.
    pub(crate) fn is_quiet(&self) -> bool
        ensures { result ≡ is_quiet self.now }
    {
        !self.side.has_message()
            && !self.client.has_message()
            && self.to_client.len() == 0
            && self.to_host.len() == 0
    }

    /// A channel begins, and both ends send and read until nothing is to be sent or read.
    pub(crate) fn connect_on(&mut self, recorder: &mut Recorder) -> Result<(), AllocError>
        requires closed { is_enabled self.old connect ≡ true }
        requires few { self.old.channels < 2 ^ 31 }
        ensures connected { OnOk result ((most : ℕ) × ((starves : Key → Bool) → rounds starves most (act starves self.old connect) ≡ Some self.new)) }
        ensures recorded { OnOk result (StaysRecorded self.old recorder.old self.new recorder.new) }
    {
        self.connect(recorder)?;
        'rounds: for _ in 0..u64::MAX {
            if self.is_quiet() {
                return Ok(());
            }
            self.host_send_all(recorder)?;
            self.client_send_all(recorder)?;
            self.client_read_all()?;
            self.host_read_all()?;
        }
        Err(AllocError)
    }
}
