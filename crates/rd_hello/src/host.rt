//! The host while a channel opens (MS-RDPEFS 3.3.5).

ghost use Rattle.std.specs.Prelude.{◌≡◌, ◌↔◌, Some, IsTrue, IfOk, IfErr, OnErr};
ghost use Rattle.rd_base.specs.Header.{packet_id};
ghost use Rattle.rd_hello.specs.Hello.{packet_of_hello};
ghost use Rattle.rd_hello.specs.Own.{host_announce};
ghost use Rattle.rd_hello.specs.Rows.{IsRow, IsRefused};
ghost use Rattle.rd_hello.specs.HostTable.{host_number, host_step};
ghost use Rattle.rd_hello.specs.declared.host.HostState.TheVariants as state;

use crate::hello::{Hello, Version};
use crate::own::{host_announce, host_sets, tell_log_on};
use crate::replies::{Replies, ShakeNo};
use std::alloc::Global;
use std::marker::Model;

/// Where a host stands.
#[derive(Clone, Copy, Debug, PartialEq, Eq)]
pub enum HostState {
    /// 0: it has announced itself.
    Start,
    /// 1: it has read the client's confirm, which says this.
    Confirmed(Version),
    /// 2: it has written its sets and its confirm.
    Offered,
    /// 3: it is ready.
    Ready,
}

impl HostState {
    /// Its number.
    pub fn number(self) -> u8
        ensures { result ≡ host_number self }
    {
        match self {
            HostState::Start => 0,
            HostState::Confirmed(_) => 1,
            HostState::Offered => 2,
            HostState::Ready => 3,
        }
    }
}

/// The host's part in the opening of a channel. Contracts see its state and the ClientId that it announces.
#[derive(Debug, Drop)]
pub struct HostShake {
    client: u32,
    state: HostState,
}

impl Model for HostShake {
    ghost use Rattle.rd_hello.specs.HostTable.{HostStand};

    ghost Value = { HostStand };

    ghost view = { λ s. record { client = s.client; state = s.state } };
}

impl HostShake {
    /// At the start of a channel whose client gets this ClientId.
    pub fn new(client: u32) -> HostShake
        ensures { result ≡ record { client = client; state = state.Start } }
    {
        HostShake {
            client,
            state: HostState::Start,
        }
    }

    /// Its state.
    pub fn state(&self) -> HostState
        ensures { result ≡ self.now.state }
    {
        self.state
    }

    /// Begins a channel: returns the announce, which the host writes first.
    pub fn begin(&mut self) -> Hello
        ensures announce { result ≡ host_announce self.old.client }
        ensures start { self.new ≡ record self.old { state = state.Start } }
    {
        self.state = HostState::Start;
        host_announce(self.client)
    }

    /// Takes a message of the client, and returns what the host writes then. A refusal changes nothing.
    pub fn step(&mut self, alloc: Global, hello: &Hello) -> Result<Replies, ShakeNo>
        ensures row { IfOk result (λ replies. IsRow (host_step self.old.state hello.now) replies self.new.state) }
        ensures client { self.new.client ≡ self.old.client }
        ensures ready { IfOk result (λ replies. IsTrue replies.ready ↔ (self.new.state ≡ state.Ready)) }
        ensures refused { IfErr result (IsRefused (host_step self.old.state hello.now)
            (host_number self.old.state) (packet_id (packet_of_hello hello.now))) }
        ensures same { OnErr result (self.new ≡ self.old) }
    {
        let (first, second, next) = host_row(alloc, self.state, hello)?;
        self.state = next;
        let ready = next == HostState::Ready;
        Ok(Replies {
            first,
            second,
            ready,
        })
    }
}

/// The row of the host's table for this message in this state: what it writes, in order, and its next state.
pub fn host_row(
    alloc: Global,
    state: HostState,
    hello: &Hello,
) -> Result<(Option<Hello>, Option<Hello>, HostState), ShakeNo>
    ensures row { IfOk result (λ r. host_step state hello.now ≡ Some (record { first = r.0; second = r.1; next = r.2 })) }
    ensures refused { IfErr result (IsRefused (host_step state hello.now)
        (host_number state) (packet_id (packet_of_hello hello.now))) }
{
    match (state, hello) {
        (HostState::Start, Hello::Confirm(client)) => {
            Ok((None, None, HostState::Confirmed(*client)))
        }
        (HostState::Confirmed(client), Hello::Name { .. }) => {
            let sets = host_sets(alloc)?;
            Ok((Some(sets), Some(Hello::Confirm(client)), HostState::Offered))
        }
        (HostState::Offered, Hello::ClientCaps(caps)) => {
            let log_on = tell_log_on(caps).then_some(Hello::LoggedOn);
            Ok((log_on, None, HostState::Ready))
        }
        _ => Err(ShakeNo::OutOfOrder {
            state: state.number(),
            packet: hello.packet().id(),
        }),
    }
}
