//! The client while a channel opens (MS-RDPEFS 3.2.5).

ghost use Rattle.std.specs.Prelude.{◌≡◌, ◌↔◌, Some, IsTrue, IfOk, IfErr, OnErr};
ghost use Rattle.rd_base.specs.Header.{packet_id};
ghost use Rattle.rd_hello.specs.Hello.{packet_of_hello};
ghost use Rattle.rd_hello.specs.Rows.{IsRow, IsRefused};
ghost use Rattle.rd_hello.specs.ClientTable.{client_number, after_sets, client_step};
ghost use Rattle.rd_hello.specs.declared.client.ClientState.TheVariants as state;

use crate::hello::Hello;
use crate::own::{client_confirm, client_name, client_sets, tell_log_on};
use crate::replies::{Replies, ShakeNo};
use std::alloc::Global;
use std::marker::Model;

/// Where a client stands.
#[derive(Clone, Copy, Debug, PartialEq, Eq)]
pub enum ClientState {
    /// 0: it has read nothing.
    Start,
    /// 1: it has confirmed the host's announce and named itself.
    Named,
    /// 2: it has read the host's confirm.
    Confirmed,
    /// 3: it has read the host's sets before the confirm, and whether these tell of the log-on.
    Offered(bool),
    /// 4: it has written its sets, and waits for the log-on.
    Waiting,
    /// 5: it is ready.
    Ready,
}

impl ClientState {
    /// Its number.
    pub fn number(self) -> u8
        ensures { result ≡ client_number self }
    {
        match self {
            ClientState::Start => 0,
            ClientState::Named => 1,
            ClientState::Confirmed => 2,
            ClientState::Offered(_) => 3,
            ClientState::Waiting => 4,
            ClientState::Ready => 5,
        }
    }
}

/// The client's part in the opening of a channel. Contracts see its state.
#[derive(Debug, Drop)]
pub struct ClientShake {
    state: ClientState,
}

impl Model for ClientShake {
    ghost use Rattle.rd_hello.specs.declared.client.ClientState.{ClientState};

    ghost Value = { ClientState };

    ghost view = { λ s. s.state };
}

impl ClientShake {
    /// At the start of a channel.
    pub fn new() -> ClientShake
        ensures { result ≡ state.Start }
    {
        ClientShake {
            state: ClientState::Start,
        }
    }

    /// Its state.
    pub fn state(&self) -> ClientState
        ensures { result ≡ self.now }
    {
        self.state
    }

    /// Takes a message of the host, and returns what the client writes then. A refusal changes nothing.
    pub fn step(&mut self, alloc: Global, hello: &Hello) -> Result<Replies, ShakeNo>
        ensures row { IfOk result (λ replies. IsRow (client_step self.old hello.now) replies self.new) }
        ensures ready { IfOk result (λ replies. IsTrue replies.ready ↔ (self.new ≡ state.Ready)) }
        ensures refused { IfErr result (IsRefused (client_step self.old hello.now)
            (client_number self.old) (packet_id (packet_of_hello hello.now))) }
        ensures same { OnErr result (self.new ≡ self.old) }
    {
        let (first, second, next) = client_row(alloc, self.state, hello)?;
        self.state = next;
        let ready = next == ClientState::Ready;
        Ok(Replies {
            first,
            second,
            ready,
        })
    }
}

/// The row of the client's table for this message in this state: what it writes, in order, and its next state.
pub fn client_row(
    alloc: Global,
    state: ClientState,
    hello: &Hello,
) -> Result<(Option<Hello>, Option<Hello>, ClientState), ShakeNo>
    ensures row { IfOk result (λ r. client_step state hello.now ≡ Some (record { first = r.0; second = r.1; next = r.2 })) }
    ensures refused { IfErr result (IsRefused (client_step state hello.now)
        (client_number state) (packet_id (packet_of_hello hello.now))) }
{
    match (state, hello) {
        (ClientState::Start, Hello::Announce(host)) => {
            let name = client_name(alloc)?;
            Ok((Some(client_confirm(*host)), Some(name), ClientState::Named))
        }
        (ClientState::Named, Hello::Confirm(_)) => Ok((None, None, ClientState::Confirmed)),
        (ClientState::Named, Hello::ServerCaps(caps)) => {
            Ok((None, None, ClientState::Offered(tell_log_on(caps))))
        }
        (ClientState::Confirmed, Hello::ServerCaps(caps)) => {
            let sets = client_sets(alloc)?;
            Ok((Some(sets), None, after_sets(tell_log_on(caps))))
        }
        (ClientState::Offered(tells), Hello::Confirm(_)) => {
            let sets = client_sets(alloc)?;
            Ok((Some(sets), None, after_sets(tells)))
        }
        (ClientState::Waiting | ClientState::Ready, Hello::LoggedOn) => {
            Ok((None, None, ClientState::Ready))
        }
        _ => Err(ShakeNo::OutOfOrder {
            state: state.number(),
            packet: hello.packet().id(),
        }),
    }
}

/// The state after the client's sets: it waits for the log-on where the host's sets tell of it.
fn after_sets(tells: bool) -> ClientState
    ensures { result ≡ after_sets tells }
{
    if tells {
        ClientState::Waiting
    } else {
        ClientState::Ready
    }
}
