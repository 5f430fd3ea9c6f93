//! A channel of a recording.

use crate::message::Message;
use rd_devices::Removal;
use rd_irp::Kind;
use std::marker::Model;

/// A request that the host sent.
#[derive(Drop)]
pub struct HeardRequest<'a> {
    /// The entry of the recording that ended it, counted from 1.
    pub entry: u64,
    pub device: u32,
    /// The layout of its completion.
    pub kind: Kind,
    pub message: Message<'a>,
    /// The place of its completion among what the client said, if it has one.
    pub completion: Option<usize>,
}

impl<'a> Model for HeardRequest<'a> {
    ghost use Rattle.rd_recorded.specs.Channels as channels;

    ghost Value = { channels.HeardRequest };

    ghost view = { λ a. record { entry = a.entry; device = a.device; kind = a.kind; message = a.message; completion = a.completion } };
}

/// What the client said of devices and requests.
#[derive(Drop)]
pub enum ClientSaid<'a> {
    /// Devices are there.
    Announces(Vec<u32>),
    /// Devices are gone.
    Removes(Removal),
    /// The completion of the request with this index, or of none.
    Completes(Option<usize>, Message<'a>),
}

/// The same, with the entry of the recording that ended its message.
#[derive(Drop)]
pub struct Saying<'a> {
    pub entry: u64,
    pub said: ClientSaid<'a>,
}

impl<'a> Model for Saying<'a> {
    ghost use Rattle.rd_recorded.specs.Channels as channels;
    ghost use Rattle.rd_recorded.specs.Views.{said_of};

    ghost Value = { channels.Saying };

    ghost view = { λ s. record { entry = s.entry; said = said_of s.said } };
}

/// A channel of a recording.
#[derive(Drop)]
pub struct HeardChannel<'a> {
    pub requests: Vec<HeardRequest<'a>>,
    pub sayings: Vec<Saying<'a>>,
    /// Whether the recording says that it ended.
    pub ended: bool,
}

impl<'a> Model for HeardChannel<'a> {
    ghost use Rattle.rd_recorded.specs.Channels as channels;

    ghost Value = { channels.HeardChannel };

    ghost view = { λ c. record { requests = c.requests.items; sayings = c.sayings.items; ended = c.ended } };
}
