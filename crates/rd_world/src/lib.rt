//! A whole session: both sides in one state, what was done in it, and what joins its sides.
//!
//! It stands on both ends, the table, the stations, the devices that scripts declare (`rd_declared`) and the deeds of both sides (`rd_deeds`). The
//! definitions come first: `a_session_is_there` is a session that meets every clause of one. `World` is both sides in one state, made of what a script declares: `World::run` plays
//! the script's lines, and its contract is what the layer above uses; `World::step` is one step of it. It is put together from a `Host` with its table, a `Client`, the `Way`s of a channel, the `Applications` with the lines of a script, the `Stations`, the `Hands` and a `Recorder`.
//!
//! Cost: a byte of a message is copied once onto a `Way`, once into the recording, and once off the way. What a `Way` has handled is cut off where it is half of
//! what it holds and 64 KiB or more. A draw counts the set bits of five words. An application keeps four bytes a line of its own.
#![tactic(auto)]

mod acting;
mod application;
mod applications;
mod asking;
mod beginning;
mod bits;
mod choices;
mod client;
mod done;
mod event;
mod finishing;
mod found;
mod handles;
mod hands;
mod hearing;
mod host;
mod kept_job;
mod laws;
mod noting;
mod opening;
mod playing;
mod recorder;
mod rounds;
mod running;
mod stations;
mod stepping;
mod way;
mod world;

pub use application::Application;
pub use applications::Applications;
pub use asking::{application_of, handle_of, op_of, opened_device};
pub use bits::Bits;
pub use choices::{Choice, Choices, choices_stand_in_order};
pub use client::Client;
pub use event::{Event, StepNo};
pub use found::found_told;
pub use handles::Handles;
pub use hands::{Hands, MAX_HANDS};
pub use host::Host;
pub use laws::{
    a_session_is_there, control_lines_act, deeds_tell_sessions, events_are_recorded, journals_grow,
    losses_are_no_replies, requests_agree, sessions_run_as_listed, sessions_settle,
    wrong_turns_are_refused,
};
pub use noting::notice_of;
pub use opening::{Opening, Settings, open_devices, settings_of};
pub use recorder::Recorder;
pub use stations::Stations;
pub use way::Way;
pub use world::World;
