//! That every reply of a session's devices can be written, and what can be read back of it.
//!
//! It stands on `rd_world`, and has no code: each statement is the contract of a function that does nothing. Whatever a drive or a printer is asked, the
//! status and the numbers of its reply have room in their fields; where it is fit, as what lines declare is and stays, its replies have the layouts of
//! their requests and aren't too long. So a completion spells its reply, and what is read of one has numbers with the same room.
#![tactic(auto)]

mod laws;

pub use laws::{
    completions_complete, devices_stay_fit, journals_reply_fully, replies_have_room,
    scripts_declare_fresh_devices, session_replies_complete, what_is_read_has_room,
};
