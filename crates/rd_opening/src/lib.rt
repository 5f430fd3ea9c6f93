//! That each channel opens, in every run.
//!
//! It stands on `rd_orders`, and has no code: each statement is the contract of a function that does nothing.
#![tactic(auto)]

mod laws;

pub use laws::{
    channels_are_numbered, channels_open, ends_settle, requests_are_sent, requests_come_opened,
};
