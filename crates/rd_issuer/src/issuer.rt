//! An application and its number.

use rd_world::Application;

/// An application of a host, and its number.
#[derive(Drop)]
pub struct Issuer<'s> {
    pub number: u32,
    pub application: Application<'s>,
}
