//! What the two sides write while a channel opens.

ghost use Rattle.std.specs.Prelude.{◌≡◌, IfOk};
ghost use Rattle.rd_hello.specs.Own.{own_general, own_sets, host_sets, client_sets, client_name, client_confirm, host_announce, tells_log_on, tell_log_on};

use crate::capability::{Cap, Caps, General};
use crate::hello::{Hello, Version};
use rd_base::{Bytes, Items};
use std::alloc::{AllocError, Global};

/// The VersionMinor of both sides.
const OWN_MINOR: u16 = 12;

/// RDPDR_DEVICE_REMOVE_PDUS of extendedPDU.
const REMOVES_DEVICES: u32 = 1;

/// RDPDR_USER_LOGGEDON_PDU of extendedPDU.
const USER_LOGGED_ON: u32 = 4;

/// ENABLE_ASYNCIO of extraFlags1.
const COMPLETES_IN_ANY_ORDER: u32 = 1;

/// The sets of a side: GENERAL with this extraFlags1, PRINTER and DRIVE.
fn own_sets(alloc: Global, extra: u32) -> Result<Caps, AllocError>
    ensures { IfOk result (λ caps. caps ≡ own_sets extra) }
{
    let general = General {
        os: 2,
        os_version: 0,
        minor: OWN_MINOR,
        codes: 0xffff,
        codes2: 0,
        extended: REMOVES_DEVICES + USER_LOGGED_ON,
        extra,
        extra2: 0,
        special: Some(0),
    };
    let sets = [Cap::General(general), Cap::Printer(1), Cap::Drive(2)];
    Ok(Items::of(Vec::from_array(alloc, sets)?))
}

/// The host's sets.
pub fn host_sets(alloc: Global) -> Result<Hello, AllocError>
    ensures { IfOk result (λ hello. hello ≡ host_sets) }
{
    Ok(Hello::ServerCaps(own_sets(alloc, 0)?))
}

/// The client's sets.
pub fn client_sets(alloc: Global) -> Result<Hello, AllocError>
    ensures { IfOk result (λ hello. hello ≡ client_sets) }
{
    Ok(Hello::ClientCaps(own_sets(alloc, COMPLETES_IN_ANY_ORDER)?))
}

/// The client's name: RDR and a zero unit, in UTF-16.
pub fn client_name(alloc: Global) -> Result<Hello, AllocError>
    ensures { IfOk result (λ hello. hello ≡ client_name) }
{
    let name = Bytes::of(Vec::from_slice(alloc, b"R\0D\0R\0\0\0")?);
    Ok(Hello::Name {
        unicode: 1,
        page: 0,
        name,
    })
}

/// The client's confirm of an announce.
pub fn client_confirm(host: Version) -> Hello
    ensures { result ≡ client_confirm host }
{
    Hello::Confirm(Version {
        minor: host.minor.min(OWN_MINOR),
        client: host.client,
    })
}

/// The host's announce.
pub fn host_announce(client: u32) -> Hello
    ensures { result ≡ host_announce client }
{
    Hello::Announce(Version {
        minor: OWN_MINOR,
        client,
    })
}

/// Whether one of the sets has the bit of the log-on.
pub fn tell_log_on(caps: &Caps) -> bool
    ensures { result ≡ tell_log_on caps.now }
{
    caps.as_slice().iter().any(tells_log_on)
}

fn tells_log_on(cap: &Cap) -> bool
    ensures { result ≡ tells_log_on cap.now }
{
    match cap {
        Cap::General(general) => general.extended & USER_LOGGED_ON != 0,
        _ => false,
    }
}
