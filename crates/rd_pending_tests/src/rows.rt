//! The rows: calls of one table, one after another, each with the answer that is wanted.
use crate::calls::Call;

pub const ROWS: [(Call, &str); 50] = [
    // Before a channel begins.
    (Call::Open(1), "Some(Err(NoChannel))"),
    (Call::Live(1), "Err(NoChannel)"),
    (Call::Stage, "Stage { channel: false, lives: 0 }"),
    (Call::Begin(1), "Some(true)"),
    (Call::Begin(2), "Some(false)"),
    (Call::Begin(1), "None"),
    (Call::Live(1), "Ok(1)"),
    (Call::Live(1), "Err(Already)"),
    (Call::Live(2), "Ok(2)"),
    // A request to device 1 has the completion id 0.
    (Call::Reopen(1), "None"),
    (Call::Open(3), "Some(Err(NoDevice))"),
    (Call::HasMessage, "false"),
    (Call::Open(1), "Some(Ok(1))"),
    (Call::HasMessage, "true"),
    (Call::DropSent, "false"),
    (Call::Send, "Some((1, 0))"),
    (Call::Send, "None"),
    (Call::Take(1), "Err(NotYet)"),
    (Call::Take(2), "Err(Unknown)"),
    // It is lost where the device is gone, and its completion id is held until its completion came.
    (Call::Remove(1), "true"),
    (Call::Remove(1), "false"),
    (
        Call::Take(1),
        "Ok(Taken { device: 1, life: 1, outcome: Lost(Removed) })",
    ),
    (Call::Take(1), "Err(Unknown)"),
    (Call::Open(2), "Some(Ok(2))"),
    (Call::Send, "Some((2, 1))"),
    (Call::Refuse(1, 0), "Ok(Late(1))"),
    (Call::Open(2), "Some(Ok(3))"),
    (Call::Send, "Some((2, 0))"),
    // No slot has the completion id, or none of the device.
    (Call::Refuse(2, 5), "Err(Stray { device: 2, id: 5 })"),
    (
        Call::Refuse(2, 4_294_967_295),
        "Err(Stray { device: 2, id: 4294967295 })",
    ),
    (Call::Refuse(1, 1), "Err(Stray { device: 1, id: 1 })"),
    // Another life of device 1.
    (Call::Live(1), "Ok(3)"),
    (
        Call::Read(1, 1),
        "Some(Err(StaleHandle { then: 1, now: 3 }))",
    ),
    (Call::Read(1, 3), "Some(Ok(4))"),
    (Call::Send, "Some((1, 2))"),
    // A body that doesn't read leaves the slot held.
    (
        Call::Complete(1, 2, b"\x05\0\0\0ab"),
        "Err(BodyBad(Bad { at: 4, why: Short }))",
    ),
    (Call::Complete(1, 2, b"\x02\0\0\0ab"), "Ok(Gave(4))"),
    (
        Call::Take(4),
        "Ok(Taken { device: 1, life: 3, outcome: Done(Reply { status: Status(0), body: Buffer(Items { items: [97, 98] }) }) })",
    ),
    (Call::Refuse(2, 1), "Ok(Gave(2))"),
    (
        Call::Take(2),
        "Ok(Taken { device: 2, life: 2, outcome: Done(Reply { status: Status(3221225506), body: Fault }) })",
    ),
    // The channel ends: what isn't completed is lost.
    (Call::Stage, "Stage { channel: true, lives: 3 }"),
    (Call::DropSent, "true"),
    (
        Call::Take(3),
        "Ok(Taken { device: 2, life: 2, outcome: Lost(Dropped) })",
    ),
    (Call::Refuse(2, 0), "Err(Stray { device: 2, id: 0 })"),
    (Call::Begin(1), "None"),
    (Call::Begin(2), "Some(true)"),
    (Call::Stage, "Stage { channel: true, lives: 0 }"),
    (Call::Live(2), "Ok(4)"),
    (Call::Drop, "()"),
    (Call::Open(2), "Some(Err(NoChannel))"),
];
