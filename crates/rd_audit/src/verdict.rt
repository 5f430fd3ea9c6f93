//! What is found of an audit file.

/// Why a completion of a recording doesn't belong.
#[derive(Clone, Copy, Debug, PartialEq, Eq)]
pub enum AuditWhy {
    /// No request waits for it.
    Stray,
    /// It isn't what its device replied to its request, or its request was never sent a reply.
    Answer,
    /// It stands where it can't have been sent.
    Order,
    /// Its request never came to its device, and it isn't what is said then.
    Direct,
}

/// The first thing that doesn't belong, if there is one.
#[derive(Clone, Copy, Debug, PartialEq, Eq)]
pub enum Verdict {
    /// All belongs together.
    Yes,
    /// The journal of a device breaks a rule of journals at an entry, which is counted from 1; the one after the last stands for the journal's end.
    Item { device: u32, item: u64, clause: u8 },
    /// An entry of a journal isn't of a request in the recording to its device, or isn't what the device does with it.
    Mark { device: u32, item: u64 },
    /// A completion ends in an entry of the recording, which is counted from 1, and doesn't belong.
    Entry { entry: u64, why: AuditWhy },
    /// A channel of the recording, counted from 1, lacks completions.
    Open { channel: u32 },
}
