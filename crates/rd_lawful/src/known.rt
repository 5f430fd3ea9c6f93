//! The requests that came, each with how far it got.

ghost use Rattle.std.specs.Prelude.{◌≡◌, ◌<◌, true, None, Some, IfSome, IfNone, OnOk, slice_get, vec_capacity, vec_len};
ghost use Rattle.rd_lawful.specs.Rules.{key_is};
ghost use Rattle.rd_lawful.specs.Memory.{IsRisingByKey, known_key, stage_in, with_stage};

use rd_base::Key;
use std::alloc::AllocError;
use std::mem::size_of;

/// How far a request got.
#[derive(Clone, Copy, Debug, PartialEq, Eq)]
pub enum Stage {
    /// It neither ran nor was cancelled.
    Waits,
    /// It ran or was cancelled.
    Settled,
    /// Its completion was handed out.
    Sent,
}

/// A request that came: its key, in this order of fields so that it takes 16 bytes, and how far it got.
#[derive(Clone, Copy, Debug)]
pub struct Known {
    pub index: u64,
    pub channel: u32,
    pub stage: Stage,
}

const _: () = prove!(size_of::<Known>() == 16);

impl Known {
    pub fn key(&self) -> Key
        ensures { result ≡ known_key self.now }
    {
        Key {
            channel: self.channel,
            index: self.index,
        }
    }
}

/// Where the request stands among those that came, if it did.
fn place_of(known: &[Known], key: Key) -> Option<usize>
    requires { IsRisingByKey known.now }
    ensures some { IfSome result (λ place. (k : _) × (slice_get known.now place ≡ Some k) × (key_is (known_key k) key ≡ true)) }
    ensures none { IfNone result (stage_in known.now key ≡ None) }
{
    known.binary_search_by_key(&key, |k| k.key()).ok()
}

/// How far the request got, if it came.
pub fn stage_in(known: &[Known], key: Key) -> Option<Stage>
    requires { IsRisingByKey known.now }
    ensures { result ≡ stage_in known.now key }
{
    match place_of(known, key) {
        Some(place) => Some(known[place].stage),
        None => None,
    }
}

/// The request, if it came, got as far as that.
pub fn set_stage(known: &mut [Known], key: Key, stage: Stage)
    requires { IsRisingByKey known.old }
    ensures { known.new ≡ with_stage key stage known.old }
{
    if let Some(place) = place_of(known, key) {
        known[place].stage = stage;
    }
}

/// Makes room for one more: where there is none, the room grows by a half of itself.
pub fn make_room(known: &mut Vec<Known>) -> Result<(), AllocError>
    ensures items { known.new.items ≡ known.old.items }
    ensures room { OnOk result (vec_len known.old < vec_capacity known.new) }
{
    let len = known.len();
    if len < known.capacity() {
        return Ok(());
    }
    known.try_reserve_exact(len / 2 + 1)
}
