//! What a station remembers of the requests that its journal names.

ghost use Rattle.std.specs.Prelude.{◌≡◌, Some};
ghost use Rattle.rd_station.specs.Memory.{after_come, after_drop, may_come};

use rd_base::Key;

/// The greatest key that came, and the last channel of which requests were forgotten. So whether another may come costs a few comparisons.
#[derive(Clone, Copy, Debug)]
pub struct Memory {
    pub last: Option<Key>,
    pub forgotten: Option<u32>,
}

impl Memory {
    /// Whether a request with this key may come, where so many are held.
    pub fn may_come(&self, held: usize, key: Key) -> bool
        ensures { result ≡ may_come self.now held key }
    {
        let Some(last) = self.last else {
            return true;
        };
        let above = last.channel < key.channel
            || (last.channel == key.channel && last.index < key.index);
        let same = held == 0 || last.channel == key.channel;
        let later = match self.forgotten {
            Some(channel) => channel < key.channel,
            None => true,
        };
        above && same && later
    }

    /// A request comes.
    pub fn come(&mut self, key: Key)
        ensures { self.new ≡ after_come self.old key }
    {
        self.last = Some(key);
    }

    /// The requests that are held, so many, are forgotten.
    pub fn forget(&mut self, held: usize)
        ensures { self.new ≡ after_drop self.old held }
    {
        if held > 0 {
            self.forgotten = match self.last {
                Some(last) => Some(last.channel),
                None => None,
            };
        }
    }
}
