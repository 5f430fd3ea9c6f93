//! The stations of a session's devices, and which of them have something to do.
//!
//! Cost: a station is found by halves among 32, and by place at once; after each call two bits are marked. `add`, `announce` and `put` alone take memory.

ghost use Rattle.std.specs.Prelude.{◌≡◌, ◌<◌, ◌↔◌, ◌∷◌, ◌++◌, [], length, map, slice_get, true, All, IfErr, IfSome, IsTrue, None, OnErr, OnOk, Some};
ghost use Rattle.std.specs.List.{AllZip, zip};
ghost use Rattle.std.specs.Option.{option_map_or};
ghost use Rattle.rd_station.specs.Station as Call;
ghost use Rattle.rd_station.specs.Station.{MayPut};
ghost use Rattle.rd_world.specs.Bits.{IsMarked, Marks, has, where_holds};
ghost use Rattle.rd_station.specs.Memory.{is_key_below};
ghost use Rattle.rd_world.specs.Keys.{AreBelow, last_after};
ghost use Rattle.rd_declared.specs.Declaring.{max_session_devices};
ghost use Rattle.rd_world.specs.Stations.{AreStations, DropsEach, DropsOne, IsPlaceOf, IsReachedBy, StepsAt, dropped_station, has_ready, has_waiting, holds_at};

use crate::bits::Bits;
use rd_base::{Item, Key};
use rd_declared::SessionDevice;
use rd_drive::{Job, Plan};
use rd_station::{AnnounceNo, Applied, Completion, Given, PutNo, Station};
use std::alloc::{AllocError, Global};
use std::marker::Model;

/// The stations of a session's devices, at most 32, by rising ids. Contracts see each station beside its device's id.
#[derive(Drop)]
pub struct Stations {
    ids: Vec<u32>,
    list: Vec<Station<SessionDevice>>,
    /// The places of the stations where a job waits for a hand.
    waiting: Bits,
    /// The places of the stations where a completion can be collected.
    ready: Bits,
    /// The key of the job that came last to any of them.
    last: Option<Key>,
}

impl Model for Stations {
    ghost use Rattle.std.specs.Prelude.{ℕ, List};
    ghost use Rattle.std.specs.List.{zip};
    ghost use Rattle.rd_station.specs.Station.{StationState};
    ghost use Rattle.rd_world.specs.Stations.{KeepsStations};
    ghost use Rattle.rd_declared.specs.declared.device.SessionDevice.{SessionDevice};

    ghost Value = { List (ℕ × StationState SessionDevice) };

    ghost view = { λ s. zip s.ids.items s.list.items };

    ghost invariant = { λ s. KeepsStations s.ids.items s.list.items s.waiting s.ready s.last };
}

impl Stations {
    /// No stations.
    pub fn new(alloc: Global) -> Self
        ensures { result ≡ [] }
    {
        Stations {
            ids: Vec::new(alloc),
            list: Vec::new(alloc),
            waiting: Bits::new(),
            ready: Bits::new(),
            last: None,
        }
    }

    /// The station of another device, in which nothing is to be done, comes last. Where no memory is found nothing changes.
    pub fn add(&mut self, id: u32, station: Station<SessionDevice>) -> Result<(), AllocError>
        requires above { All (λ e. e.0 < id) self.old }
        requires few { length self.old < max_session_devices }
        requires idle { (station.waiting ≡ []) × (station.ready ≡ []) }
        requires unused { station.journal ≡ [] }
        requires reached { IsReachedBy station }
        ensures added { OnOk result (self.new ≡ self.old ++ (id, station) ∷ []) }
        ensures unchanged { OnErr result (self.new ≡ self.old) }
        ensures kept { AreStations self.new }
    {
        self.ids.reserve(1)?;
        self.list.reserve(1)?;
        self.ids.push_reserved(id);
        self.list.push_reserved(station);
        Ok(())
    }

    /// How many stations there are.
    pub fn len(&self) -> usize
        ensures count { result ≡ length self.now }
        ensures kept { AreStations self.now }
    {
        self.list.len()
    }

    /// Where the station of a device stands, if it has one.
    pub fn place_of(&self, device: u32) -> Option<usize>
        ensures within { IfSome result (λ place. place < length self.now) }
        ensures kept { AreStations self.now }
        ensures place { IsPlaceOf self.now device result }
    {
        match self.ids.binary_search(&device) {
            Ok(place) => Some(place),
            Err(_) => None,
        }
    }

    /// The id of the device whose station stands at a place.
    pub fn id_at(&self, place: usize) -> u32
        requires { place < length self.now }
        ensures { IfSome (slice_get self.now place) (λ e. e.0 ≡ result) }
    {
        self.ids[place]
    }

    /// The places of the stations where a job waits for a hand.
    pub fn waiting(&self) -> &Bits
        ensures places { where_holds (has result.now) 64 ≡ where_holds (holds_at has_waiting self.now) 64 }
        ensures marks { Marks result.now (holds_at has_waiting self.now) 64 }
        ensures kept { AreStations self.now }
    {
        &self.waiting
    }

    /// The places of the stations where a completion can be collected.
    pub fn ready(&self) -> &Bits
        ensures places { where_holds (has result.now) 64 ≡ where_holds (holds_at has_ready self.now) 64 }
        ensures marks { Marks result.now (holds_at has_ready self.now) 64 }
    {
        &self.ready
    }

    /// Whether a job with this key may come to the station at a place (`put`): that station may get it, and to none came this key or one above it.
    pub fn may_put(&self, place: usize, key: Key) -> bool
        requires { place < length self.now }
        ensures { IsTrue result → IfSome (slice_get self.now place) (λ e. MayPut e.1 key) × AreBelow self.now key }
    {
        let station = &self.list[place];
        let above = is_above(self.last, key);
        let may = station.may_put(key);
        above && may
    }

    /// Jobs of the device at a place may come from now on, since the host is told of it.
    pub fn announce(&mut self, place: usize) -> Result<(), AnnounceNo>
        requires { place < length self.old }
        ensures step { StepsAt self.old place (Call.announces result) self.new }
        ensures kept { AreStations self.new }
    {
        let station = &mut self.list[place];
        let answer = station.announce();
        mark(&mut self.waiting, &mut self.ready, place, station);
        answer
    }

    /// A job comes to the station at a place, or comes back.
    pub fn put(&mut self, place: usize, job: Job) -> Result<(), PutNo>
        requires there { place < length self.old }
        requires may { IfSome (slice_get self.old place) (λ e. MayPut e.1 job.key) }
        requires below { AreBelow self.old job.key }
        ensures came { OnOk result (StepsAt self.old place (Call.puts job None) self.new) }
        ensures refused { IfErr result (λ no. StepsAt self.old place (Call.puts job (Some no)) self.new) }
        ensures unchanged { OnErr result (self.new ≡ self.old) }
        ensures kept { AreStations self.new }
    {
        let key = job.key;
        let station = &mut self.list[place];
        let answer = station.put(job);
        mark(&mut self.waiting, &mut self.ready, place, station);
        self.last = last_of(self.last, key, &answer);
        answer
    }

    /// The job that came first of those that wait at a place goes into a hand.
    pub fn take(&mut self, place: usize) -> Given
        requires { place < length self.old }
        ensures step { StepsAt self.old place (Call.takes result) self.new }
        ensures kept { AreStations self.new }
    {
        let station = &mut self.list[place];
        let answer = station.take();
        mark(&mut self.waiting, &mut self.ready, place, station);
        answer
    }

    /// A hand gives back the job of a plan to the station at a place, whose device runs it at this moment (100 ns since 1601-01-01 UTC).
    pub fn apply(&mut self, place: usize, plan: Plan, moment: u64) -> Applied
        requires { place < length self.old }
        ensures step { StepsAt self.old place (Call.applies plan moment result) self.new }
        ensures kept { AreStations self.new }
    {
        let station = &mut self.list[place];
        let answer = station.apply(plan, moment);
        mark(&mut self.waiting, &mut self.ready, place, station);
        answer
    }

    /// The completion that was ready first at a place is handed out.
    pub fn collect(&mut self, place: usize) -> Option<Completion>
        requires { place < length self.old }
        ensures step { StepsAt self.old place (Call.collects result) self.new }
        ensures kept { AreStations self.new }
    {
        let station = &mut self.list[place];
        let answer = station.collect();
        mark(&mut self.waiting, &mut self.ready, place, station);
        answer
    }

    /// The host is told that the device at a place is gone. False where it was gone already.
    pub fn remove(&mut self, place: usize) -> bool
        requires { place < length self.old }
        ensures step { StepsAt self.old place (Call.removes result) self.new }
        ensures kept { AreStations self.new }
    {
        let station = &mut self.list[place];
        let answer = station.remove();
        mark(&mut self.waiting, &mut self.ready, place, station);
        answer
    }

    /// The channel ended: each station forgets all that it holds, and each device that is live is cut off.
    pub fn drop_all(&mut self)
        ensures step { DropsEach self.old self.new }
        ensures dropped { self.new ≡ map dropped_station self.old }
        ensures kept { AreStations self.new }
    {
        drop_each(self.list.as_mut_slice());
        self.waiting = Bits::new();
        self.ready = Bits::new();
    }

    /// The journal of the device at a place.
    pub fn journal_at(&self, place: usize) -> &[Item]
        requires { place < length self.now }
        ensures { IfSome (slice_get self.now place) (λ e. e.1.journal ≡ result.now) }
    {
        let station = &self.list[place];
        station.journal().items()
    }

    /// The ids, and in the same order the stations, as they are.
    pub fn finish(self) -> (Vec<u32>, Vec<Station<SessionDevice>>)
        ensures stations { zip result.0.items result.1.items ≡ self }
        ensures same { length result.1.items ≡ length result.0.items }
        ensures kept { AreStations self }
    {
        let Stations { ids, list, .. } = self;
        (ids, list)
    }
}

/// The bits of a place become what its station has to do.
fn mark(waiting: &mut Bits, ready: &mut Bits, place: usize, station: &Station<SessionDevice>)
    requires { place < 64 }
    ensures waiting { IsMarked waiting.old waiting.new place (has_waiting station.now) }
    ensures ready { IsMarked ready.old ready.new place (has_ready station.now) }
{
    waiting.mark(place as u32, station.waits());
    ready.mark(place as u32, station.has_ready());
}

/// Whether a key is above the one that came last, if any did.
fn is_above(last: Option<Key>, key: Key) -> bool
    ensures { result ≡ option_map_or (λ earlier. is_key_below earlier key) last true }
{
    match last {
        Some(earlier) => {
            earlier.channel < key.channel
                || (earlier.channel == key.channel && earlier.index < key.index)
        }
        None => true,
    }
}

/// The key that came last, by what came of putting a job with this one.
fn last_of(last: Option<Key>, key: Key, answer: &Result<(), PutNo>) -> Option<Key>
    ensures { result ≡ last_after last key answer.now }
{
    match answer {
        Ok(()) => Some(key),
        Err(_) => last,
    }
}

/// The channel of each station ended.
fn drop_each(list: &mut [Station<SessionDevice>])
    ensures { AllZip DropsOne list.old list.new }
{
    for place in 0..list.len() {
        let station = &mut list[place];
        station.drop_channel();
    }
}
