//! The lines of a script, as values.

use crate::inline::{BoxedUnits, ShortName};
use rd_base::{Bytes, Items, Units};
use rd_dirinfo::Path;
use rd_irp::Ranges;

/// What a `do` line asks for.
#[derive(Clone, Copy)]
pub enum Errand {
    /// `issue A`: the application issues its next line.
    Issue { application: u32 },
    /// `send`: the host sends all that it has to send.
    Send,
    /// `read`: the client reads all that came.
    Read,
    /// `take D H`: a hand, counted from 1, takes a job of a device.
    Take { device: u32, hand: u32 },
    /// `apply H`: a hand runs its job.
    Apply { hand: u32 },
    /// `collect D`: the client collects a completion of a device.
    Collect { device: u32 },
    /// `answer`: the client sends all that it has to send.
    Answer,
    /// `back`: the host reads all that came.
    Back,
}

/// A line of a script, with its words as values. A handle, a name and a port are ASCII bytes. What would make the value longer than that of
/// the lines that come most lies behind a pointer.
#[derive(Drop)]
pub enum Line {
    /// `seed NUM`: where the draws begin.
    Seed {
        number: u64,
    },
    /// `clock NUM`: the moment of the session, in 100 ns since 1601-01-01 UTC.
    Clock {
        moment: u64,
    },
    /// `piece NUM`: the most bytes that a drawn read takes.
    Piece {
        most: u32,
    },
    /// `workers NUM`
    Workers {
        count: u32,
    },
    /// `channels NUM`: after how many channels a client ends.
    Channels {
        count: u32,
    },
    /// `devices NUM`: for how many devices a host waits.
    Devices {
        count: u32,
    },
    /// `drive D NAME`: a drive in memory, whose names are told apart by their units.
    Drive {
        device: u32,
        name: ShortName,
    },
    /// `drivefold D NAME`: a drive in memory, whose names are told apart by their foldings.
    DriveFold {
        device: u32,
        name: ShortName,
    },
    /// `real D NAME PLACE`: a drive over a folder of this machine.
    Real {
        device: u32,
        name: ShortName,
        place: Bytes,
    },
    /// `folder D PATH`
    Folder {
        device: u32,
        path: Path,
    },
    /// `file D PATH HEX`
    File {
        device: u32,
        path: Path,
        bytes: Bytes,
    },
    /// `fill D PATH LENGTH BYTE`: a file of so many bytes, all the same.
    Fill {
        device: u32,
        path: Path,
        length: u32,
        byte: u8,
    },
    /// `printer D NAME DRIVER PRINTER`
    Printer {
        device: u32,
        name: ShortName,
        driver: BoxedUnits,
        printer: BoxedUnits,
    },
    /// `at C N remove D`: once so many requests were read on the channel.
    AtRemove {
        channel: u32,
        requests: u64,
        device: u32,
    },
    /// `at C N add D`
    AtAdd {
        channel: u32,
        requests: u64,
        device: u32,
    },
    /// `at C N drop`
    AtDrop {
        channel: u32,
        requests: u64,
    },
    /// `settle`
    Settle,
    /// `remove D`
    Remove {
        device: u32,
    },
    /// `add D`
    Add {
        device: u32,
    },
    /// `do WHAT`
    Do {
        errand: Errand,
    },
    /// `cache add PORT DRIVER PRINTER HEX`
    CacheAdd {
        port: ShortName,
        driver: BoxedUnits,
        printer: BoxedUnits,
        bytes: Bytes,
    },
    /// `cache update PRINTER HEX`
    CacheUpdate {
        printer: Units,
        bytes: Bytes,
    },
    /// `cache delete PRINTER`
    CacheDelete {
        printer: Units,
    },
    /// `cache rename OLD NEW`
    CacheRename {
        old: Units,
        new: Units,
    },
    /// `drop`
    Drop,
    /// `connect`
    Connect,
    /// `A open H D PATH`: opens what is there for reading, shared by all.
    Open {
        application: u32,
        handle: ShortName,
        device: u32,
        path: Units,
    },
    /// `A create H D PATH DISPOSITION ACCESS SHARE OPTIONS ATTRIBUTES`
    Create {
        application: u32,
        handle: ShortName,
        device: u32,
        path: BoxedUnits,
        disposition: u32,
        access: u32,
        share: u32,
        options: u32,
        attributes: u32,
    },
    /// `A close H`
    Close {
        application: u32,
        handle: ShortName,
    },
    /// `A read H OFFSET LENGTH`
    Read {
        application: u32,
        handle: ShortName,
        offset: u64,
        length: u32,
    },
    /// `A write H OFFSET HEX`
    Write {
        application: u32,
        handle: ShortName,
        offset: u64,
        bytes: Bytes,
    },
    /// `A query H CLASS`
    Query {
        application: u32,
        handle: ShortName,
        class: u32,
    },
    /// `A set H CLASS HEX`
    Set {
        application: u32,
        handle: ShortName,
        class: u32,
        bytes: Bytes,
    },
    /// `A volume H CLASS`
    Volume {
        application: u32,
        handle: ShortName,
        class: u32,
    },
    /// `A setvolume H CLASS HEX`
    SetVolume {
        application: u32,
        handle: ShortName,
        class: u32,
        bytes: Bytes,
    },
    /// `A dir H CLASS INITIAL PATH`
    Dir {
        application: u32,
        handle: ShortName,
        class: u32,
        initial: bool,
        path: Units,
    },
    /// `A lock H OPERATION WAIT OFFSET:LENGTH,OFFSET:LENGTH..`
    Lock {
        application: u32,
        handle: ShortName,
        operation: u32,
        wait: bool,
        ranges: Ranges,
    },
    /// `A control H CODE OUTPUT HEX`
    Control {
        application: u32,
        handle: ShortName,
        code: u32,
        output: u32,
        bytes: Bytes,
    },
    /// `A notify H TREE FILTER`
    Notify {
        application: u32,
        handle: ShortName,
        tree: bool,
        filter: u32,
    },
}

/// A line and its number, counted from 1 over all lines of the text, skipped ones too.
#[derive(Drop)]
pub struct NumberedLine {
    pub number: u32,
    pub line: Line,
}

// A script has up to a million lines, and each takes its place in memory whatever form it has.
const _: () = prove!(size_of::<NumberedLine>() == 64);

/// The lines of a script in order, without those that are skipped.
pub type Lines = Items<NumberedLine>;
