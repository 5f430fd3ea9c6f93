//! A client's session: its devices, its threads, and one channel after the other.

ghost use Rattle.std.specs.Prelude.{◌≡◌, ◌<◌, ◌≤◌, [], length, map, All, IfErr, IfOk, IfSome, IsTrue, OnErr, Some, is_some};
ghost use Rattle.std.specs.List.{AllZip};
ghost use Rattle.std.specs.Thread.{IsSend, IsSync};
ghost use Rattle.rd_pool.specs.Desks.{AllByHandBut, IsFirst, IsOther, KeepsMoment};
ghost use Rattle.rd_served_devices.specs.ServedDevices.{IsServedReached};
ghost use Rattle.rd_sharing.specs.Refused.{OnFolderNo};
ghost use Rattle.rd_sharing.specs.ServedOpening.{folders_told};
ghost use Rattle.rd_turn.specs.History.{calls_of};
ghost use Rattle.rd_turn.specs.Pass.{Belongs, first_pass};
ghost use Rattle.rd_workers.specs.Books.{AreLawfulBooks, RunAtTold};
ghost use Rattle.rd_workers.specs.Faults.{TellsFaults};
ghost use Rattle.rd_workers.specs.Channels.{told_as};
ghost use Rattle.rd_workers.specs.Lines.{at_lines};
ghost use Rattle.rd_workers.specs.Logs.{AllWrite};
ghost use Rattle.rd_workers.specs.Passes.{AreNew, ComesBack, IsRejoined, IsPassOf, IsUnused};
ghost use Rattle.rd_workers.specs.Served.{HasServedLines, IfServed, IsRead, OnFolder, ServesEntries, ServesHome, ServesLines, StopsServing};
ghost use Rattle.rd_declared.specs.Declaring.{AreDeclared};

use crate::bells::Bells;
use crate::channels::{Plan, plan_of, serve_channels};
use crate::client_ended::ClientEnded;
use crate::reader::Reader;
use crate::storing::{open_desks, store_all};
use crate::writer::{Writer, WriterCall};
use rd_base::Books;
use rd_carry::Ended;
use rd_declared::Printers;
use rd_desk::Batch;
use rd_folder::{Folder, Folders};
use rd_front::{DeviceDesk, Front, FrontCall, FrontReply, fronts_call_desks};
use rd_link::{Clock, Gate, Hang, Linker};
use rd_pool::{AfterGate, Bell, Desks, Hands, Homecoming, Outside, Passes, with_workers};
use rd_room::Room;
use rd_script::Script;
use rd_served_devices::ServedDevice;
use rd_sharing::{OpeningNo, ServedOpening, open_served};
use rd_turn::{Caller, Object, Pass, Turn};
use rd_world::Client;
use std::alloc::{AllocError, Global};
use std::sync::Wait;
use std::thread::{Threads, join};

/// How many bytes one read asks for.
const READ_LEN: usize = 65_536;

/// How many messages the writer takes from the front in one call.
const ROOM: usize = 64;

/// Opens the devices of a script, serves them on one channel after the other, as many as it says, and stores their journals and closes their folders at the
/// end.
pub fn serve_client<
    R: Threads + Wait + Sync,
    L: Linker,
    D: Folders,
    C: Clock + Sync,
    G: Gate + Sync,
>(
    rt: &R,
    alloc: Global,
    script: &Script,
    linker: &mut L,
    folders: &mut D,
    clock: &C,
    gate: &G,
    books: &mut Books,
) -> ClientEnded
    requires declared { AreDeclared script.now.lines }
    requires books { books.old ≡ [] }
    ensures served { HasServedLines script.now.lines result books.new (told_as (L.linked linker.old) (L.failures linker.old)) (told_as (L.linked linker.new) (L.failures linker.new))
        (folders_told (D.opened folders.old) (D.failures folders.old) (D.trouble folders.old)) (folders_told (D.opened folders.new) (D.failures folders.new) (D.trouble folders.new)) }
    ensures unlinked { OnFolder result (linker.new ≡ linker.old) }
    ensures faults { IfServed result (λ ended. TellsFaults ended (L.failures linker.old) (L.failures linker.new) (L.trouble linker.old) (L.trouble linker.new)) }
    ensures books { AreLawfulBooks books.new × RunAtTold (C.moment clock.now) books.new }
{
    let plan = plan_of(script.lines.as_slice());
    let outside = AfterGate { alloc, clock, gate };
    match serve(
        rt,
        alloc,
        plan,
        linker,
        folders,
        &outside,
        gate.holds(),
        books,
    ) {
        Ok(ended) => ClientEnded::Ended(ended),
        Err(OpeningNo::Folder { device }) => ClientEnded::Folder { device },
        Err(OpeningNo::Memory) => ClientEnded::Ended(Ended::Memory),
    }
}

/// The same, over what stands between taking a job and running it.
fn serve<R: Threads + Wait + Sync, L: Linker, D: Folders, X: Outside + Sync>(
    rt: &R,
    alloc: Global,
    plan: Plan<'_>,
    linker: &mut L,
    folders: &mut D,
    outside: &X,
    holds: bool,
    books: &mut Books,
) -> Result<Ended, OpeningNo>
    requires declared { AreDeclared plan.lines.now }
    requires few { plan.workers ≤ 16 }
    requires books { books.old ≡ [] }
    ensures served { IfOk result (λ ended. ServesLines plan.entry.lines.now plan.entry.channels ended books.new (told_as (L.linked linker.old) (L.failures linker.old)) (told_as (L.linked linker.new) (L.failures linker.new))
        (folders_told (D.opened folders.old) (D.failures folders.old) (D.trouble folders.old)) (folders_told (D.opened folders.new) (D.failures folders.new) (D.trouble folders.new))) }
    ensures err { IfErr result (λ no. StopsServing plan.entry.lines.now plan.entry.channels no books.new (told_as (L.linked linker.old) (L.failures linker.old)) (told_as (L.linked linker.new) (L.failures linker.new))
        (folders_told (D.opened folders.old) (D.failures folders.old) (D.trouble folders.old)) (folders_told (D.opened folders.new) (D.failures folders.new) (D.trouble folders.new))) }
    ensures unlinked { IfErr result (λ no. OnFolderNo no (linker.new ≡ linker.old)) }
    ensures faults { IfOk result (λ ended. TellsFaults ended (L.failures linker.old) (L.failures linker.new) (L.trouble linker.old) (L.trouble linker.new)) }
    ensures lawful { AreLawfulBooks books.new }
    ensures moments { RunAtTold (X.moment outside.now) books.new }
{
    let ServedOpening {
        ids,
        stations,
        devices,
        printers,
    } = open_served(alloc, plan.lines, folders)?;
    let client = Client::new(alloc, devices)?;
    let (desks, passes) = open_desks(alloc, ids.as_slice(), stations)?;
    let (ended, passes) = serve_desks(
        rt,
        alloc,
        plan,
        linker,
        outside,
        holds,
        client,
        printers,
        ids.as_slice(),
        &desks,
        passes,
    )?;
    store_all(ids.as_slice(), desks.close(passes), books, folders)?;
    Ok(ended)
}

/// Serves these desks. Their passes come home.
fn serve_desks<'a, R: Threads + Wait + Sync, L: Linker, X: Outside + Sync, M: Folder + Send + Drop>(
    rt: &'a R,
    alloc: Global,
    plan: Plan<'_>,
    linker: &mut L,
    outside: &X,
    holds: bool,
    client: Client,
    printers: Printers,
    ids: &[u32],
    desks: &'a Desks<ServedDevice<M>>,
    passes: Passes<ServedDevice<M>>,
) -> Result<(Ended, Passes<ServedDevice<M>>), AllocError>
    requires same { length ids.now ≡ length desks.now.turns }
    requires first { AllZip IsFirst desks.now.turns passes }
    requires new { AreNew passes }
    requires reached { All (λ turn. IsServedReached turn.opening) desks.now.turns }
    requires begins { passes ≡ map first_pass desks.now.turns }
    requires few { plan.workers ≤ 16 }
    ensures first { IfOk result (λ given. AllZip IsFirst desks.now.turns given.1) }
    ensures home { IfOk result (λ given. All (λ p. p.out ≡ 0) given.1) }
    ensures moments { IfOk result (λ given. All (KeepsMoment (X.moment outside.now)) given.1) }
    ensures served { IfOk result (λ given. ServesHome client printers ids.now desks.now.turns given.1 (at_lines plan.entry.lines.now) plan.entry.channels given.0 (told_as (L.linked linker.old) (L.failures linker.old)) (told_as (L.linked linker.new) (L.failures linker.new))) }
    ensures err { OnErr result (told_as (L.linked linker.new) (L.failures linker.new) ≡ told_as (L.linked linker.old) (L.failures linker.old)) }
    ensures faults { IfOk result (λ given. TellsFaults given.0 (L.failures linker.old) (L.failures linker.new) (L.trouble linker.old) (L.trouble linker.new)) }
{
    fronts_call_desks();
    let mut passes = passes;
    let own = desks.split(alloc, &mut passes)?;
    let hands = Hands::new(alloc, desks, &mut passes)?;
    let list = device_desks(alloc, ids, desks, own)?;
    let home = Homecoming::new(alloc, desks.count())?;
    let front = Front::new(rt, alloc, client, printers, list);
    let Ok((turn, pass)) = Turn::new(alloc, front) else {
        return Err(AllocError);
    };
    let (ended, pass, others, mut passes) = serve_front(
        rt, alloc, plan, linker, outside, holds, &turn, pass, desks, hands, passes,
    )?;
    let back = passes_of(home, turn.close(pass).into_desks());
    desks.join(&mut passes, back);
    desks.join(&mut passes, others);
    Ok((ended, passes))
}

/// Serves them by a front, with hands at them for the reader: the writer has a pass of the front, and the reader and the writer's thread one of the
/// writer's role each.
fn serve_front<
    'f,
    'a,
    F: Object<Call = FrontCall, Reply = FrontReply> + Drop + Send,
    R: Threads + Wait + Sync,
    L: Linker,
    X: Outside + Sync,
    M: Folder + Send + Drop,
>(
    rt: &'f R,
    alloc: Global,
    plan: Plan<'_>,
    linker: &mut L,
    outside: &X,
    holds: bool,
    turn: &'f Turn<F>,
    pass: Pass<F>,
    desks: &'a Desks<ServedDevice<M>>,
    hands: Hands<'a, ServedDevice<M>>,
    passes: Passes<ServedDevice<M>>,
) -> Result<
    (
        Ended,
        Pass<F>,
        Passes<ServedDevice<M>>,
        Passes<ServedDevice<M>>,
    ),
    AllocError,
>
    requires own { Belongs turn.now pass }
    requires unused { IsUnused pass }
    requires turns { map (λ hand. hand.turn) hands ≡ desks.now.turns }
    requires first { AllZip IsFirst desks.now.turns passes }
    requires few { All (λ p. p.made ≡ 2) passes }
    requires workers { plan.workers ≤ 16 }
    requires moments { All (KeepsMoment (X.moment outside.now)) passes × All (KeepsMoment (X.moment outside.now)) (map (λ hand. hand.pass) hands) }
    requires by_hand { All (AllByHandBut 1) passes }
    ensures own { IfOk result (λ given. Belongs turn.now given.1) }
    ensures home { IfOk result (λ given. IsRejoined given.1) }
    ensures others { IfOk result (λ given. AllZip IsOther desks.now.turns given.2) }
    ensures first { IfOk result (λ given. AllZip IsFirst desks.now.turns given.3) }
    ensures out { IfOk result (λ given. map (λ p. p.out) given.3 ≡ map (λ p. p.out) passes) }
    ensures moments { IfOk result (λ given. All (KeepsMoment (X.moment outside.now)) given.2 × All (KeepsMoment (X.moment outside.now)) given.3) }
    ensures by_hand { IfOk result (λ given. All (AllByHandBut 1) given.2 × All (AllByHandBut 1) given.3) }
    ensures served { IfOk result (λ given. ServesEntries (at_lines plan.entry.lines.now) plan.entry.channels given.0 given.1.seen (told_as (L.linked linker.old) (L.failures linker.old)) (told_as (L.linked linker.new) (L.failures linker.new))) }
    ensures faults { IfOk result (λ given. TellsFaults given.0 (L.failures linker.old) (L.failures linker.new) (L.trouble linker.old) (L.trouble linker.new)) }
    ensures err { OnErr result (linker.new ≡ linker.old) }
{
    let bells = Bells::new(alloc, desks.count())?;
    let batch = Batch::new(alloc)?;
    let buffer = vec![in alloc; 0u8; READ_LEN]?;
    let room = Room::new(alloc, ROOM)?;
    let mut pass = pass;
    let writer = Writer::new(rt, Caller::new(turn, turn.split(&mut pass)), room);
    let Ok((writer_turn, mut writer_pass)) = Turn::new(alloc, writer) else {
        return Err(AllocError);
    };
    let shared = &writer_turn;
    let other = Caller::new(shared, shared.split(&mut writer_pass));
    let caller = Caller::new(shared, writer_pass);
    let front = Caller::new(turn, pass);
    let mut home = None;
    serve_with_workers(
        rt, alloc, plan, linker, outside, holds, front, caller, other, hands, batch, buffer,
        &bells, desks, passes, &mut home,
    );
    let Home {
        other,
        read: Read {
            ended,
            front,
            writer,
            hands,
        },
        passes,
    } = home_of(home);
    let mut writer_pass = writer.into_pass();
    shared.join(&mut writer_pass, other.into_pass());
    let writer_front = writer_turn.close(writer_pass).into_front();
    let mut pass = front.into_pass();
    turn.join(&mut pass, writer_front.into_pass());
    Ok((ended, pass, hands, passes))
}

/// The workers' threads, and beside them the writer's and the reader. The linker comes back, so that what became of it is known.
fn serve_with_workers<
    'l,
    'v,
    'w,
    'f,
    'g,
    'a,
    F: Object<Call = FrontCall, Reply = FrontReply> + Send,
    R: Threads + Wait + Sync,
    L: Linker,
    X: Outside + Sync,
    M: Folder + Send + Drop,
>(
    rt: &R,
    alloc: Global,
    plan: Plan<'_>,
    linker: &'l mut L,
    outside: &X,
    holds: bool,
    front: Caller<'g, F>,
    caller: Caller<'w, Writer<'f, F, R, L::Out>>,
    other: Caller<'v, Writer<'f, F, R, L::Out>>,
    hands: Hands<'a, ServedDevice<M>>,
    batch: Batch,
    buffer: Vec<u8>,
    bells: &Bells,
    desks: &'a Desks<ServedDevice<M>>,
    passes: Passes<ServedDevice<M>>,
    home: &mut Option<Home<'v, 'w, 'f, 'g, F, R, L::Out, M>>,
) -> &'l mut L
    requires none { batch ≡ [] }
    requires places { length hands ≡ bells.now }
    requires turns { map (λ hand. hand.turn) hands ≡ desks.now.turns }
    requires room { 0 < length buffer.items }
    requires front { calls_of front.pass.number front.pass.seen ≡ [] }
    requires caller { calls_of caller.pass.number caller.pass.seen ≡ [] }
    requires other { calls_of other.pass.number other.pass.seen ≡ [] }
    requires first { AllZip IsFirst desks.now.turns passes }
    requires few { All (λ p. p.made ≡ 2) passes }
    requires workers { plan.workers ≤ 16 }
    requires moments { All (KeepsMoment (X.moment outside.now)) passes × All (KeepsMoment (X.moment outside.now)) (map (λ hand. hand.pass) hands) }
    requires by_hand { All (AllByHandBut 1) passes }
    ensures linker { result.ghost_name ≡ linker.entry.ghost_name }
    ensures some { IsTrue (is_some home.new) }
    ensures other { IfSome home.new (λ h. ComesBack other.entry.turn.now other.entry.pass h.other.pass) }
    ensures writes { IfSome home.new (λ h. AllWrite (calls_of h.other.pass.number h.other.pass.seen)) }
    ensures front { IfSome home.new (λ h. ComesBack front.entry.turn.now front.entry.pass h.read.front.pass) }
    ensures caller { IfSome home.new (λ h. ComesBack caller.entry.turn.now caller.entry.pass h.read.writer.pass) }
    ensures others { IfSome home.new (λ h. AllZip IsOther desks.now.turns h.read.hands) }
    ensures read { IfSome home.new (λ h. IsRead (at_lines plan.entry.lines.now) plan.entry.channels h.read.ended h.read.front.pass h.read.writer.pass (told_as (L.linked linker.entry.now) (L.failures linker.entry.now)) (told_as (L.linked result.now) (L.failures result.now))) }
    ensures faults { IfSome home.new (λ h. TellsFaults h.read.ended (L.failures linker.entry.now) (L.failures result.now) (L.trouble linker.entry.now) (L.trouble result.now)) }
    ensures first { IfSome home.new (λ h. AllZip IsFirst desks.now.turns h.passes) }
    ensures out { IfSome home.new (λ h. map (λ p. p.out) h.passes ≡ map (λ p. p.out) passes) }
    ensures moments { IfSome home.new (λ h. All (KeepsMoment (X.moment outside.now)) h.read.hands × All (KeepsMoment (X.moment outside.now)) h.passes) }
    ensures by_hand { IfSome home.new (λ h. All (AllByHandBut 1) h.read.hands × All (AllByHandBut 1) h.passes) }
{
    let ((other, read, linker), passes) = with_workers(
        rt,
        alloc,
        desks,
        passes,
        outside,
        &bells.workers,
        &bells.writer,
        u64::from(plan.workers),
        || -> (Caller<Writer<F, R, L::Out>>, Read<F, R, L::Out, M>, &mut L)
            requires { IsSend F.row × IsSend M.row × IsSend L.In.row × IsSend L.Out.row × IsSync R.row × IsSync X.row × (batch ≡ []) × (length hands ≡ bells.now) × (0 < length buffer.items)
                × (calls_of front.pass.number front.pass.seen ≡ []) × (calls_of caller.pass.number caller.pass.seen ≡ []) × (calls_of other.pass.number other.pass.seen ≡ [])
                × All (KeepsMoment (X.moment outside.now)) (map (λ hand. hand.pass) hands) }
            ensures { ComesBack other.entry.turn.now other.entry.pass result.0.pass × AllWrite (calls_of result.0.pass.number result.0.pass.seen)
                × ComesBack front.entry.turn.now front.entry.pass result.1.front.pass × ComesBack caller.entry.turn.now caller.entry.pass result.1.writer.pass
                × AllZip IsOther (map (λ hand. hand.turn) hands.entry) result.1.hands × (result.2.ghost_name ≡ linker.entry.ghost_name)
                × IsRead (at_lines plan.entry.lines.now) plan.entry.channels result.1.ended result.1.front.pass result.1.writer.pass (told_as (L.linked linker.entry.now) (L.failures linker.entry.now)) (told_as (L.linked result.2.now) (L.failures result.2.now))
                × TellsFaults result.1.ended (L.failures linker.entry.now) (L.failures result.2.now) (L.trouble linker.entry.now) (L.trouble result.2.now)
                × All (KeepsMoment (X.moment outside.entry.now)) result.1.hands × All (AllByHandBut 1) result.1.hands }
        {
            serve_threads(
                rt, alloc, plan, linker, outside, holds, front, caller, other, hands, batch,
                buffer, bells,
            )
        },
    );
    *home = Some(Home {
        other,
        read,
        passes,
    });
    linker
}

/// What comes home from all threads: the writer's thread's pass of the writer, what the reader gives back, and the passes of the desks.
#[derive(Drop)]
struct Home<
    'v,
    'w,
    'f,
    'g,
    F: Object<Call = FrontCall, Reply = FrontReply>,
    T: Wait,
    K: Hang + Drop,
    M: Folder + Drop,
> {
    other: Caller<'v, Writer<'f, F, T, K>>,
    read: Read<'w, 'f, 'g, F, T, K, M>,
    passes: Passes<ServedDevice<M>>,
}

fn home_of<
    'v,
    'w,
    'f,
    'g,
    F: Object<Call = FrontCall, Reply = FrontReply>,
    T: Wait,
    K: Hang + Drop,
    M: Folder + Drop,
>(home: Option<Home<'v, 'w, 'f, 'g, F, T, K, M>>) -> Home<'v, 'w, 'f, 'g, F, T, K, M>
    requires { IsTrue (is_some home) }
    ensures { home.entry ≡ Some result }
{
    match home {
        Some(home) => home,
        None => unreachable!(),
    }
}

/// What the reader gives back at the end: how the session ended, and its passes of the front, of the writer and of the desks.
#[derive(Drop)]
struct Read<
    'w,
    'f,
    'g,
    F: Object<Call = FrontCall, Reply = FrontReply>,
    T: Wait,
    K: Hang + Drop,
    M: Folder + Drop,
> {
    ended: Ended,
    front: Caller<'g, F>,
    writer: Caller<'w, Writer<'f, F, T, K>>,
    hands: Passes<ServedDevice<M>>,
}

/// The writer's thread, and in this one the reader. The linker comes back, so that what became of it is known.
fn serve_threads<
    'l,
    'v,
    'w,
    'f,
    'g,
    'a,
    F: Object<Call = FrontCall, Reply = FrontReply> + Send,
    R: Threads + Wait + Sync,
    L: Linker,
    X: Outside + Sync,
    M: Folder + Send + Drop,
>(
    rt: &R,
    alloc: Global,
    plan: Plan<'_>,
    linker: &'l mut L,
    outside: &X,
    holds: bool,
    front: Caller<'g, F>,
    caller: Caller<'w, Writer<'f, F, R, L::Out>>,
    other: Caller<'v, Writer<'f, F, R, L::Out>>,
    hands: Hands<'a, ServedDevice<M>>,
    batch: Batch,
    buffer: Vec<u8>,
    bells: &Bells,
) -> (
    Caller<'v, Writer<'f, F, R, L::Out>>,
    Read<'w, 'f, 'g, F, R, L::Out, M>,
    &'l mut L,
)
    requires none { batch ≡ [] }
    requires places { length hands ≡ bells.now }
    requires room { 0 < length buffer.items }
    requires front { calls_of front.pass.number front.pass.seen ≡ [] }
    requires caller { calls_of caller.pass.number caller.pass.seen ≡ [] }
    requires other { calls_of other.pass.number other.pass.seen ≡ [] }
    requires moments { All (KeepsMoment (X.moment outside.now)) (map (λ hand. hand.pass) hands) }
    ensures other { ComesBack other.entry.turn.now other.entry.pass result.0.pass }
    ensures writes { AllWrite (calls_of result.0.pass.number result.0.pass.seen) }
    ensures front { ComesBack front.entry.turn.now front.entry.pass result.1.front.pass }
    ensures caller { ComesBack caller.entry.turn.now caller.entry.pass result.1.writer.pass }
    ensures others { AllZip IsOther (map (λ hand. hand.turn) hands.entry) result.1.hands }
    ensures linker { result.2.ghost_name ≡ linker.entry.ghost_name }
    ensures read { IsRead (at_lines plan.entry.lines.now) plan.entry.channels result.1.ended result.1.front.pass result.1.writer.pass (told_as (L.linked linker.entry.now) (L.failures linker.entry.now)) (told_as (L.linked result.2.now) (L.failures result.2.now)) }
    ensures faults { TellsFaults result.1.ended (L.failures linker.entry.now) (L.failures result.2.now) (L.trouble linker.entry.now) (L.trouble result.2.now) }
    ensures moments { All (KeepsMoment (X.moment outside.now)) result.1.hands }
    ensures by_hand { All (AllByHandBut 1) result.1.hands }
{
    let (other, (read, linker)) = join(
        rt,
        || write_where_rung(rt, &bells.writer, other),
        || -> (Read<F, R, L::Out, M>, &mut L)
            requires { (batch ≡ []) × (length hands ≡ bells.now) × (0 < length buffer.items) × (calls_of front.pass.number front.pass.seen ≡ []) × (calls_of caller.pass.number caller.pass.seen ≡ [])
                × All (KeepsMoment (X.moment outside.now)) (map (λ hand. hand.pass) hands) }
            ensures { (result.1.ghost_name ≡ linker.entry.ghost_name)
                × ComesBack front.entry.turn.now front.entry.pass result.0.front.pass × ComesBack caller.entry.turn.now caller.entry.pass result.0.writer.pass
                × AllZip IsOther (map (λ hand. hand.turn) hands.entry) result.0.hands
                × IsRead (at_lines plan.entry.lines.now) plan.entry.channels result.0.ended result.0.front.pass result.0.writer.pass (told_as (L.linked linker.entry.now) (L.failures linker.entry.now)) (told_as (L.linked result.1.now) (L.failures result.1.now))
                × TellsFaults result.0.ended (L.failures linker.entry.now) (L.failures result.1.now) (L.trouble linker.entry.now) (L.trouble result.1.now)
                × All (KeepsMoment (X.moment outside.entry.now)) result.0.hands × All (AllByHandBut 1) result.0.hands }
        {
            let read = read_all(
                rt, alloc, plan, linker, outside, holds, front, caller, hands, batch, buffer, bells,
            );
            (read, linker)
        },
    );
    (other, read, linker)
}

/// The writer's thread: writes where it is rung for, until the bell is over.
fn write_where_rung<
    'w,
    'f,
    F: Object<Call = FrontCall, Reply = FrontReply>,
    T: Wait,
    K: Hang + Drop,
>(rt: &T, bell: &Bell, writer: Caller<'w, Writer<'f, F, T, K>>) -> Caller<'w, Writer<'f, F, T, K>>
    requires { calls_of writer.pass.number writer.pass.seen ≡ [] }
    ensures back { ComesBack writer.entry.turn.now writer.entry.pass result.pass }
    ensures writes { AllWrite (calls_of result.pass.number result.pass.seen) }
{
    let mut writer = writer;
    let mut next = bell.wait(rt);
    for _ in rt.forever() {
        let Some(place) = next else { break };
        next = bell.try_next(rt);
        let last = next.is_none();
        writer.call(rt, WriterCall::Write { place, last });
        if last {
            next = bell.wait(rt);
        }
    }
    writer
}

/// The reader: one channel after the other, and the end of the session.
fn read_all<
    'w,
    'f,
    'g,
    'a,
    F: Object<Call = FrontCall, Reply = FrontReply>,
    T: Wait,
    L: Linker,
    X: Outside,
    M: Folder + Drop,
>(
    rt: &T,
    alloc: Global,
    plan: Plan<'_>,
    linker: &mut L,
    outside: &X,
    holds: bool,
    front: Caller<'g, F>,
    caller: Caller<'w, Writer<'f, F, T, L::Out>>,
    hands: Hands<'a, ServedDevice<M>>,
    batch: Batch,
    buffer: Vec<u8>,
    bells: &Bells,
) -> Read<'w, 'f, 'g, F, T, L::Out, M>
    requires none { batch ≡ [] }
    requires places { length hands ≡ bells.now }
    requires room { 0 < length buffer.items }
    requires front { calls_of front.pass.number front.pass.seen ≡ [] }
    requires caller { calls_of caller.pass.number caller.pass.seen ≡ [] }
    requires moments { All (KeepsMoment (X.moment outside.now)) (map (λ hand. hand.pass) hands) }
    ensures moments { All (KeepsMoment (X.moment outside.now)) result.hands }
    ensures by_hand { All (AllByHandBut 1) result.hands }
    ensures front { ComesBack front.entry.turn.now front.entry.pass result.front.pass }
    ensures caller { ComesBack caller.entry.turn.now caller.entry.pass result.writer.pass }
    ensures others { AllZip IsOther (map (λ hand. hand.turn) hands.entry) result.hands }
    ensures read { IsRead (at_lines plan.entry.lines.now) plan.entry.channels result.ended result.front.pass result.writer.pass (told_as (L.linked linker.old) (L.failures linker.old)) (told_as (L.linked linker.new) (L.failures linker.new)) }
    ensures faults { TellsFaults result.ended (L.failures linker.old) (L.failures linker.new) (L.trouble linker.old) (L.trouble linker.new) }
{
    let mut reader = Reader::new(rt, front, caller, hands, batch, outside, bells, holds);
    let ended = serve_channels(alloc, plan, linker, &mut reader, buffer);
    reader.end_session();
    let (front, writer, hands) = reader.into_parts();
    Read {
        ended,
        front,
        writer,
        hands: hands.into_passes(),
    }
}

/// The front's desks.
fn device_desks<'a, M: Folder + Drop>(
    alloc: Global,
    ids: &[u32],
    desks: &'a Desks<ServedDevice<M>>,
    own: Passes<ServedDevice<M>>,
) -> Result<Vec<DeviceDesk<'a, M>>, AllocError>
    requires others { AllZip IsOther desks.now.turns own }
    requires same { length ids.now ≡ length desks.now.turns }
    requires reached { All (λ turn. IsServedReached turn.opening) desks.now.turns }
    ensures turns { IfOk result (λ list. map (λ desk. desk.turn) list.items ≡ desks.now.turns) }
    ensures passes { IfOk result (λ list. map (λ desk. desk.pass) list.items ≡ own) }
    ensures ids { IfOk result (λ list. map (λ desk. desk.id) list.items ≡ ids.now) }
{
    let mut own = own;
    let mut list = Vec::new(alloc);
    let mut place = 0;
    while let Some(pass) = own.next() {
        list.push(DeviceDesk::new(ids[place], desks.turn(place), pass))?;
        place += 1;
    }
    Ok(list)
}

/// The front's passes come home.
fn passes_of<'a, M: Folder + Drop>(
    home: Homecoming<ServedDevice<M>>,
    desks: Vec<DeviceDesk<'a, M>>,
) -> Passes<ServedDevice<M>>
    requires none { home.home ≡ [] }
    requires room { length desks.items ≤ home.to_come }
    ensures { AllZip IsPassOf desks.entry.items result }
{
    let mut home = home;
    for desk in desks {
        home.add(desk.into_pass());
    }
    home.finish()
}
