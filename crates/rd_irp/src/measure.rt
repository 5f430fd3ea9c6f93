//! How far a request or a completion goes, without its value being made: what a list of messages shows of each. It takes no memory.

ghost use Rattle.std.specs.Prelude.{◌≡◌, ◌≤◌, Ok, Err, IfOk, IfErr, length};
ghost use Rattle.rd_base.specs.Fields.{path, times};
ghost use Rattle.rd_base.specs.Reading.{WithTail};
ghost use Rattle.rd_irp.specs.Measure.{Skips, SkipsOrFails, measure_of, tail_of};
ghost use Rattle.rd_irp.specs.Completion.{completion_body, success_body, FirstFaultOfBody};
ghost use Rattle.rd_irp.specs.Op.{control_body, create_body, close_body, directory_body, lock_body, notify_body, op_body, query_dir_body, queried_class, query_file_body, query_volume_body, range, read_body, class_and_bytes, set_file_body, set_volume_body, write_body};

use crate::completion::{Kind, skip_pad};
use crate::op::{
    CLOSE, CONTROL, CREATE, DIRECTORY, LOCK, MAX_RANGES, NOTIFY, QUERY_DIR, QUERY_FILE,
    QUERY_VOLUME, READ, SET_FILE, SET_VOLUME, WRITE,
};
use crate::request::{RequestHead, head_of};
use rd_base::{Bad, Cursor, Status, read_count32, read_flag, read_units_length, tail_len};

/// The bytes of one range of a lock.
const RANGE_LEN: u32 = 16;

/// Reads what a request says in its head, and counts the ignored bytes after its body; where the body has a fault, all bytes after
/// the head are ignored.
pub fn measure_request(bytes: &[u8]) -> Result<(RequestHead, u32), Bad>
    ensures measured { IfOk result (λ read.
        WithTail read.1 (λ tail. measure_of bytes.now ≡ Ok (read.0, tail))) }
    ensures refused { IfErr result (λ bad. measure_of bytes.now ≡ Err bad) }
{
    let mut cursor = Cursor::new(bytes);
    let head = head_of(&mut cursor)?;
    let after_head = tail_len(cursor.rest());
    let tail = match skip_op(head.major, head.minor, &mut cursor) {
        Ok(()) => tail_len(cursor.rest()),
        Err(_) => after_head,
    };
    Ok((head, tail))
}

/// Goes over the body of a request with this function.
#[tactic(auto, unfolding(crate::specs::Op::op_body))]
fn skip_op(major: u32, minor: u32, cursor: &mut Cursor<'_>) -> Result<(), Bad>
    ensures { SkipsOrFails (op_body major minor) cursor.old cursor.new result }
{
    match major {
        CREATE => skip_create(cursor),
        CLOSE => skip_close(cursor),
        READ => skip_read(cursor),
        WRITE => skip_write(cursor),
        QUERY_FILE => skip_query_file(cursor),
        SET_FILE => skip_set_file(cursor),
        QUERY_VOLUME => skip_query_volume(cursor),
        SET_VOLUME => skip_set_volume(cursor),
        DIRECTORY => skip_directory(major, minor, cursor),
        CONTROL => skip_control(cursor),
        LOCK => skip_lock(cursor),
        _ => Ok(()),
    }
}

#[tactic(auto, unfolding(crate::specs::Op::create_body))]
fn skip_create(cursor: &mut Cursor<'_>) -> Result<(), Bad>
    ensures { SkipsOrFails create_body cursor.old cursor.new result }
{
    cursor.u32()?;
    cursor.u64()?;
    cursor.u32()?;
    cursor.u32()?;
    cursor.u32()?;
    cursor.u32()?;
    let count = read_units_length(cursor)?;
    skip_path(cursor, count)
}

#[tactic(auto, using(crate::proofs::MeasureLemmas::path_passed))]
fn skip_path(cursor: &mut Cursor<'_>, count: u32) -> Result<(), Bad>
    ensures { SkipsOrFails (path count) cursor.old cursor.new result }
{
    cursor.take(count)?;
    Ok(())
}

#[tactic(auto, unfolding(crate::specs::Op::close_body))]
fn skip_close(cursor: &mut Cursor<'_>) -> Result<(), Bad>
    ensures { SkipsOrFails close_body cursor.old cursor.new result }
{
    cursor.take(32)?;
    Ok(())
}

#[tactic(auto, unfolding(crate::specs::Op::read_body))]
fn skip_read(cursor: &mut Cursor<'_>) -> Result<(), Bad>
    ensures { SkipsOrFails read_body cursor.old cursor.new result }
{
    cursor.u32()?;
    cursor.u64()?;
    cursor.take(20)?;
    Ok(())
}

#[tactic(auto, unfolding(crate::specs::Op::write_body))]
fn skip_write(cursor: &mut Cursor<'_>) -> Result<(), Bad>
    ensures { SkipsOrFails write_body cursor.old cursor.new result }
{
    let count = cursor.u32()?;
    cursor.u64()?;
    cursor.take(20)?;
    cursor.take(count)?;
    Ok(())
}

#[tactic(auto, unfolding(crate::specs::Op::query_file_body, crate::specs::Op::queried_class))]
fn skip_query_file(cursor: &mut Cursor<'_>) -> Result<(), Bad>
    ensures { SkipsOrFails query_file_body cursor.old cursor.new result }
{
    skip_queried(cursor)
}

#[tactic(auto, unfolding(crate::specs::Op::query_volume_body, crate::specs::Op::queried_class))]
fn skip_query_volume(cursor: &mut Cursor<'_>) -> Result<(), Bad>
    ensures { SkipsOrFails query_volume_body cursor.old cursor.new result }
{
    skip_queried(cursor)
}

#[tactic(auto, unfolding(crate::specs::Op::queried_class))]
fn skip_queried(cursor: &mut Cursor<'_>) -> Result<(), Bad>
    ensures { SkipsOrFails queried_class cursor.old cursor.new result }
{
    cursor.u32()?;
    cursor.u32()?;
    cursor.take(24)?;
    Ok(())
}

#[tactic(auto, unfolding(crate::specs::Op::set_file_body))]
fn skip_set_file(cursor: &mut Cursor<'_>) -> Result<(), Bad>
    ensures { SkipsOrFails set_file_body cursor.old cursor.new result }
{
    skip_set(cursor)
}

#[tactic(auto, unfolding(crate::specs::Op::set_volume_body))]
fn skip_set_volume(cursor: &mut Cursor<'_>) -> Result<(), Bad>
    ensures { SkipsOrFails set_volume_body cursor.old cursor.new result }
{
    skip_set(cursor)
}

#[tactic(auto, unfolding(crate::specs::Op::class_and_bytes))]
fn skip_set(cursor: &mut Cursor<'_>) -> Result<(), Bad>
    ensures { SkipsOrFails class_and_bytes cursor.old cursor.new result }
{
    cursor.u32()?;
    let count = cursor.u32()?;
    cursor.take(24)?;
    cursor.take(count)?;
    Ok(())
}

/// Goes over the body of a request of directory control.
#[tactic(auto, unfolding(crate::specs::Op::directory_body))]
fn skip_directory(major: u32, minor: u32, cursor: &mut Cursor<'_>) -> Result<(), Bad>
    ensures { SkipsOrFails (directory_body major minor) cursor.old cursor.new result }
{
    match minor {
        QUERY_DIR => skip_query_dir(cursor),
        NOTIFY => skip_notify(cursor),
        _ => Ok(()),
    }
}

#[tactic(auto, unfolding(crate::specs::Op::query_dir_body))]
fn skip_query_dir(cursor: &mut Cursor<'_>) -> Result<(), Bad>
    ensures { SkipsOrFails query_dir_body cursor.old cursor.new result }
{
    cursor.u32()?;
    read_flag(cursor)?;
    let count = read_units_length(cursor)?;
    cursor.take(23)?;
    skip_path(cursor, count)
}

#[tactic(auto, unfolding(crate::specs::Op::notify_body))]
fn skip_notify(cursor: &mut Cursor<'_>) -> Result<(), Bad>
    ensures { SkipsOrFails notify_body cursor.old cursor.new result }
{
    read_flag(cursor)?;
    cursor.u32()?;
    cursor.take(27)?;
    Ok(())
}

#[tactic(auto, unfolding(crate::specs::Op::control_body))]
fn skip_control(cursor: &mut Cursor<'_>) -> Result<(), Bad>
    ensures { SkipsOrFails control_body cursor.old cursor.new result }
{
    cursor.u32()?;
    let count = cursor.u32()?;
    cursor.u32()?;
    cursor.take(20)?;
    cursor.take(count)?;
    Ok(())
}

#[tactic(auto, unfolding(crate::specs::Op::lock_body))]
fn skip_lock(cursor: &mut Cursor<'_>) -> Result<(), Bad>
    ensures { SkipsOrFails lock_body cursor.old cursor.new result }
{
    cursor.u32()?;
    cursor.u32()?;
    let count = read_count32(cursor, MAX_RANGES)?;
    cursor.take(20)?;
    skip_ranges(cursor, count)
}

#[tactic(auto, using(crate::proofs::MeasureLemmas::ranges_passed, crate::proofs::MeasureLemmas::ranges_failed))]
fn skip_ranges(cursor: &mut Cursor<'_>, count: u32) -> Result<(), Bad>
    requires { count ≤ 1024 }
    ensures { SkipsOrFails (times count range) cursor.old cursor.new result }
{
    cursor.take(count * RANGE_LEN)?;
    Ok(())
}

/// Counts the ignored bytes after the body of a completion, whose head stands before `bytes`.
pub fn measure_body(kind: Kind, status: Status, bytes: &[u8]) -> Result<u32, Bad>
    ensures measured { IfOk result (λ count.
        WithTail count (λ tail. tail_of (completion_body kind status) bytes.now ≡ Ok tail)) }
    ensures refused { IfErr result (FirstFaultOfBody kind status bytes.now) }
{
    let mut cursor = Cursor::new(bytes);
    skip_body(kind, status, &mut cursor)?;
    Ok(tail_len(cursor.rest()))
}

/// Of a status other than success nothing is read.
#[tactic(auto, unfolding(crate::specs::Completion::completion_body))]
fn skip_body(kind: Kind, status: Status, cursor: &mut Cursor<'_>) -> Result<(), Bad>
    ensures { Skips (completion_body kind status) cursor.old cursor.new result }
{
    if status.0 != 0 {
        return Ok(());
    }
    skip_success(kind, cursor)
}

#[tactic(auto, unfolding(crate::specs::Completion::success_body, rd_base::specs::Counted::counted_bytes))]
fn skip_success(kind: Kind, cursor: &mut Cursor<'_>) -> Result<(), Bad>
    ensures { Skips (success_body kind) cursor.old cursor.new result }
{
    match kind {
        Kind::Create => {
            cursor.u32()?;
            cursor.u8()?;
        }
        Kind::Close => skip_pad(cursor, 4)?,
        Kind::Count => {
            cursor.u32()?;
            skip_pad(cursor, 1)?;
        }
        Kind::Buffer => {
            let count = cursor.u32()?;
            cursor.take(count)?;
        }
        Kind::Lock => skip_pad(cursor, 5)?,
    }
    Ok(())
}
