//! What comes of a job.

ghost use Rattle.std.specs.Prelude.{◌≡◌, [], IsFalse};
ghost use Rattle.rd_drive.specs.Answered.{drive_parked, IsServed};
ghost use Rattle.rd_drive.specs.Device.{is_starved, Parks};
ghost use Rattle.rd_drive.specs.declared.step.Step.TheVariants as Step;
ghost use Rattle.rd_irp.specs.declared.op.Op.TheVariants as Op;
ghost use Rattle.rd_drive.specs.Outcome.{fault, on_handle, refused};
ghost use Rattle.rd_base.specs.Statuses.{no_memory, not_supported};
ghost use Rattle.rd_drive.specs.DriveStep.{outcome_of};
ghost use Rattle.rd_drive.specs.Store.{drive_of, IsFed, IsSound, Serves};

use crate::asked::Asked;
use crate::ends::Ends;
use crate::plan::Job;
use crate::step::{Step, fault, success};
use crate::store::{Done, Outcome, Store};
use rd_base::Status;
use rd_irp::Op;

impl Store {
    /// A drive has no device control, as its handles are told.
    fn control(&self, file: u32) -> Outcome
        requires sound { IsSound self.now }
        ensures { Serves self.now self.now (on_handle (drive_of self.now) file (λ handle node. refused (drive_of self.now) not_supported)) result }
    {
        match self.handle(file) {
            Some(_) => Err(Status::NOT_SUPPORTED),
            None => Err(Status::INVALID_HANDLE),
        }
    }

    /// Runs a job for which memory was found, with room for the bytes of its reply.
    pub fn serve(&mut self, job: Job, room: Vec<u8>, moment: u64, ends: &mut Ends) -> Step
        requires sound { IsSound self.old }
        requires room { room.items ≡ [] }
        requires ends { ends.old ≡ [] }
        ensures sound { IsSound self.new }
        ensures served { IsServed (drive_of self.old) job moment result ends.new (drive_of self.new) }
        ensures close { job.op ≡ Op.Close → IsFalse (is_starved result) }
    {
        match self.outcome(job, room, moment) {
            Ok(Done::Replied(body, news)) => {
                self.settle(&news, ends);
                Step::Reply(success(body))
            }
            Ok(Done::Parked) => Step::Parked,
            Err(status) => Step::Reply(fault(status)),
        }
    }

    /// The answer to a job for which no memory was found. It ends none of the requests that wait.
    pub fn starve(&self, job: &Job) -> Step
        requires sound { IsSound self.now }
        ensures answer { result ≡ Step.Reply (fault no_memory) }
        ensures parks { Parks job.now (drive_parked (drive_of self.now)) result [] (drive_parked (drive_of self.now)) }
    {
        let _ = job;
        Step::Reply(fault(Status::NO_MEMORY))
    }

    /// What comes of a job, before the requests that wait are looked at.
    pub fn outcome(&mut self, job: Job, room: Vec<u8>, moment: u64) -> Outcome
        requires sound { IsSound self.old }
        requires room { room.items ≡ [] }
        ensures serves { Serves self.old self.new (outcome_of (drive_of self.old) job.key job.file job.op moment) result }
        ensures close { job.op ≡ Op.Close → IsFed result }
    {
        let Job { key, file, op, .. } = job;
        match op {
            Op::Malformed { .. } => Err(Status::INVALID_PARAMETER),
            Op::Unknown { .. } => Err(Status::NOT_SUPPORTED),
            Op::Create {
                access,
                attributes,
                share,
                disposition,
                options,
                path,
                ..
            } => {
                let asked = Asked {
                    access,
                    attributes,
                    share,
                    disposition,
                    options,
                };
                self.create(asked, path.as_slice(), moment)
            }
            Op::Close => self.close(file),
            Op::Read { offset, length } => self.read(file, offset, length, room),
            Op::Write { offset, bytes } => self.write(file, offset, bytes.as_slice(), moment),
            Op::QueryFile { class } => self.query_file(file, class, room),
            Op::SetFile { class, bytes } => { self.set_file(file, class, bytes.as_slice(), moment) }
            Op::QueryVolume { class } => self.query_volume(file, class, room),
            Op::SetVolume { class, bytes } => self.set_volume(file, class, bytes.as_slice()),
            Op::QueryDir {
                class,
                initial,
                path,
            } => self.query_dir(file, class, initial, path.as_slice(), room),
            Op::Notify { tree, filter } => self.notify(key, file, tree, filter),
            Op::Control { .. } => self.control(file),
            Op::Lock {
                operation,
                wait,
                ranges,
            } => self.lock(key, file, operation, wait, ranges),
        }
    }
}
