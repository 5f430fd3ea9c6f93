//! What comes of a job.

ghost use Rattle.std.specs.Prelude.{◌≡◌, ◌≢◌, [], IsFalse, false};
ghost use Rattle.rd_base.specs.Statuses.{no_memory};
ghost use Rattle.rd_irp.specs.declared.op.Op.TheVariants as Op;
ghost use Rattle.rd_drive.specs.declared.step.Step.TheVariants as Step;
ghost use Rattle.rd_drive.specs.Device.{is_starved, IsAnswerTo, Parks};
ghost use Rattle.rd_drive.specs.Outcome.{fault};
ghost use Rattle.rd_folder_drive.specs.Closing.{IsFed};
ghost use Rattle.rd_folder_drive.specs.Files.{FilesBy};
ghost use Rattle.rd_folder_drive.specs.FolderDrive.{state_over, FolderRuns};
ghost use Rattle.rd_folder_drive.specs.Served.{seen, FitsBody, IfReplied, IsOver};
ghost use Rattle.rd_folder_drive.specs.Serving.{ServesClosing, ServesOther, WaitsForJob};
ghost use Rattle.rd_folder_drive.specs.Table.{IsSound};
ghost use Rattle.rd_folder_drive.specs.Waits.{parked_in};

use crate::table::{Done, Outcome, Table};
use rd_base::Status;
use rd_drive::asked::Asked;
use rd_drive::step::{fault, success};
use rd_drive::{Ends, Job, Step};
use rd_folder::Folder;
use rd_irp::{Op, Reply};

impl Table {
    /// Runs a job for which memory was found, with room for the bytes of its reply.
    pub fn serve<F: Folder>(
        &mut self,
        folder: &mut F,
        job: Job,
        room: Vec<u8>,
        moment: u64,
        ends: &mut Ends,
    ) -> Step
        requires sound { IsSound self.old }
        requires over { IsOver self.old (seen F.nodes F.faults folder.old) }
        requires room { room.items ≡ [] }
        requires ends { ends.old ≡ [] }
        ensures sound { IsSound self.new }
        ensures over { IsOver self.new (seen F.nodes F.faults folder.new) }
        ensures runs { FolderRuns (state_over self.old (seen F.nodes F.faults folder.old)) (record { job = job; starved = false }) moment result ends.new (state_over self.new (seen F.nodes F.faults folder.new)) }
        ensures answers { IsAnswerTo job.op result }
        ensures parks { Parks job (parked_in self.old) result ends.new (parked_in self.new) }
        ensures close { job.op ≡ Op.Close → IsFalse (is_starved result) }
    {
        match self.outcome(folder, job, room, moment) {
            Ok(Done::Replied(body, news)) => {
                self.settle(&news, ends);
                Step::Reply(success(body))
            }
            Ok(Done::Kept(status, news)) => {
                self.settle(&news, ends);
                Step::Reply(fault(status))
            }
            Ok(Done::Parked) => Step::Parked,
            Err(status) => Step::Reply(fault(status)),
        }
    }

    /// The answer to a job for which no memory was found. It ends none of the requests that wait.
    pub fn starve(&self, job: &Job) -> Step
        requires sound { IsSound self.now }
        ensures answer { result ≡ Step.Reply (fault no_memory) }
        ensures parks { Parks job.now (parked_in self.now) result [] (parked_in self.now) }
    {
        let _ = job;
        Step::Reply(fault(Status::NO_MEMORY))
    }

    /// What comes of a job, before the requests that wait are looked at.
    fn outcome<F: Folder>(
        &mut self,
        folder: &mut F,
        job: Job,
        room: Vec<u8>,
        moment: u64,
    ) -> Outcome
        requires sound { IsSound self.old }
        requires over { IsOver self.old (seen F.nodes F.faults folder.old) }
        requires room { room.items ≡ [] }
        ensures other { ServesOther self.old (seen F.nodes F.faults folder.old) self.new (seen F.nodes F.faults folder.new) job moment result }
        ensures closing { ServesClosing self.old (seen F.nodes F.faults folder.old) self.new (seen F.nodes F.faults folder.new) job result }
        ensures fits { IfReplied result (FitsBody job.op) }
        ensures waits { WaitsForJob self.old self.new job result }
        ensures fed { job.op ≡ Op.Close → IsFed result }
        ensures files { FilesBy self.old self.new job.op job.file result }
    {
        let Job { key, file, op, .. } = job;
        match op {
            Op::Malformed { .. } => Err(Status::INVALID_PARAMETER),
            Op::Unknown { .. } => Err(Status::NOT_SUPPORTED),
            Op::Create {
                access,
                attributes,
                share,
                disposition,
                options,
                path,
                ..
            } => {
                let asked = Asked {
                    access,
                    attributes,
                    share,
                    disposition,
                    options,
                };
                self.create(folder, asked, path.as_slice(), moment)
            }
            Op::Close => self.close(folder, file),
            Op::Read { offset, length } => self.read(folder, file, offset, length, room),
            Op::Write { offset, bytes } => {
                self.write(folder, file, offset, bytes.as_slice(), moment)
            }
            Op::QueryFile { class } => self.query_file(folder, file, class, room),
            Op::SetFile { class, bytes } => {
                self.set_file(folder, file, class, bytes.as_slice(), moment)
            }
            Op::QueryVolume { class } => self.query_volume(file, class, room),
            Op::SetVolume { class, bytes } => self.set_volume(file, class, bytes.as_slice()),
            Op::QueryDir {
                class,
                initial,
                path,
            } => self.query_dir(folder, file, class, initial, path.as_slice(), room),
            Op::Notify { tree, filter } => self.notify(key, file, tree, filter),
            Op::Control { .. } => self.control(file),
            Op::Lock {
                operation,
                wait,
                ranges,
            } => self.lock(key, file, operation, wait, ranges),
        }
    }
}
