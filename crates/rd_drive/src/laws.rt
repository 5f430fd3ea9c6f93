//! The definitions at work, as contracts of functions that do nothing: the checker computes each case.

ghost use Rattle.std.specs.Prelude.{◌≡◌, ℕ, List, [], ◌∷◌, ◌++◌, ◌^◌, ◌-◌, codes, replicate, map, length, true, false, Some, None};
ghost use Rattle.rd_base.specs.Fields.{bytes8, bytes32, bytes64, path_bytes, text_bytes};
ghost use Rattle.rd_dirinfo.specs.declared.naming.Naming.TheVariants as Naming;
ghost use Rattle.rd_irp.specs.declared.op.Op.TheVariants as Op;
ghost use Rattle.rd_irp.specs.declared.completion.Body.TheVariants as Body;
ghost use Rattle.rd_base.specs.declared.journal.Key.{Key};
ghost use Rattle.rd_irp.specs.declared.op.Op.{Op};
ghost use Rattle.rd_dirinfo.specs.Paths.{is_within_limits};
ghost use Rattle.rd_irp.specs.declared.request.Request.{Request};
ghost use Rattle.rd_drive.specs.Answered.{drive_cuts, drive_parked, drive_runs, IsAnswered, IsFitting};
ghost use Rattle.rd_drive.specs.Device.{AreEnded};
ghost use Rattle.rd_drive.specs.Outcome.{Change, News};
ghost use Rattle.rd_drive.specs.Waiting.{settled};
ghost use Rattle.std.specs.List.{AllByRecursion};
ghost use Rattle.rd_drive.specs.DriveState.{DriveState, Node, node_of_path};
ghost use Rattle.rd_drive.specs.DriveStep.{drive_cut, drive_step, outcome_of};
ghost use Rattle.rd_drive.specs.Turns.{RunsItsRequest, TakesAll, TellsTurns, Turn};
ghost use Rattle.rd_base.specs.Statuses.{access_denied, cancelled, disk_full, insufficient_resources, lock_not_granted, notify_cleanup, object_path_not_found, too_many_opened_files};
ghost use Rattle.rd_drive.specs.Worked.{bytes, creates, ended, ended_with, key, no_but, ok, ok_with, opens, parked, played, sample, state_from, with_handles, with_locks, with_waiting};

/// Which requests wait, and what ends them.
pub fn waiting_is_as_listed()
    // A lock with the flag waits for another handle's, and gets it when that one is taken away.
    ensures lock { played (sample Naming.Exact) (opens (codes "\\a") ∷ opens (codes "\\a") ∷ (1, Op.Lock 3 false (bytes 0 1 ∷ [])) ∷ (2, Op.Lock 3 true (bytes 0 1 ∷ [])) ∷ (1, Op.Lock 4 false (bytes 0 1 ∷ [])) ∷ [])
        ≡ ok (Body.Created 1 1) ∷ ok (Body.Created 2 1) ∷ ok Body.Locked ∷ parked ∷ ok_with Body.Locked (ended 3 Body.Locked ∷ []) ∷ [] }
    // Of two that wait for the same byte the first gets it when the handle that has it is closed, and the other waits on.
    ensures turn { played (sample Naming.Exact) (opens (codes "\\a") ∷ opens (codes "\\a") ∷ opens (codes "\\a") ∷ (1, Op.Lock 3 false (bytes 0 1 ∷ [])) ∷ (2, Op.Lock 3 true (bytes 0 1 ∷ [])) ∷ (3, Op.Lock 2 true (bytes 0 1 ∷ [])) ∷ (1, Op.Close) ∷ (2, Op.Close) ∷ [])
        ≡ ok (Body.Created 1 1) ∷ ok (Body.Created 2 1) ∷ ok (Body.Created 3 1) ∷ ok Body.Locked ∷ parked ∷ parked ∷ ok_with Body.Closed (ended 4 Body.Locked ∷ []) ∷ ok_with Body.Closed (ended 5 Body.Locked ∷ []) ∷ [] }
    // It never waits where its own ranges are in each other's way.
    ensures own_ranges { played (sample Naming.Exact) (opens (codes "\\a") ∷ (1, Op.Lock 3 true (bytes 0 2 ∷ bytes 1 1 ∷ [])) ∷ []) ≡ ok (Body.Created 1 1) ∷ no_but lock_not_granted ∷ [] }
    // Closing its own handle ends a lock that waits, and a notification, in the order in which they began to wait.
    ensures closes { played (sample Naming.Exact) (opens (codes "\\a") ∷ opens (codes "\\a") ∷ (1, Op.Lock 3 false (bytes 0 1 ∷ [])) ∷ (2, Op.Lock 3 true (bytes 0 1 ∷ [])) ∷ (2, Op.Lock 3 true (bytes 0 5 ∷ [])) ∷ (2, Op.Close) ∷ [])
        ≡ ok (Body.Created 1 1) ∷ ok (Body.Created 2 1) ∷ ok Body.Locked ∷ parked ∷ parked ∷ ok_with Body.Closed (ended_with 3 lock_not_granted ∷ ended_with 4 lock_not_granted ∷ []) ∷ [] }
    ensures cleanup { played (sample Naming.Exact) (opens (codes "\\d") ∷ (1, Op.Notify false 1) ∷ (1, Op.Close) ∷ []) ≡ ok (Body.Created 1 1) ∷ parked ∷ ok_with Body.Closed (ended_with 1 notify_cleanup ∷ []) ∷ [] }
    // Who watches a folder is told of a new file in it, and who watches the one above only if it asks for what is below.
    ensures new_file { played (sample Naming.Exact) (opens (codes "\\d") ∷ opens [] ∷ opens [] ∷ (1, Op.Notify false 1) ∷ (2, Op.Notify false 1) ∷ (3, Op.Notify true 1) ∷ creates 2 0 (codes "\\d\\n") ∷ [])
        ≡ ok (Body.Created 1 1) ∷ ok (Body.Created 2 1) ∷ ok (Body.Created 3 1) ∷ parked ∷ parked ∷ parked
        ∷ ok_with (Body.Created 4 0) (ended 3 (Body.Buffer (bytes32 0 ++ bytes32 1 ++ bytes32 2 ++ text_bytes (codes "n"))) ∷ ended 5 (Body.Buffer (bytes32 0 ++ bytes32 1 ++ bytes32 6 ++ text_bytes (codes "d\\n"))) ∷ []) ∷ [] }
    // A filter that shares no bit with the change isn't told.
    ensures other_filter { played (sample Naming.Exact) (opens (codes "\\d") ∷ (1, Op.Notify false 2) ∷ creates 2 0 (codes "\\d\\n") ∷ []) ≡ ok (Body.Created 1 1) ∷ parked ∷ ok (Body.Created 2 0) ∷ [] }
    // Renaming tells the old name first; at a file that it replaces, that this one went.
    ensures renames { played (sample Naming.Exact) (opens [] ∷ opens (codes "\\a") ∷ (1, Op.Notify false 1) ∷ (2, Op.SetFile 10 (bytes8 0 ++ bytes8 0 ++ bytes32 6 ++ path_bytes (codes "\\b"))) ∷ [])
        ≡ ok (Body.Created 1 1) ∷ ok (Body.Created 2 1) ∷ parked ∷ ok_with (Body.Count 12) (ended 2 (Body.Buffer (bytes32 0 ++ bytes32 4 ++ bytes32 2 ++ text_bytes (codes "a"))) ∷ []) ∷ [] }
    ensures replaces { played (sample Naming.Exact) (opens [] ∷ creates 2 0 (codes "\\b") ∷ (2, Op.Close) ∷ opens (codes "\\a") ∷ (1, Op.Notify false 1) ∷ (3, Op.SetFile 10 (bytes8 1 ++ bytes8 0 ++ bytes32 6 ++ path_bytes (codes "\\b"))) ∷ [])
        ≡ ok (Body.Created 1 1) ∷ ok (Body.Created 2 0) ∷ ok Body.Closed ∷ ok (Body.Created 3 1) ∷ parked ∷ ok_with (Body.Count 12) (ended 4 (Body.Buffer (bytes32 0 ++ bytes32 2 ++ bytes32 2 ++ text_bytes (codes "b"))) ∷ []) ∷ [] }
    // A cut cancels what waits, in order, and closes every handle.
    ensures cut { (drive_cut (state_from 0 (sample Naming.Exact) (opens (codes "\\d") ∷ opens [] ∷ (2, Op.Notify true 1) ∷ (1, Op.Notify false 1) ∷ []))).ends ≡ ended_with 2 cancelled ∷ ended_with 3 cancelled ∷ [] }
    ensures cut_state { (drive_cut (state_from 0 (sample Naming.Exact) (opens (codes "\\d") ∷ opens [] ∷ (2, Op.Notify true 1) ∷ []))).state ≡ record (sample Naming.Exact) { next = 3 } }
{}

/// The limits of a drive.
pub fn limits_are_as_listed()
    ensures last_handle { (drive_step (with_handles (sample Naming.Exact) 4095) (key 0) 0 (opens (codes "\\a")).1 1).answer ≡ (ok (Body.Created 4096 1)).0 }
    ensures handles { (drive_step (with_handles (sample Naming.Exact) 4096) (key 0) 0 (opens (codes "\\a")).1 1).answer ≡ (no_but too_many_opened_files).0 }
    ensures last_id { (drive_step (record (sample Naming.Exact) { next = 2 ^ 32 - 1 }) (key 0) 0 (opens (codes "\\a")).1 1).answer ≡ (ok (Body.Created (2 ^ 32 - 1) 1)).0 }
    ensures no_id { (drive_step (record (sample Naming.Exact) { next = 2 ^ 32 }) (key 0) 0 (opens (codes "\\a")).1 1).answer ≡ (no_but too_many_opened_files).0 }
    // What leads through no folder is said after that there is no room for a handle.
    ensures path_later { (drive_step (record (sample Naming.Exact) { next = 2 ^ 32 }) (key 0) 0 (opens (codes "\\q\\a")).1 1).answer ≡ (no_but too_many_opened_files).0 }
    ensures through_a_file { played (sample Naming.Exact) (opens (codes "\\a\\x") ∷ []) ≡ no_but object_path_not_found ∷ [] }
    ensures last_waiting { (drive_step (with_waiting (with_handles (sample Naming.Exact) 1) 1 63) (key 64) 1 (Op.Notify false 1) 1).answer ≡ parked.0 }
    ensures waiting { (drive_step (with_waiting (with_handles (sample Naming.Exact) 1) 1 64) (key 64) 1 (Op.Notify false 1) 1).answer ≡ (no_but insufficient_resources).0 }
    ensures too_far { played (sample Naming.Exact) (opens (codes "\\a") ∷ (1, Op.Write (2 ^ 40) (codes "x")) ∷ []) ≡ ok (Body.Created 1 1) ∷ no_but disk_full ∷ [] }
    ensures root_stays { played (sample Naming.Exact) (creates 1 0x1000 [] ∷ []) ≡ no_but access_denied ∷ [] }
{}

/// Whatever is asked of a drive, it answers by a reply of the operation's layout that can be sent, and never says that it found no memory; or the
/// request waits after the others.
pub fn requests_are_answered()
    ensures { (s : DriveState) (key : Key) (file : ℕ) (operation : Op) (moment : ℕ) → IsFitting s → IsAnswered s key operation (outcome_of s key file operation moment) }
{}

/// Of the requests that wait in a drive some are ended by what the news says, each by a reply of its own layout that can be sent; the others wait
/// on. Both keep their order.
pub fn ends_are_of_those_that_wait()
    ensures { (s : DriveState) (news : News) → AllByRecursion (λ (change : Change). is_within_limits change.path ≡ true) news.changes
        → AreEnded (drive_parked s) (settled s news).ends (drive_parked (settled s news).state) }
{}

/// Whatever jobs a drive runs and however often it is cut off, one after the other, the journal tells it: it leaves the drive in the same state,
/// gives the same replies, and its marks are right.
pub fn journals_tell_what_was_done()
    ensures { (old new : DriveState) (turns : List Turn) (requests : Key → Request) → TakesAll drive_runs drive_parked drive_cuts old turns new
        → AllByRecursion (RunsItsRequest requests) turns → TellsTurns old new requests turns }
{}
