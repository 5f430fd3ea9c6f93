//! The definitions at work, as contracts of functions that do nothing: the checker computes each case.

ghost use Rattle.std.specs.Prelude.{◌≡◌, ◌≢◌, ◌++◌, ◌∷◌, ℕ, Bool, List, [], Some, codes, map, true};
ghost use Rattle.rd_base.specs.declared.journal.Cause.TheVariants.{Dropped, Removed};
ghost use Rattle.rd_base.specs.Statuses.{cancelled, no_such_device};
ghost use Rattle.rd_base.specs.declared.journal.Item.{Item};
ghost use Rattle.rd_base.specs.declared.journal.Key.{Key};
ghost use Rattle.rd_irp.specs.declared.completion.Reply.{Reply};
ghost use Rattle.rd_irp.specs.declared.request.Request.{Request};
ghost use Rattle.std.specs.List.{AllByRecursion};
ghost use Rattle.std.specs.List.Sorted.{IsStrictlySortedBy};
ghost use Rattle.std.specs.Map.{keys_of};
ghost use Rattle.std.specs.Ordering.{nat_cmp};
ghost use Rattle.rd_pending.specs.declared.calls.Outcome.TheVariants.{Done};
ghost use Rattle.rd_pending.specs.Outcomes.{Accepted};
ghost use Rattle.rd_base.specs.declared.journal.Item.TheVariants.{Came, Cut};
ghost use Rattle.rd_devices.specs.DeviceList.{list_bytes};
ghost use Rattle.rd_devices.specs.Removal.{removal_bytes};
ghost use Rattle.rd_world.specs.Acts.{IsCutThere, IsToldInTime};
ghost use Rattle.rd_declared.specs.Devices.{Declared, announce_of};
ghost use Rattle.rd_script.specs.declared.outcome.Outcomes.{Outcomes};
ghost use Rattle.rd_world.specs.Events.{Event, act, is_enabled};
ghost use Rattle.rd_world.specs.Found.{AreFound, found_books, found_devices, found_drive, found_output, found_recording, found_script};
ghost use Rattle.rd_declared.specs.Marks.{AreLonger};
ghost use Rattle.rd_world.specs.Lines.{IsDue};
ghost use Rattle.rd_deeds.specs.Joining.{AreJoined, ClientCameTo, IsCarried};
ghost use Rattle.rd_world.specs.Recording.{recording_of_deeds, request_of};
ghost use Rattle.rd_declared.specs.Replies.{RanRead, replies_read};
ghost use Rattle.rd_world.specs.Session.{IsStoredOpen, IsWholeSession, replies_in};
ghost use Rattle.rd_world.specs.Step.{recorded_by};
ghost use Rattle.rd_deeds.specs.Talk.{Deed, client_read, client_writes, host_begins, host_ends, journal, removes, request_at, stores};
ghost use Rattle.rd_world.specs.World.{WorldState, journals_in};
ghost use Rattle.rd_world.specs.Worked.{cached_bytes_announced, device_removed_and_added, drop_and_reconnect, idle_control_lines, notification_never_ended, notification_of_new_file, printer_cache_renamed, removal_before_sent_request, removal_under_work, removed_device_not_announced_again, sharing_violation, waiting_lock, done_in, reported, said_in, scripts, settles_in, standing, told_by_deeds};

/// What sessions come to.
pub fn sessions_run_as_listed()
    ensures idle_control_lines { reported idle_control_lines ≡ Some (codes "line 2 idle\n" ++ codes "line 4 idle\n" ++ codes "line 5 idle\n" ++ codes "device 1 ran 0\n") }
    ensures printer_cache_renamed { reported printer_cache_renamed ≡ Some (codes "device 2 ran 0\n" ++ codes "cache 4400650073006b000000 03\n") }
    ensures cached_bytes_announced { reported cached_bytes_announced ≡ Some (codes "device 2 ran 0\n" ++ codes "cache 4f00660066006900630065000000 0102\n") }
    ensures removal_under_work { reported removal_under_work ≡ Some (codes "1.1 done 00000000 0100000001\n" ++ codes "1.2 lost removed\n" ++ codes "1.3 done 00000000 0100000001\n" ++ codes "1.4 done 00000000 0100000062\n" ++ codes "2.1 done 00000000 0200000001\n" ++ codes "2.2 lost removed\n" ++ codes "device 1 ran 3\n" ++ codes "device 2 ran 2\n") }
    ensures removal_before_sent_request { reported removal_before_sent_request ≡ Some (codes "1.1 done 00000000 0100000001\n" ++ codes "1.2 lost removed\n" ++ codes "device 1 ran 1\n") }
    ensures drop_and_reconnect { reported drop_and_reconnect ≡ Some (codes "1.1 done 00000000 0100000001\n" ++ codes "1.2 lost dropped\n" ++ codes "1.3 refused stalehandle\n" ++ codes "1.4 done 00000000 0200000001\n" ++ codes "1.5 done c0000011 00000000\n" ++ codes "device 1 ran 3\n") }
    ensures device_removed_and_added { reported device_removed_and_added ≡ Some (codes "1.1 done 00000000 0100000001\n" ++ codes "1.2 refused nodevice\n" ++ codes "1.3 refused stalehandle\n" ++ codes "1.4 done 00000000 0200000001\n" ++ codes "device 1 ran 2\n") }
    ensures removed_device_not_announced_again { reported removed_device_not_announced_again ≡ Some (codes "1.1 refused nodevice\n" ++ codes "1.2 done 00000000 0100000001\n" ++ codes "device 1 ran 1\n") }
    ensures waiting_lock { reported waiting_lock ≡ Some (codes "1.1 done 00000000 0100000001\n" ++ codes "1.2 done 00000000 0000000000\n" ++ codes "1.3 done 00000000 0000000000\n" ++ codes "2.1 done 00000000 0200000001\n" ++ codes "2.2 done 00000000 0000000000\n" ++ codes "2.3 done 00000000 0100000061\n" ++ codes "device 1 ran 6\n") }
    ensures notification_of_new_file { reported notification_of_new_file ≡ Some (codes "1.1 done 00000000 0100000001\n" ++ codes "1.2 done 00000000 0e0000000000000001000000020000006e00\n" ++ codes "2.1 done 00000000 0200000000\n" ++ codes "device 1 ran 3\n") }
    ensures notification_never_ended { reported notification_never_ended ≡ Some (codes "1.1 done 00000000 0100000001\n" ++ codes "1.2 lost dropped\n" ++ codes "device 1 ran 2\n") }
    ensures sharing_violation { reported sharing_violation ≡ Some (codes "1.1 done 00000000 0100000001\n" ++ codes "1.2 done 00000000 00000000\n" ++ codes "2.1 done c0000043 0000000000\n" ++ codes "2.2 done 00000000 0200000001\n" ++ codes "device 1 ran 4\n") }
{}

/// What both sides did in them tells their hosts and journals.
pub fn deeds_tell_sessions()
    ensures { map standing scripts ≡ map told_by_deeds scripts }
{}

/// Their control lines did what follows from the lines alone.
pub fn control_lines_act()
    ensures { map done_in scripts ≡ map said_in scripts }
{}

/// And where their lines settle, the channel that is open is still.
pub fn sessions_settle()
    ensures printers { settles_in cached_bytes_announced ≡ Some true }
    ensures removals { settles_in device_removed_and_added ≡ Some true }
    ensures reconnections { settles_in removed_device_not_announced_again ≡ Some true }
    ensures locks { settles_in waiting_lock ≡ Some true }
    ensures notifications { settles_in notification_never_ended ≡ Some true }
{}

/// Over the devices of a script no request of joined sides is done by a reply that says that it was cancelled, or that its device isn't there.
pub fn losses_are_no_replies()
    ensures { (client : ℕ) (devices : List (ℕ × Declared)) (deeds : List Deed) → AreJoined client (replies_in devices deeds) deeds → (a : Accepted) (reply : Reply) → ClientCameTo client deeds a (Done reply) → (reply.status ≢ cancelled) × (reply.status ≢ no_such_device) }
{}

/// A key that was read names the same request by what the client read as by what the host wrote, and a device's journal whose runs are of such keys
/// gives the same replies by both.
pub fn requests_agree()
    ensures named { (deeds : List Deed) → IsCarried deeds → (key : Key) (r : Request) → request_at (client_read key.channel deeds) key.index ≡ Some r → request_of deeds key ≡ r }
    ensures replies { (devices : List (ℕ × Declared)) (deeds : List Deed) → IsCarried deeds → (device : ℕ) (items : List Item) → AllByRecursion (RanRead deeds) items → replies_in devices deeds device items ≡ replies_read devices deeds device items }
{}

/// The recording grows by what each event adds to it, whichever runs find no memory.
pub fn events_are_recorded()
    ensures { (starves : Key → Bool) (w : WorldState) (e : Event) → is_enabled w e ≡ true → recording_of_deeds (act starves w e).deeds ≡ recording_of_deeds w.deeds ++ recorded_by w e }
{}

/// Whatever happens, and whichever runs find no memory: journals only become longer, and devices keep their ids.
pub fn journals_grow()
    ensures longer { (starves : Key → Bool) (w : WorldState) (e : Event) → IsStrictlySortedBy nat_cmp (keys_of w.stations) → AreLonger (journals_in w) (journals_in (act starves w e)) }
    ensures ids { (starves : Key → Bool) (w : WorldState) (e : Event) → IsStrictlySortedBy nat_cmp (keys_of w.stations) → keys_of (act starves w e).stations ≡ keys_of w.stations }
{}

/// A whole session that is all that is promised: a script whose first channel ends while a read is under way, and whose device is removed, on its
/// second channel, while another one is. So of its four lines two are done, one is lost by the drop and one by the removal.
pub fn a_session_is_there()
    ensures { (told : Outcomes) → AreFound told → IsWholeSession found_script found_recording found_books told found_output }
{}

/// Wrong turns of a session, each at the clause that refuses it.
pub fn wrong_turns_are_refused()
    // A channel ends, and the device that is there wasn't cut off, or was twice.
    ensures uncut { ¬ (IsCutThere found_devices (host_begins 1 ∷ []) (host_ends 1)) }
    ensures cut_twice { ¬ (IsCutThere found_devices (stores 1 (Cut Dropped) ∷ stores 1 (Cut Dropped) ∷ host_begins 1 ∷ []) (host_ends 1)) }
    // A request comes to a device after its channel's end, or while the device is removed.
    ensures came_late { ¬ (IsStoredOpen (host_ends 1 ∷ host_begins 1 ∷ []) (stores 1 (Came (record { channel = 1; index = 0 })))) }
    ensures came_removed { ¬ (IsCutThere found_devices (stores 1 (Cut Removed) ∷ removes 1 ∷ host_begins 1 ∷ []) (stores 1 (Came (record { channel = 1; index = 0 })))) }
    // A removal is told before it is done.
    ensures told_early { ¬ (IsToldInTime (client_writes 1 (removal_bytes (1 ∷ [])) ∷ client_writes 1 (list_bytes (announce_of [] found_drive ∷ [])) ∷ host_begins 1 ∷ [])) }
    // A line after a `drop` line is issued before the drop, and another before the first channel is open.
    ensures issued_early { ¬ (IsDue found_devices 2 (host_begins 1 ∷ [])) }
    ensures issued_unopened { ¬ (IsDue found_devices 0 []) }
{}
