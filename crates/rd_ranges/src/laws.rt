//! What holds of every reply of a session's devices, as contracts of functions that do nothing.

ghost use Rattle.std.specs.Prelude.{◌&&◌, ℕ, ◌≡◌, ◌==◌, ◌<◌, ◌^◌, Bool, false, not, List, [], Ok, Some, Contains, map, reverse};
ghost use Rattle.std.specs.List.{AllByRecursion};
ghost use Rattle.rd_base.specs.Layout.{AreBytes, met};
ghost use Rattle.rd_base.specs.Position.{Position, at_start};
ghost use Rattle.rd_base.specs.declared.journal.Item.{Item};
ghost use Rattle.rd_base.specs.declared.journal.Key.{Key};
ghost use Rattle.rd_base.specs.declared.status.Status.{Status};
ghost use Rattle.rd_chunk.specs.Carrier.{IsMessage};
ghost use Rattle.rd_drive.specs.Outcome.{fault};
ghost use Rattle.rd_drive.specs.Promise.{CutsOff, IsDevice};
ghost use Rattle.rd_drive.specs.Ranged.{AreEndsInRange, IsReplyInRange, IsSteppedInRange, SetsFew};
ghost use Rattle.rd_drive.specs.Replies.{replies_by};
ghost use Rattle.rd_drive.specs.Stepped.{ran_step};
ghost use Rattle.rd_drive.specs.declared.plan.Job.{Job};
ghost use Rattle.rd_irp.specs.declared.op.Op.{Op};
ghost use Rattle.rd_script.specs.declared.keyword.Mode.{Mode};
ghost use Rattle.rd_script.specs.declared.line.Line.{Line};
ghost use Rattle.rd_script.specs.declared.line.NumberedLine.{NumberedLine};
ghost use Rattle.rd_script.specs.declared.script.Script.{Script};
ghost use Rattle.rd_script.specs.Script.{script_of};
ghost use Rattle.rd_irp.specs.Completion.{completion_body};
ghost use Rattle.rd_irp.specs.Written.{IsBodyInRange};
ghost use Rattle.rd_irp.specs.declared.completion.Body.{Body};
ghost use Rattle.rd_irp.specs.declared.completion.Kind.{Kind};
ghost use Rattle.rd_irp.specs.declared.completion.Reply.{Reply};
ghost use Rattle.rd_irp.specs.declared.request.Request.{Request};
ghost use Rattle.rd_pending.specs.Outcomes.{Accepted};
ghost use Rattle.rd_pending.specs.declared.calls.Outcome.TheVariants.{Done};
ghost use Rattle.rd_ranges.specs.Ranges.{AreFreshDevices, AreFullReplies, FitsReply, IsFitDevice, IsFullReply, NamesShort, RunsAs, RunsFew, completion_with};
ghost use Rattle.rd_declared.specs.Devices.{Declared, device_cut, device_cuts, device_parked, device_step};
ghost use Rattle.rd_world.specs.Events.{is_close};
ghost use Rattle.rd_deeds.specs.Joining.{ClientCameTo, Joins};
ghost use Rattle.rd_world.specs.Recording.{request_of};
ghost use Rattle.rd_world.specs.Session.{replies_in};
ghost use Rattle.rd_declared.specs.Declaring.{declared_devices};
ghost use Rattle.rd_deeds.specs.Talk.{Deed, journal, request_in};
ghost use Rattle.rd_deeds.specs.Told.{CompletesWith};
ghost use Rattle.rd_declared.specs.declared.device.SessionDevice.{SessionDevice};

/// The status and the numbers of every reply of a session's device have room in their fields, in whichever state it is.
pub fn replies_have_room()
    ensures run { (s : SessionDevice) (key : Key) (file : ℕ) (operation : Op) (moment : ℕ) (starved : Bool) → SetsFew operation → IsSteppedInRange (ran_step device_step s key file operation moment starved) }
    ensures cut { (s : SessionDevice) → AreEndsInRange (device_cut s).ends }
{}

/// A device that lines declare is fit, where what they name has room; one that is fit does what every device promises, and stays so.
pub fn devices_stay_fit()
    ensures devices { IsDevice device_step device_cut device_parked IsFitDevice }
    ensures runs { (s : SessionDevice) (job : Job) (moment : ℕ) (starved : Bool) → IsFitDevice s → RunsAs s job moment (starved && not (is_close job.op)) }
    ensures declared { (lines : List Line) → AllByRecursion NamesShort lines → AreFreshDevices (declared_devices lines) }
    ensures cuts { (s : SessionDevice) → IsFitDevice s → CutsOff device_cuts device_parked s (device_cut s).state }
{}

/// So the devices of a script that was read are fit, and nothing waits in them.
pub fn scripts_declare_fresh_devices()
    ensures { (mode : Mode) (text : List ℕ) (script : Script) → script_of mode text ≡ Ok script → AreFreshDevices (declared_devices (map (λ (l : NumberedLine). l.line) script.lines)) }
{}

/// Each reply that a device's journal gives completes its key's request: it has the layout of that one, isn't too long, and its numbers have room. So it is
/// where the device was fit at first and nothing waited in it, and the requests that ran set few bytes.
pub fn journals_reply_fully()
    ensures { (requests : Key → Request) (s : SessionDevice) (items : List Item) → IsFitDevice s → device_parked s ≡ [] → AllByRecursion (RunsFew requests) items
        → AreFullReplies requests (replies_by device_step device_cut requests s items) }
{}

/// A completion is a message, and completes its request with its reply, and with no other; one that says why a request isn't done is such a reply too.
pub fn completions_complete()
    ensures message { (r : Request) (reply : Reply) → IsFullReply r.op reply → IsMessage (completion_with r reply) }
    ensures completes { (r : Request) (reply : Reply) → IsFullReply r.op reply → r.device < 2 ^ 32 → r.completion < 2 ^ 32 → CompletesWith r reply (completion_with r reply) }
    ensures alone { (r : Request) (reply : Reply) → IsFullReply r.op reply → r.device < 2 ^ 32 → r.completion < 2 ^ 32 → (other : Reply) → CompletesWith r other (completion_with r reply) → other ≡ reply }
    ensures faults { (operation : Op) (status : Status) → (status.0 == 0) ≡ false → status.0 < 2 ^ 32 → IsFullReply operation (fault status) }
{}

/// What is read of bytes has numbers with room in their fields: a request, and the body of a completion, with the file id that it gives.
pub fn what_is_read_has_room()
    ensures requests { (bytes : List ℕ) (r : Request) → AreBytes bytes → request_in bytes ≡ Some r → FitsReply r }
    ensures bodies { (kind : Kind) (status : Status) (bytes : List ℕ) (body : Body) (q : Position) → AreBytes bytes → met (completion_body kind status) (at_start bytes) ≡ Ok (body, q) → IsBodyInRange body }
{}

/// So each reply that a session's journals give completes its key's request; and what comes of a request has numbers with room, with the file id of an open
/// one among them, where both sides are joined.
pub fn session_replies_complete()
    ensures given { (devices : List (ℕ × Declared)) (deeds : List Deed) → AreFreshDevices devices → (device : ℕ) (items : List Item) → AllByRecursion (RunsFew (request_of deeds)) items
        → (key : Key) (reply : Reply) → Contains (replies_in devices deeds device items) (key, reply) → IsFullReply (request_of deeds key).op reply }
    ensures outcomes { (devices : List (ℕ × Declared)) (deeds : List Deed) → AreFreshDevices devices → (client : ℕ) → Joins client (replies_in devices deeds) deeds
        → ((device : ℕ) → AllByRecursion (RunsFew (request_of deeds)) (reverse (journal device deeds))) → (a : Accepted) (reply : Reply) → ClientCameTo client deeds a (Done reply) → IsReplyInRange reply }
{}
