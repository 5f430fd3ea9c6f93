//! What holds of the journals in every run, as contracts of functions that do nothing.

ghost use Rattle.std.specs.Map.{lookup};
ghost use Rattle.std.specs.Ordering.{nat_cmp};
ghost use Rattle.std.specs.BTreeMap.{is_at};
ghost use Rattle.std.specs.Prelude.{◌≡◌, ℕ, ◌+◌, ◌*◌, ◌≤◌, Bool, List, Some, ◌++◌, length, reverse, Contains};
ghost use Rattle.rd_base.specs.declared.journal.Item.{Item};
ghost use Rattle.rd_base.specs.declared.journal.Key.{Key};
ghost use Rattle.rd_base.specs.Lawful.{IsLawful};
ghost use Rattle.rd_drive.specs.Once.{HaveOneReplyEach};
ghost use Rattle.rd_drive.specs.Replies.{KeyedReply};
ghost use Rattle.rd_script.specs.declared.line.NumberedLine.{NumberedLine};
ghost use Rattle.rd_station.specs.declared.answers.Completion.{Completion};
ghost use Rattle.rd_station.specs.Station.{StationState};
ghost use Rattle.rd_runs.specs.Moves.{Reached};
ghost use Rattle.rd_runs.specs.Premises.{RunPremises};
ghost use Rattle.rd_declared.specs.Devices.{Declared};
ghost use Rattle.rd_deeds.specs.Joining.{Stands};
ghost use Rattle.rd_declared.specs.Declaring.{bare_lines, declared_devices};
ghost use Rattle.rd_world.specs.Session.{replies_in};
ghost use Rattle.rd_world.specs.Stations.{IsReachedBy};
ghost use Rattle.rd_deeds.specs.Talk.{Deed, EachAfter, Has, journal};
ghost use Rattle.rd_world.specs.World.{WorldState, station_at};
ghost use Rattle.rd_declared.specs.declared.device.SessionDevice.{SessionDevice};
ghost use Rattle.rd_journals.specs.Jobs.{AnswersRead, AreFine, FitsCompletion, IsCompletionOf, IsTiedTo};
ghost use Rattle.rd_journals.specs.Orderly.{Orderly};
ghost use Rattle.rd_journals.specs.Reads.{ComesRead, cuts, reads_count};
ghost use Rattle.rd_journals.specs.Stations.{AreFit};
ghost use Rattle.rd_journals.specs.Told.{InOrder};

/// Whatever lines that declare fit devices come to: the journal of each device, as the deeds tell it, is lawful, and is that of its station, which came to be
/// by its calls; and each key comes after the read of its request, which names the device.
pub fn runs_keep_journals()
    ensures lawful { (lines : List NumberedLine) (starves : Key → Bool) (w : WorldState) → AreFit (declared_devices (bare_lines lines)) → Reached lines starves w → (device : ℕ) → IsLawful (reverse (journal device w.deeds)) }
    ensures tied { (lines : List NumberedLine) (starves : Key → Bool) (w : WorldState) → AreFit (declared_devices (bare_lines lines)) → Reached lines starves w → (device : ℕ) (s : StationState SessionDevice) → station_at w device ≡ Some s → reverse (journal device w.deeds) ≡ s.journal }
    ensures reached { (lines : List NumberedLine) (starves : Key → Bool) (w : WorldState) → AreFit (declared_devices (bare_lines lines)) → Reached lines starves w → (device : ℕ) (s : StationState SessionDevice) → station_at w device ≡ Some s → IsReachedBy s }
    ensures comes_read { (lines : List NumberedLine) (starves : Key → Bool) (w : WorldState) → AreFit (declared_devices (bare_lines lines)) → Reached lines starves w → EachAfter ComesRead w.deeds }
    ensures orderly { (lines : List NumberedLine) (starves : Key → Bool) (w : WorldState) → AreFit (declared_devices (bare_lines lines)) → Reached lines starves w → Orderly w }
{}

/// What a beginning of a journal gives stays, whatever is stored after it; and a lawful journal gives no key two replies.
pub fn replies_stay()
    ensures grows { (devices : List (ℕ × Declared)) (deeds : List Deed) (device : ℕ) (earlier more : List Item) (reply : KeyedReply) → Contains (replies_in devices deeds device earlier) reply → Contains (replies_in devices deeds device (earlier ++ more)) reply }
    ensures once { (devices : List (ℕ × Declared)) (deeds : List Deed) (device : ℕ) (items : List Item) → AreFit devices → IsLawful items → HaveOneReplyEach (replies_in devices deeds device items) }
{}

/// A device's journal has at most three entries for each request that was read, and its cuts.
pub fn journals_are_short()
    ensures { (lines : List NumberedLine) (starves : Key → Bool) (w : WorldState) → AreFit (declared_devices (bare_lines lines)) → Reached lines starves w → (device : ℕ) → length (journal device w.deeds) ≤ 3 * reads_count w.deeds + cuts (journal device w.deeds) }
{}

/// Each key comes after the read of its request and before its completion; a completion is written after its key was sent, where the key came at all; and
/// nothing else that a client writes is a completion.
pub fn completions_stand()
    ensures { (lines : List NumberedLine) (starves : Key → Bool) (w : WorldState) → AreFit (declared_devices (bare_lines lines)) → Reached lines starves w → EachAfter Stands w.deeds }
{}

/// Each station is that of a declared device and is tied to its journal: its device is in the state in which the journal leaves it, by the requests that were
/// read, and what is ready are the replies that the journal gives to their keys, or CANCELLED.
pub fn stations_are_tied()
    ensures { (lines : List NumberedLine) (starves : Key → Bool) (w : WorldState) → AreFit (declared_devices (bare_lines lines)) → Reached lines starves w → (device : ℕ) (s : StationState SessionDevice) → station_at w device ≡ Some s
        → (x : Declared) × (lookup (is_at (nat_cmp device)) (declared_devices (bare_lines lines)) ≡ Some x) × IsTiedTo w.deeds x s }
{}

/// The numbers of each request that was read have room in its completion; and what is ready at a station completes, in bytes, the request of its key with its
/// reply, and that request names the station's device.
pub fn completions_are_of_requests()
    ensures room { (lines : List NumberedLine) (starves : Key → Bool) (w : WorldState) → RunPremises lines → Reached lines starves w → AreFine FitsCompletion w.deeds }
    ensures completes { (lines : List NumberedLine) (starves : Key → Bool) (w : WorldState) → AreFit (declared_devices (bare_lines lines)) → RunPremises lines → Reached lines starves w → (device : ℕ) (s : StationState SessionDevice) → station_at w device ≡ Some s
        → (x : Completion) → Has x s.ready → IsCompletionOf w.deeds device x }
{}

/// Each completion that a client wrote completes the request of its key, which it had read: it has that one's device, completion id and layout. Its reply is the
/// one that the device's journal gives to the key by what it says before the key was sent; or CANCELLED, where the journal says so; or, where the key never came,
/// that there is no such device or no room.
pub fn completions_answer()
    ensures { (lines : List NumberedLine) (starves : Key → Bool) (w : WorldState) → AreFit (declared_devices (bare_lines lines)) → RunPremises lines → Reached lines starves w → EachAfter (AnswersRead (declared_devices (bare_lines lines))) w.deeds }
{}

/// Of each device on each channel the completions of the keys that came are those that its journal sent, in its order.
pub fn completions_are_in_order()
    ensures { (lines : List NumberedLine) (starves : Key → Bool) (w : WorldState) → AreFit (declared_devices (bare_lines lines)) → RunPremises lines → Reached lines starves w → InOrder w.deeds }
{}

/// What lines declare is fit where it is within its bounds, as every script's is.
pub fn scripts_are_fit()
    ensures { (lines : List NumberedLine) → RunPremises lines → AreFit (declared_devices (bare_lines lines)) }
{}
