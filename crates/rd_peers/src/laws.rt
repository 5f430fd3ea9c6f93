//! What joins two processes, as a contract of a function that does nothing.

ghost use Rattle.std.specs.Prelude.{◌≡◌, ℕ, ◌<◌, Bool, List, length, slice_get, Contains, Option, Some};
ghost use Rattle.rd_base.specs.History.{History};
ghost use Rattle.rd_carry.specs.declared.ended.Ended.{Ended};
ghost use Rattle.rd_front.specs.Calls.{FrontEntry};
ghost use Rattle.rd_host_channel.specs.Calls.{HostEntry};
ghost use Rattle.rd_host_lines.specs.Outcomes.{asks_under};
ghost use Rattle.rd_host_session.specs.Channels.{LinkedTold};
ghost use Rattle.rd_host_session.specs.Hosted.{Hosts};
ghost use Rattle.rd_host_turns.specs.Turns.{TableEntry};
ghost use Rattle.rd_hosted.specs.Kept.{KeepsTable, calls_of_front, calls_of_table};
ghost use Rattle.rd_issuer.specs.declared.issuer.Issuer.{Issuer};
ghost use Rattle.rd_peers.specs.Lines.{LinesAreOwn};
ghost use Rattle.rd_peers.specs.Peers.{IsOwnOutcome, clients_part, hosts_part, made_devices};
ghost use Rattle.rd_pending.specs.declared.calls.Taken.{Taken};
ghost use Rattle.rd_script.specs.declared.line.NumberedLine.{NumberedLine};
ghost use Rattle.rd_script.specs.declared.outcome.Outcome.{Outcome};
ghost use Rattle.rd_served_sessions.specs.Sessions.{AreServable, IsToldSession};
ghost use Rattle.rd_table.specs.Histories.{handed_in};
ghost use Rattle.rd_workers.specs.Channels.{LinkerTold};
ghost use Rattle.rd_deeds.specs.HostDeeds.{MayDo, side_of};
ghost use Rattle.rd_deeds.specs.Joining.{AreJoined, IsCarried, Joins};
ghost use Rattle.rd_declared.specs.Declaring.{bare_lines, declared_devices};
ghost use Rattle.rd_world.specs.Recording.{client_id};
ghost use Rattle.rd_world.specs.Session.{replies_in};
ghost use Rattle.rd_deeds.specs.Talk.{AtEachPoint, Deed, EachAfter, journal};
ghost use Rattle.rd_deeds.specs.Told.{worn_entries};
ghost use Rattle.rd_world.specs.World.{new_application};

/// A client whose devices its script makes up and whose session came to what is promised of it, and a host that keeps its table, are joined where messages are carried between them and no journal is worn: so all that the joining law says holds of
/// them.
pub fn clients_are_joined()
    ensures { (calm : Bool) (lines : List NumberedLine) (channels : ℕ) (by : Ended) (entries : List FrontEntry) (books : List (ℕ × History)) (old new : LinkerTold) → AreServable lines
        → (session : IsToldSession calm (made_devices lines) lines channels by entries books old new) (client : ℕ) (deeds : List Deed) → clients_part deeds ≡ session.deeds
        → AtEachPoint IsCarried deeds → EachAfter (λ before deed. MayDo (side_of client before) deed) deeds → ((device : ℕ) → length (journal device deeds) < worn_entries)
        → let replies = replies_in (declared_devices (bare_lines lines)) deeds in AreJoined client replies deeds × Joins client replies deeds }
{}

/// Such a client and a host over sockets, each by what its own session came to, are joined where messages are carried between them and no journal is worn; so each outcome that the host's table handed out is that of
/// the request with its number, and where it is a reply, the one that the journal of the request's device gives to it.
pub fn peers_are_joined<W>()
    ensures { (calm : Bool) (lines : List NumberedLine) (channels : ℕ) (by : Ended) (entries : List FrontEntry) (books : List (ℕ × History)) (old new : LinkerTold) → AreServable lines
        → (session : IsToldSession calm (made_devices lines) lines channels by entries books old new) (seen : List TableEntry) (calls : List (HostEntry W)) (keeps : KeepsTable seen calls) (deeds : List Deed)
        → clients_part deeds ≡ session.deeds → hosts_part deeds ≡ keeps.deeds → AtEachPoint IsCarried deeds → ((device : ℕ) → length (journal device deeds) < worn_entries)
        → let replies = replies_in (declared_devices (bare_lines lines)) deeds in
        AreJoined client_id replies deeds × Joins client_id replies deeds × ((number : ℕ) (taken : Taken) → Contains (handed_in seen) (number, taken) → IsOwnOutcome client_id replies deeds number taken) }
{}

/// So each line of each application of a host that played a script has its outcome: it was refused, or has the next request of the application that the host accepted, of the device and the file that it names and with its operation; and its
/// outcome is what came of that request: the reply that the journal of the request's device gives to it, or that it was lost. The application has no other request. `lines_have_their_outcomes` of `rd_host_lines` says that
/// these outcomes are what is told.
pub fn lines_have_their_own()
    ensures { (calm : Bool) (lines : List NumberedLine) (channels : ℕ) (by : Ended) (entries : List FrontEntry) (books : List (ℕ × History)) (old new : LinkerTold) → AreServable lines
        → (session : IsToldSession calm (made_devices lines) lines channels by entries books old new) (played : List NumberedLine) (other : Option Ended) (told : List ((ℕ × ℕ) × Outcome)) (before after : LinkedTold)
        → (hosts : Hosts played other told before after) (keeps : KeepsTable (calls_of_table played other told before after hosts) (calls_of_front played other told before after hosts)) (deeds : List Deed)
        → clients_part deeds ≡ session.deeds → hosts_part deeds ≡ keeps.deeds → AtEachPoint IsCarried deeds → ((device : ℕ) → length (journal device deeds) < worn_entries)
        → (place : ℕ) (i : Issuer) → slice_get hosts.issuers place ≡ Some i
        → LinesAreOwn client_id (replies_in (declared_devices (bare_lines lines)) deeds) deeds (calls_of_table played other told before after hosts) i.number 0 new_application (asks_under i.number played) (i.application).outcomes }
{}
