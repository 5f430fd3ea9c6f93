//! The law of the six messages, and messages and openings worked by hand. Each is a function that does nothing: its contract
//! is the law.

ghost use Rattle.std.specs.Prelude.{◌≡◌, [], ◌∷◌, true, None, Some, Ok};
ghost use Rattle.rd_base.specs.declared.bad.Why.TheVariants as why;
ghost use Rattle.rd_base.specs.Layout.{met};
ghost use Rattle.rd_base.specs.Position.{at_start};
ghost use Rattle.rd_base.specs.Reading.{IsOneOf};
ghost use Rattle.rd_hello.specs.declared.capability.Cap.TheVariants as cap;
ghost use Rattle.rd_hello.specs.declared.hello.Hello.TheVariants as message;
ghost use Rattle.rd_hello.specs.declared.client.ClientState.TheVariants as client_state;
ghost use Rattle.rd_hello.specs.declared.host.HostState.TheVariants as host_state;
ghost use Rattle.rd_hello.specs.Hello.{hello, hello_bytes, SpellsHello, FirstFaultOfHello};
ghost use Rattle.rd_hello.specs.Own.{host_announce, host_sets, client_sets, client_name, client_confirm};
ghost use Rattle.rd_hello.specs.Rows.{writes_nothing, writes_one, writes_both, out_of_order};
ghost use Rattle.rd_hello.specs.ClientTable.{client_step};
ghost use Rattle.rd_hello.specs.HostTable.{host_step};
ghost use Rattle.rd_hello.specs.Worked as worked;

use crate::hello::Version;

/// Bytes begin with one of the six messages, with one tail, or have one first fault, never both.
pub fn hello_is_decided(bytes: &[u8])
    ensures { IsOneOf SpellsHello FirstFaultOfHello bytes.now }
{}

/// What the two sides write, as worked by hand.
pub fn worked_messages()
    ensures announced { hello_bytes (host_announce 1) ≡ worked.announced }
    ensures named { hello_bytes client_name ≡ worked.named }
    ensures host_capabilities { hello_bytes host_sets ≡ worked.host_capabilities }
    ensures client_capabilities { hello_bytes client_sets ≡ worked.client_capabilities }
{}

/// First faults, as worked by hand.
pub fn worked_faults()
    ensures other_major { FirstFaultOfHello worked.other_major (record { at = 4; why = why.Value }) }
    ensures long_name { FirstFaultOfHello worked.long_name (record { at = 12; why = why.Count }) }
    ensures many_sets { FirstFaultOfHello worked.many_sets (record { at = 4; why = why.Count }) }
    ensures low_length { FirstFaultOfHello worked.low_length (record { at = 10; why = why.Length }) }
    ensures low_general { FirstFaultOfHello worked.low_general (record { at = 10; why = why.Length }) }
    ensures low_second { FirstFaultOfHello worked.low_second (record { at = 10; why = why.Length }) }
    ensures cut_version { FirstFaultOfHello worked.cut_version (record { at = 12; why = why.Short }) }
    ensures cut_body { FirstFaultOfHello worked.cut_body (record { at = 16; why = why.Short }) }
    ensures other_protocol { FirstFaultOfHello worked.other_protocol (record { at = 24; why = why.Value }) }
    ensures request { FirstFaultOfHello worked.request (record { at = 2; why = why.Packet }) }
{}

/// Sets that are longer than this program needs, or of another type, as worked by hand: what is read of each, and what is left.
pub fn worked_sets()
    ensures first_version { met hello (at_start worked.first_version)
        ≡ Ok (message.ServerCaps (cap.General worked.first_general ∷ []), record { at = 52; left = [] }) }
    ensures long_printer { met hello (at_start worked.long_printer)
        ≡ Ok (message.ServerCaps (cap.Printer 1 ∷ []), record { at = 18; left = 0x63 ∷ [] }) }
    ensures port { met hello (at_start worked.port)
        ≡ Ok (message.ServerCaps (cap.Other 3 1 (0x61 ∷ []) ∷ []), record { at = 17; left = [] }) }
{}

/// A channel opens: each message that one side writes here is read by the other in its state, until both are ready.
pub fn sides_open(client: u32)
    ensures announce { client_step client_state.Start (host_announce client)
        ≡ writes_both (message.Confirm (record { minor = 12; client = client })) client_name client_state.Named }
    ensures confirm { host_step host_state.Start (message.Confirm (record { minor = 12; client = client }))
        ≡ writes_nothing (host_state.Confirmed (record { minor = 12; client = client })) }
    ensures name { host_step (host_state.Confirmed (record { minor = 12; client = client })) client_name
        ≡ writes_both host_sets (message.Confirm (record { minor = 12; client = client })) host_state.Offered }
    ensures host_sets { client_step client_state.Named host_sets ≡ writes_nothing (client_state.Offered true) }
    ensures host_confirm { client_step (client_state.Offered true) (message.Confirm (record { minor = 12; client = client }))
        ≡ writes_one client_sets client_state.Waiting }
    ensures client_sets { host_step host_state.Offered client_sets ≡ writes_one message.LoggedOn host_state.Ready }
    ensures logged_on { client_step client_state.Waiting message.LoggedOn ≡ writes_nothing client_state.Ready }
{}

/// The other order: the client reads the host's confirm before its sets, and stands in the same state after both. What it has
/// read once it doesn't read again.
pub fn confirm_comes_first(host: Version)
    ensures confirm { client_step client_state.Named (message.Confirm host) ≡ writes_nothing client_state.Confirmed }
    ensures sets { client_step client_state.Confirmed host_sets ≡ writes_one client_sets client_state.Waiting }
    ensures again { client_step client_state.Confirmed (message.Confirm host) ≡ out_of_order }
    ensures announce { client_step client_state.Named (message.Announce host) ≡ out_of_order }
{}
