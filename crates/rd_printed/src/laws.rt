//! What is printed of what both sides wrote, as contracts of functions that do nothing.

ghost use Rattle.std.specs.Prelude.{◌≡◌, ℕ, List, None, Some, length};
ghost use Rattle.rd_base.specs.declared.journal.Key.{Key};
ghost use Rattle.rd_base.specs.declared.packet.Packet.TheVariants as packet;
ghost use Rattle.rd_decode.specs.declared.side.Side.TheVariants.{Client, Host};
ghost use Rattle.rd_decode.specs.Lines.{line};
ghost use Rattle.rd_decode.specs.Recording.{decoded};
ghost use Rattle.rd_irp.specs.declared.completion.Reply.{Reply};
ghost use Rattle.rd_irp.specs.declared.request.Request.{Request};
ghost use Rattle.rd_printed.specs.Printed.{ArePrintable, answer_shown, asks_shown, comes_of, lines_by, text_of};
ghost use Rattle.rd_printed.specs.Worked.{example_lines};
ghost use Rattle.rd_deeds.specs.Example.{example_deeds};
ghost use Rattle.rd_world.specs.Recording.{recording_of_deeds, request_of};
ghost use Rattle.rd_deeds.specs.Talk.{Deed, completes, host_writes, request_in};
ghost use Rattle.rd_deeds.specs.Told.{CompletesWith};

/// The recording of deeds has no fault, whether more follows or not, and its lines are those of the messages that were written, in their order.
pub fn deeds_are_printed()
    ensures lines { (deeds : List Deed) → ArePrintable deeds → (decoded (recording_of_deeds deeds)).text ≡ lines_by deeds }
    ensures good { (deeds : List Deed) → ArePrintable deeds → (decoded (recording_of_deeds deeds)).fault ≡ None }
    ensures whole { (deeds : List Deed) → ArePrintable deeds → (decoded (recording_of_deeds deeds)).whole_fault ≡ None }
{}

/// A worked session, which the checker computes.
pub fn lines_are_as_listed()
    ensures lines { lines_by example_deeds ≡ example_lines }
    ensures printed { (decoded (recording_of_deeds example_deeds)).text ≡ example_lines }
    ensures good { (decoded (recording_of_deeds example_deeds)).whole_fault ≡ None }
{}

/// What lines say. That of a request shows the device, the file, the completion id and the major function of what it asks for; that of a completion the device and the
/// completion id of the request that it answers, and the status of the reply, and its tail is what stands after the reply's body.
pub fn lines_say_values()
    ensures requests { (before : List Deed) (channel : ℕ) (message : List ℕ) (r : Request) → request_in message ≡ Some r →
        (tail : ℕ) × (text_of (comes_of before (host_writes channel message)) ≡ line Host packet.IoRequest (length message) (asks_shown r) tail) }
    ensures completions { (before : List Deed) (key : Key) (message : List ℕ) (reply : Reply) (is : CompletesWith (request_of before key) reply message) →
        text_of (comes_of before (completes key message)) ≡ line Client packet.IoCompletion (length message) (answer_shown (request_of before key) reply) is.tail }
{}
