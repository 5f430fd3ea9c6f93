//! What is printed of a whole session, as contracts of functions that do nothing.

ghost use Rattle.std.specs.Prelude.{◌≡◌, ℕ, List, None};
ghost use Rattle.rd_base.specs.History.{History};
ghost use Rattle.rd_decode.specs.Recording.{decoded};
ghost use Rattle.rd_printed.specs.Printed.{ArePrintable, lines_by};
ghost use Rattle.rd_script.specs.declared.outcome.Outcomes.{Outcomes};
ghost use Rattle.rd_script.specs.declared.script.Script.{Script};
ghost use Rattle.rd_world.specs.Session.{IsWholeSession};

/// Each message that is written in a whole session has a line, each completion that of the request that it answers, which is the next one of its pair.
pub fn whole_sessions_are_readable()
    ensures { (script : Script) (recording : List ℕ) (books : List (ℕ × History)) (told : Outcomes) (output : List ℕ) (s : IsWholeSession script recording books told output) → ArePrintable s.deeds }
{}

/// So its recording has no fault, and what is printed of it are the lines of the messages that were written, in their order.
pub fn whole_sessions_are_printed()
    ensures lines { (script : Script) (recording : List ℕ) (books : List (ℕ × History)) (told : Outcomes) (output : List ℕ) (s : IsWholeSession script recording books told output) → (decoded recording).text ≡ lines_by s.deeds }
    ensures good { (script : Script) (recording : List ℕ) (books : List (ℕ × History)) (told : Outcomes) (output : List ℕ) → IsWholeSession script recording books told output → (decoded recording).whole_fault ≡ None }
{}
