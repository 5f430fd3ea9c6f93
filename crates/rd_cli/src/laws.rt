//! What `decode` makes of the recordings of sessions, and definitions at work, whose cases the checker computes. These functions do nothing: their clauses are laws.

ghost use Rattle.std.specs.Prelude.{◌≡◌, ℕ, List, None, [], codes};
ghost use Rattle.rd_base.specs.History.{History};
ghost use Rattle.rd_cli.specs.Decoding.{HasRecording, IsEndOfDecode, PrintsJust};
ghost use Rattle.rd_cli.specs.Headline.{Played};
ghost use Rattle.rd_cli.specs.Outside.{Stream};
ghost use Rattle.rd_cli.specs.Summary.{summary_of};
ghost use Rattle.rd_cli.specs.Worked.{outcomes_worked};
ghost use Rattle.rd_decode.specs.Recording.{decoded};
ghost use Rattle.rd_readable.specs.PrintedPrinted.{lines_by};
ghost use Rattle.rd_script.specs.declared.outcome.Outcomes.{Outcomes};
ghost use Rattle.rd_script.specs.declared.script.Script.{Script};

/// Summaries of loads.
pub fn summaries_are_as_listed()
    ensures nothing { summary_of 1 [] ≡ codes "load 1 accepted 0 done 0 lost 0 bytes 0 sum 0\n" }
    ensures worked { summary_of 20 outcomes_worked ≡ codes "load 20 accepted 4 done 3 lost 1 bytes 3 sum 258\n" }
{}

/// Where a session came to its end, as at status 0 of `both` and of `load`, its recording is one. Where it was written to an empty one that can be told, and is below
/// 2^40 bytes, `decode` prints the lines of its messages of it, and no more, and ends with 0, unless a read or a write fails or memory runs out.
pub fn recordings_are_read<R, S, K>()
    ensures good { (script : Script) (before after : Stream R) (books : List (ℕ × History)) (told : Outcomes) (p : Played script before after books told) → (decoded p.recording).whole_fault ≡ None }
    ensures printed { (script : Script) (before after : Stream R) (books : List (ℕ × History)) (told : Outcomes) (p : Played script before after books told) (input input_after : Stream S) (output output_after : Stream K) (status : ℕ) →
        HasRecording before after input → IsEndOfDecode input input_after output output_after status → PrintsJust (lines_by p.whole.deeds) output output_after status }
{}
