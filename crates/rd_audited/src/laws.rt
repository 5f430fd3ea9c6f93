//! What a yes says of journals and recording, as contracts of functions that do nothing.

ghost use Rattle.std.specs.Prelude.{◌≡◌, ℕ, List};
ghost use Rattle.std.specs.List.{AllByRecursion};
ghost use Rattle.std.specs.Map.{keys_of};
ghost use Rattle.rd_base.specs.declared.journal.Item.{Item};
ghost use Rattle.rd_declared.specs.Devices.{Declared};
ghost use Rattle.rd_audit_file.specs.Journals.{journal_ids, journal_lines};
ghost use Rattle.rd_recorded.specs.Channels.{HeardChannel};
ghost use Rattle.rd_audit.specs.declared.verdict.Verdict.TheVariants.{Yes};
ghost use Rattle.rd_audit.specs.Judged.{judged};
ghost use Rattle.rd_audited.specs.Meaning.{AreOwnJournals, HasNoStray, IsComplete};

/// Where the verdict on devices, journals and a recording is yes, the journals are the devices' own.
pub fn yes_journals_are_own()
    ensures { (devices : List (ℕ × Declared)) (journals : List (ℕ × List Item)) (channels : List HeardChannel)
        → journal_ids journals ≡ keys_of devices → judged devices (journal_lines journals) channels ≡ Yes → AreOwnJournals channels devices journals }
{}

/// Where it is yes, no completion is of no request, and none is lacking on a channel that didn't end.
pub fn yes_is_complete()
    ensures { (devices : List (ℕ × Declared)) (journals : List (ℕ × List Item)) (channels : List HeardChannel)
        → judged devices (journal_lines journals) channels ≡ Yes → AllByRecursion HasNoStray channels × AllByRecursion IsComplete channels }
{}
