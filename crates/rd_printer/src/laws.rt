//! The law of a notice, and notices worked by hand. Each is a function that does nothing: its contract is the law.

ghost use Rattle.std.specs.Prelude.{◌≡◌, ℕ, List, [], ◌∷◌, Ok, Err, codes, IsFalse, IsOkAnd, IsTrue};
ghost use Rattle.rd_base.specs.declared.journal.Item.{Item};
ghost use Rattle.rd_base.specs.declared.journal.Key.{Key};
ghost use Rattle.rd_base.specs.Lawful.{IsLawful};
ghost use Rattle.rd_base.specs.declared.bad.Why.TheVariants as why;
ghost use Rattle.rd_base.specs.Layout.{met};
ghost use Rattle.rd_base.specs.Position.{at_start};
ghost use Rattle.rd_base.specs.Reading.{IsOneOf};
ghost use Rattle.rd_printer.specs.Notice.{notice, notice_bytes, SpellsNotice, FirstFaultOfNotice, HasWholePort};
ghost use Rattle.rd_irp.specs.declared.op.Op.TheVariants as Op;
ghost use Rattle.rd_irp.specs.declared.completion.Body.TheVariants as Body;
ghost use Rattle.rd_irp.specs.declared.op.Op.{Op};
ghost use Rattle.rd_irp.specs.declared.request.Request.{Request};
ghost use Rattle.rd_drive.specs.declared.step.Step.{Step};
ghost use Rattle.rd_drive.specs.declared.step.End.{End};
ghost use Rattle.rd_drive.specs.Device.{is_starved};
ghost use Rattle.rd_drive.specs.Once.{HaveOneReplyEach};
ghost use Rattle.rd_drive.specs.Planned.{Planned};
ghost use Rattle.rd_drive.specs.Promise.{Applies, CutsOff, IsDevice};
ghost use Rattle.rd_drive.specs.Ranged.{AreEndsInRange, IsSteppedInRange, SetsFew};
ghost use Rattle.rd_drive.specs.Replies.{replies_by};
ghost use Rattle.rd_base.specs.Statuses.{invalid_device_request, invalid_handle};
ghost use Rattle.rd_printer.specs.declared.notice.Notice.TheVariants as Notice;
ghost use Rattle.rd_printer.specs.Cache.{heard_all, HearsNotice};
ghost use Rattle.rd_printer.specs.Printer.{new_printer, printer_cut, printer_step, PrinterState};
ghost use Rattle.rd_printer.specs.Printing.{addition_of, done_step, key, opening_at, opening_op, printer_after, refusal_step, writing};
ghost use Rattle.rd_printer.specs.Running.{printer_cuts, printer_parked, printer_runs, IsAnyPrinter};
ghost use Rattle.rd_printer.specs.Worked as worked;

/// Bytes begin with one notice, with one tail, or have one first fault, never both.
pub fn notice_is_decided(bytes: &[u8])
    ensures { IsOneOf SpellsNotice FirstFaultOfNotice bytes.now }
{}

/// What a printer does with requests, and what a client keeps of notices.
pub fn printers_are_as_listed()
    ensures opens { (printer_step new_printer (key 0) 0 opening_op 0).answer ≡ done_step (Body.Created 1 0) }
    ensures appends { (printer_after (opening_at 0 ∷ writing 1 (codes "a") ∷ writing 1 (codes "b") ∷ (1, Op.Close) ∷ [])).finished ≡ codes "ab" ∷ [] }
    ensures counts { (printer_step (printer_after (opening_at 0 ∷ [])) (key 1) 1 (Op.Write 7 (codes "abc")) 0).answer
        ≡ done_step (Body.Count 3) }
    ensures closed { (printer_step new_printer (key 0) 1 Op.Close 0).answer ≡ refusal_step invalid_handle }
    ensures reads { (printer_step (printer_after (opening_at 0 ∷ [])) (key 1) 1 (Op.Read 0 1) 0).answer
        ≡ refusal_step invalid_device_request }
    ensures cut { (printer_cut (printer_after (opening_at 0 ∷ []))).state ≡ record new_printer { next = 2 } }
    ensures renames { heard_all [] (addition_of (codes "a") (codes "x") ∷ addition_of (codes "b") (codes "y") ∷ Notice.Rename (codes "a") (codes "b") ∷ []) ≡ (codes "b", codes "x") ∷ [] }
    ensures updates { heard_all [] (Notice.Update (codes "a") (codes "x") ∷ addition_of (codes "b") (codes "y") ∷ Notice.Update (codes "b") (codes "z") ∷ []) ≡ (codes "b", codes "z") ∷ [] }
    ensures deletes { heard_all [] (addition_of (codes "a") (codes "x") ∷ Notice.Delete (codes "a") ∷ []) ≡ [] }
    ensures hears { HearsNotice {E = ℕ} [] (addition_of (codes "a") (codes "x")) (Ok tt) ((codes "a", codes "x") ∷ []) }
    ensures hears_nothing { HearsNotice {E = ℕ} [] (addition_of (codes "a") (codes "x")) (Err 0) [] }
{}

/// A printer is a device: what it runs, and a cut, have what every device promises.
pub fn printers_are_devices()
    ensures applies { (old : PrinterState) (planned : Planned) (moment : ℕ) (answer : Step) (ends : List End) (new : PrinterState) → printer_runs old planned moment answer ends new
        → (IsTrue planned.starved → IsTrue (is_starved answer)) → (planned.job.op ≡ Op.Close → IsFalse (is_starved answer)) → Applies printer_runs printer_parked old planned moment answer ends new }
    ensures cuts { (old : PrinterState) (new : PrinterState) → printer_cuts old new → CutsOff printer_cuts printer_parked old new }
    ensures steps { IsDevice printer_step printer_cut printer_parked IsAnyPrinter }
{}

/// The numbers of every reply of a printer are in the ranges of their fields, so that each can be written.
pub fn printer_replies_are_in_range()
    ensures step { (s : PrinterState) (key : Key) (file : ℕ) (operation : Op) (moment : ℕ) → SetsFew operation → IsSteppedInRange (printer_step s key file operation moment) }
    ensures cut { (s : PrinterState) → AreEndsInRange (printer_cut s).ends }
{}

/// By a lawful journal of a printer no request has two replies.
pub fn printer_requests_have_one_reply()
    ensures { (opening : PrinterState) (requests : Key → Request) (journal : List Item) → IsLawful journal → HaveOneReplyEach (replies_by printer_step printer_cut requests opening journal) }
{}

/// The definitions at notices that were worked by hand.
pub fn worked_notices()
    ensures unknown_event { FirstFaultOfNotice worked.unknown_event (record { at = 4; why = why.Value }) }
    ensures other_packet { FirstFaultOfNotice worked.other_packet (record { at = 2; why = why.Packet }) }
    ensures cut_name { FirstFaultOfNotice worked.cut_name (record { at = 12; why = why.Short }) }
    ensures addition { IsOkAnd (met notice (at_start worked.addition_message)) (λ m. (m.0 ≡ worked.addition) × (m.1.left ≡ [])) }
    ensures addition_bytes { notice_bytes worked.addition ≡ worked.addition_message }
    ensures renaming { IsOkAnd (met notice (at_start worked.renaming_message)) (λ m. (m.0 ≡ worked.renaming) × (m.1.left ≡ [])) }
    ensures renaming_bytes { notice_bytes worked.renaming ≡ worked.renaming_message }
    ensures whole_port { HasWholePort worked.addition }
{}
