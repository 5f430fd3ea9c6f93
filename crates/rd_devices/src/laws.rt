//! Laws of the messages: bytes are one of them with one tail, or have one first fault, never both. Each is a function
//! that does nothing: its contract is the law.

ghost use Rattle.std.specs.Prelude.{◌≡◌, [], ◌∷◌, IsOkAnd};
ghost use Rattle.rd_base.specs.declared.bad.Why.TheVariants as why;
ghost use Rattle.rd_base.specs.Layout.{met};
ghost use Rattle.rd_base.specs.Position.{at_start};
ghost use Rattle.rd_base.specs.Reading.{IsOneOf};
ghost use Rattle.rd_devices.specs.DeviceList.{list_bytes, SpellsList, FirstFaultOfList};
ghost use Rattle.rd_devices.specs.Removal.{removal_bytes, SpellsRemoval, FirstFaultOfRemoval};
ghost use Rattle.rd_devices.specs.DeviceReply.{reply_bytes, SpellsReply, FirstFaultOfReply};
ghost use Rattle.rd_devices.specs.PrinterInfo.{printer_bytes, printer_info, SpellsPrinter, FirstFaultOfPrinter};
ghost use Rattle.rd_devices.specs.Worked as worked;

/// Bytes begin with one list of devices or have a first fault.
pub fn list_is_decided(bytes: &[u8])
    ensures { IsOneOf SpellsList FirstFaultOfList bytes.now }
{}

/// Bytes begin with one removal or have a first fault.
pub fn removal_is_decided(bytes: &[u8])
    ensures { IsOneOf SpellsRemoval FirstFaultOfRemoval bytes.now }
{}

/// Bytes begin with one reply to a device or have a first fault.
pub fn reply_is_decided(bytes: &[u8])
    ensures { IsOneOf SpellsReply FirstFaultOfReply bytes.now }
{}

/// Bytes begin with one printer's data or have a first fault.
pub fn printer_is_decided(bytes: &[u8])
    ensures { IsOneOf SpellsPrinter FirstFaultOfPrinter bytes.now }
{}

/// The definitions at messages that were worked by hand.
pub fn worked_messages()
    ensures list { list_bytes (worked.drive ∷ []) ≡ worked.drive_list }
    ensures long_list { FirstFaultOfList worked.long_list (record { at = 4; why = why.Count }) }
    ensures cut_list { FirstFaultOfList worked.cut_list (record { at = 28; why = why.Short }) }
    ensures removal { removal_bytes (1 ∷ []) ≡ worked.drive_removal }
    ensures reply { reply_bytes worked.taken ≡ worked.taken_reply }
    ensures printer { IsOkAnd (met printer_info (at_start worked.office_data)) (λ m. (m.0 ≡ worked.office) × (m.1.left ≡ [])) }
    ensures printer_bytes { printer_bytes worked.office ≡ worked.office_data }
    ensures cut_printer { FirstFaultOfPrinter worked.cut_printer (record { at = 20; why = why.Short }) }
{}
