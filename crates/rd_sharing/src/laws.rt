//! What is known of folders by the count of their faults.

ghost use Rattle.std.specs.Prelude.{◌≡◌, List};
ghost use Rattle.rd_served_devices.specs.ServedDevices.{ServedDeviceState};
ghost use Rattle.rd_sharing.specs.Closing.{AreUntroubled, trouble_after};
ghost use Rattle.rd_sharing.specs.ServedOpening.{HadNoTrouble, ToldFolders};

/// Where no folder that was closed had a fault, none of these devices' had one, which were closed.
pub fn calm_folders_have_no_fault()
    ensures { (devices : List ServedDeviceState) → (before after : ToldFolders) → HadNoTrouble before after → after.trouble ≡ trouble_after before.trouble devices → AreUntroubled devices }
{}
