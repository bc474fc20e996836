//! Laws about what frames say to snooping. A law is a function that does nothing: its contract says it.
ghost use Rattle.std.specs.Prelude.{◌≡◌, ℕ, List};
ghost use Rattle.br_model.specs.declared.frame.Head.{Head};
ghost use Rattle.br_model.specs.Wire.Messages.{message, RecordsStand};
ghost use Rattle.br_model.specs.Worked.Readings.{readings};
ghost use Rattle.br_model.specs.Worked.Frames.{worked_1, worked_1_read, worked_2, worked_2_read, worked_3, worked_3_read, worked_4, worked_4_read};

/// Frames that break or bend one rule each.
pub fn worked_frames()
    ensures worked_1 { readings worked_1 ≡ worked_1_read }
    ensures worked_2 { readings worked_2 ≡ worked_2_read }
    ensures worked_3 { readings worked_3 ≡ worked_3_read }
    ensures worked_4 { readings worked_4 ≡ worked_4_read }
{}

/// Where a frame's message is records, they are in the frame, whole.
pub fn records_stand()
    ensures { (bytes : List ℕ) (head : Head) → RecordsStand bytes (message bytes head) }
{}
