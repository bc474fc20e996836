//! Laws about the definition of captures. A law is a function that does nothing: its contract says it.
ghost use Rattle.std.specs.Prelude.{◌≡◌, ◌<◌, ◌^◌, ℕ, List};
ghost use Rattle.br_model.specs.declared.capture.Order.{Order};
ghost use Rattle.br_model.specs.declared.capture.Packet.{Packet};
ghost use Rattle.br_model.specs.Wire.Captures.{packets};
ghost use Rattle.pcapng_read.specs.WorkedCaptures.{captures, worked, worked_said};
ghost use Rattle.pcapng_read.specs.WrittenCaptures.{AreWritable, written};

/// Captures that bend or break one rule each.
pub fn worked_captures()
    ensures { captures worked ≡ worked_said }
{}

/// The packets that are written are read back, in either byte order.
pub fn written_captures()
    ensures { (order : Order) (ports : ℕ) (ps : List Packet) → ports < 2 ^ 32 → AreWritable ports ps → packets (written order ports ps) ports ≡ Ok ps }
{}
