ghost use Rattle.std.specs.Prelude.{◌≡◌, ℕ, List};
ghost use Rattle.log_format.specs.declared.frames.Reading.{Reading};
ghost use Rattle.log_format.specs.Readings.{IsReading};

/// The law that the three readings are apart: bytes have one, and so a reading that is told is the only one that holds.
pub fn readings_are_apart()
    ensures { (r s : Reading) (bytes : List ℕ) → IsReading r bytes → IsReading s bytes → r ≡ s }
{}
