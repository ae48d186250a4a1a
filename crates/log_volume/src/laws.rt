// Consequences of the definitions alone.
ghost use Rattle.std.specs.Prelude.{◌≡◌, List, ℕ, take};
ghost use Rattle.volume_codec.specs.Super.{SuperValue, IsSuper};
ghost use Rattle.log_volume.specs.Super.{LogSuperValue, FitsLog, IsLogSuper, log_magic, log_super_text};

use volume_codec::one_reading;

/// A super block reads back as it was written: the text of a value describes this value. A block describes at most one
/// value, and begins with the magic of its layout.
pub fn one_log_super()
    ensures back { (v : LogSuperValue) → FitsLog v → IsLogSuper v (log_super_text v) }
    ensures one { (v w : LogSuperValue) (block : List ℕ) → IsLogSuper v block → IsLogSuper w block → v ≡ w }
    ensures magic { (v : LogSuperValue) (block : List ℕ) → IsLogSuper v block → take 8 block ≡ log_magic v.sealing }
{
    one_reading();
}

/// No super block of layout 5 or 6 is also a super block of layouts 1 to 4.
pub fn other_layouts()
    ensures { (v : LogSuperValue) (w : SuperValue) (block : List ℕ) → IsLogSuper v block → IsSuper w block → ⊥ }
{}
