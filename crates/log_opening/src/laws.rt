// Consequences of an opening's contract and of the definitions.
ghost use Rattle.std.specs.Prelude.{◌≡◌, ℕ, List};
ghost use Rattle.volume_codec.specs.Files.{File};
ghost use Rattle.volume_codec.specs.Layout.{block_at};
ghost use Rattle.log_codec.specs.declared.start.LogStart.{LogStart};
ghost use Rattle.log_codec.specs.Log.{LogValue, IsLog};
ghost use Rattle.log_codec.specs.Chain.{LogRecovers};
ghost use Rattle.log_volume.specs.Super.{LogSuperValue, IsLogSuper, log_of};
ghost use Rattle.log_volume.specs.Files.{RecoversToLog, log_lengths_in, log_files_in};
ghost use Rattle.log_opening.specs.Opening.{RecoversAlike};
ghost use Rattle.log_opening.specs.Volume.{HasOpenedVolume};
ghost use Rattle.log_opening.specs.CutOff.{IsCutOff, AllRecoverTo};

use device::Device;
use log_codec::one_log;
use log_volume::one_log_super;

/// After a crash and any number of openings that were each cut off by a crash, a device recovers to the same contents.
/// All crash states of the first device must recover to these contents.
pub fn cut_off_openings<D: Device>(device: &D)
    ensures { (g : LogValue) (contents : ℕ → List ℕ) (n : ℕ) (first later : D) → IsLog g
        → AllRecoverTo g contents (D.may_leave first) → IsCutOff D.Device g n first later
        → LogRecovers g contents (D.seen later) }
{
    one_log();
}

/// An opened volume has the files that the device's bytes recovered to before, and these lengths. A crash of an opening
/// leaves bytes that recover to the same files.
pub fn files_of_openings<D: Device>(device: &D)
    ensures opened { (old new : D) (table : LogSuperValue) (lengths : List ℕ) (next : LogStart)
        → HasOpenedVolume D.Device old table lengths next new
        → (lengths ≡ log_lengths_in table (block_at (D.seen new)))
        × RecoversToLog (D.seen old) (log_files_in table (block_at (D.seen new))) }
    ensures crashed { (table : LogSuperValue) (old new : List ℕ) (files : List File) → IsLog (log_of table)
        → IsLogSuper table (block_at old 0) → RecoversAlike (log_of table) old new → RecoversToLog old files
        → RecoversToLog new files }
{
    one_log();
    one_log_super();
}
