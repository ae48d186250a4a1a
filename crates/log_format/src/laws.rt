// Consequences of the definitions alone.
ghost use Rattle.std.specs.Prelude.{ℕ, List, []};
ghost use Rattle.volume_codec.specs.Files.{AskedFile, lengths_asked};
ghost use Rattle.recovery.specs.Format.{zero_files};
ghost use Rattle.log_codec.specs.declared.sealing.Sealing.{Sealing};
ghost use Rattle.log_codec.specs.Chain.{HasLog};
ghost use Rattle.log_volume.specs.Super.{LogSuperValue, log_of};
ghost use Rattle.log_volume.specs.Files.{RecoversToLog};
ghost use Rattle.log_format.specs.Asked.{IsLogAsked};
ghost use Rattle.log_format.specs.Fresh.{IsFreshVolume, first_log_start};

/// A new volume has a log without commits. It recovers to the files that were asked for, with only zeros in them.
pub fn fresh_volume()
    ensures log { (table : LogSuperValue) (lengths bytes : List ℕ) → IsFreshVolume table lengths bytes
        → HasLog (log_of table) first_log_start [] bytes }
    ensures files { (sealing : Sealing) (ring : ℕ) (files : List AskedFile) (table : LogSuperValue) (bytes : List ℕ)
        → IsLogAsked sealing files ring table → IsFreshVolume table (lengths_asked files) bytes
        → RecoversToLog bytes (zero_files files) }
{}
