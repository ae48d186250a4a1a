// Theorems that follow from an opening's contract and from the definitions.
ghost use Rattle.std.specs.Prelude.{◌≡◌, ◌⊎◌, ℕ, Bool, true, List, Result, MatchResult, IfOk};
ghost use Rattle.page_entry.specs.declared.refusal.Refusal.{Refusal};
ghost use Rattle.volume_codec.specs.Files.{File, AskedFile};
ghost use Rattle.volume_codec.specs.Layout.{block_at};
ghost use Rattle.volume_codec.specs.Super.{SuperValue, IsAsked};
ghost use Rattle.volume_codec.specs.Recovery.{Recovers, RecoversTo, IsNotAVolume, IsDamaged};
ghost use Rattle.recovery.specs.Migration.{HasMigrated};
ghost use Rattle.recovery.specs.Volume.{VolumeState, files_of};
ghost use Rattle.recovery.specs.Format.{zero_files, HasFormatted};
ghost use Rattle.recovery.specs.Opening.{HasOpened, Opens};
ghost use Rattle.recovery.specs.Openings.{IsMade, IsLater, RecoversAs, AllRecover, FindsAmong};

use device::Device;

/// Bytes that recover to files contain a volume, and it isn't damaged. No bytes both lack a volume and are damaged.
pub fn kinds_of_bytes()
    ensures volume { (bytes : List ℕ) (files : List File) → RecoversTo bytes files
        → IsNotAVolume bytes ⊎ IsDamaged bytes → ⊥ }
    ensures refused { (bytes : List ℕ) → IsNotAVolume bytes → IsDamaged bytes → ⊥ }
{}

/// The files of an opened volume are those to which the device's bytes recovered before the opening.
pub fn opened_as_recovered<D: Device>(device: &D)
    ensures contents { (before after : D) (table : SuperValue) → HasOpened D.Device before table after
        → Recovers table (block_at (D.seen after)) (D.seen before) }
    ensures files { (before after : D) (table : SuperValue) → HasOpened D.Device before table after
        → RecoversTo (D.seen before) (files_of table (D.seen after)) }
{}

/// Covers a crash at any moment since an opening of an honest device began.
///
/// `left`: the crash leaves bytes that recover to the same files as some crash state from before the opening, if that
/// state recovers.
///
/// `tested`: if all crash states from before the opening pass a test of files, all these crash states pass it.
pub fn crashed_since_opening<D: Device>(device: &D)
    ensures left { (before after : D) (result : Result SuperValue Refusal) (c : List ℕ) → D.is_honest before
        → Opens D.Device before result after → D.left_since after (D.moment before) c
        → RecoversAs (D.may_leave before) c }
    ensures tested { (before after : D) (result : Result SuperValue Refusal) (test : List File → Bool)
        → D.is_honest before → Opens D.Device before result after → AllRecover test (D.may_leave before)
        → AllRecover test (D.left_since after (D.moment before)) }
{}

/// Covers any number of openings of an honest device, each with or without a crash within it or after it. The device
/// stays honest.
///
/// `left`: a crash afterwards leaves bytes that recover to the same files as some crash state of the first device, if
/// that state recovers.
///
/// `tested`: if all crash states of the first device pass a test of files, all later ones pass it.
///
/// `finds`: in that case each later opening finds what one of these crash states recovers to, and this passes the test.
/// Otherwise a device call fails, or memory runs out. No opening finds a damaged volume, or none.
pub fn opened_again<D: Device>(device: &D)
    ensures honest { (n : ℕ) (first later : D) → D.is_honest first → IsLater D.Device n first later
        → D.is_honest later }
    ensures left { (n : ℕ) (first later : D) (c : List ℕ) → D.is_honest first → IsLater D.Device n first later
        → D.may_leave later c → RecoversAs (D.may_leave first) c }
    ensures tested { (n : ℕ) (first later : D) (test : List File → Bool) → D.is_honest first
        → IsLater D.Device n first later → AllRecover test (D.may_leave first) → AllRecover test (D.may_leave later) }
    ensures finds { (n : ℕ) (first later after : D) (result : Result SuperValue Refusal) (test : List File → Bool)
        → D.is_honest first → IsLater D.Device n first later → AllRecover test (D.may_leave first)
        → Opens D.Device later result after
        → FindsAmong (D.may_leave first) result (D.seen after)
        × IfOk result (λ table. test (files_of table (D.seen after)) ≡ true) }
{}

/// After a device was formatted, each later opening finds the files that were asked for, with all their bytes zero.
/// Otherwise a device call fails, or memory runs out. Any number of openings and crashes may come before it.
pub fn opened_after_formatting<D: Device>(device: &D)
    ensures { (layout slots n : ℕ) (files : List AskedFile) (old new later after : D)
        (result : Result SuperValue Refusal) → D.is_honest new → HasFormatted D.Device layout files slots old new
        → IsLater D.Device n new later → Opens D.Device later result after
        → MatchResult result
        (λ table. IsAsked layout files slots table × (files_of table (D.seen after) ≡ zero_files files))
        (λ refusal. (refusal ≡ Refusal.Device) ⊎ (refusal ≡ Refusal.OutOfMemory)) }
{}

/// Formatting an honest device makes a volume with the files that were asked for, with all their bytes zero.
pub fn made_by_formatting<D: Device>(device: &D)
    ensures { (layout slots : ℕ) (files : List AskedFile) (old new : D) → D.is_honest new
        → HasFormatted D.Device layout files slots old new → IsMade D.Device (zero_files files) new }
{}

/// Migrating a volume to an honest device makes a volume with the old volume's files.
pub fn made_by_migrating<D: Device, E: Device>(device: &D, other: &E)
    ensures { (layout slots : ℕ) (volume : VolumeState D) (before after : E) → E.is_honest after
        → HasMigrated D.Device E.Device layout slots volume before after
        → IsMade E.Device (files_of volume.table (D.seen volume.device)) after }
{}

/// After a volume with some files was made on a device, each later opening finds these files. Otherwise a device call
/// fails, or memory runs out. Any number of openings and crashes may come before it.
pub fn opened_after_making<D: Device>(device: &D)
    ensures { (n : ℕ) (files : List File) (made later after : D) (result : Result SuperValue Refusal)
        → IsMade D.Device files made → IsLater D.Device n made later → Opens D.Device later result after
        → MatchResult result (λ table. files_of table (D.seen after) ≡ files)
        (λ refusal. (refusal ≡ Refusal.Device) ⊎ (refusal ≡ Refusal.OutOfMemory)) }
{}
