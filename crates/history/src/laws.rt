// What openings find after a history.
ghost use Rattle.std.specs.Prelude.{ℕ, ◌≡◌, List, []};
ghost use Rattle.device.specs.Device.{Only};
ghost use Rattle.volume_codec.specs.Files.{File};
ghost use Rattle.volume_codec.specs.Recovery.{RecoversTo};
ghost use Rattle.recovery.specs.Openings.{IsLater};
ghost use Rattle.history.specs.History.{Event, files_after};
ghost use Rattle.history.specs.Later.{AreDurable, Finds, FindsDurable};
ghost use Rattle.history.specs.Reading.{ReadsBack};

use device::Device;
use recovery::{kinds_of_bytes, opened_again, opened_as_recovered};
use volume_codec::one_reading;

/// States what openings of an honest device find after a crash.
///
/// If a crash can leave only the bytes that a read returns, the files to which these recover are permanent
/// (`permanent`). They are found after any number of openings, each with a crash or none within it and after it.
///
/// Let all bytes that a crash may leave read back as the files after a durable prefix of a history. This still holds
/// after any number of such openings. Each opening then finds exactly these files (`durable`).
pub fn opened_later<D: Device>(device: &D)
    ensures permanent { (files : List File) (n : ℕ) (first later : D) → D.is_honest first
        → Only (D.may_leave first) (D.seen first) → RecoversTo (D.seen first) files
        → IsLater D.Device n first later → Finds D.Device files later }
    ensures durable { (files : List File) (history : List Event) (n : ℕ) (first later : D) → D.is_honest first
        → ((c : List ℕ) → D.may_leave first c → ReadsBack files history c)
        → IsLater D.Device n first later → FindsDurable D.Device files history later }
{
    opened_again(device);
    opened_as_recovered(device);
    kinds_of_bytes();
    one_reading();
}

/// States that nothing changes if nothing was stored. A history without events leaves the files unchanged (`files`),
/// and they are found after it (`found`).
pub fn nothing_stored()
    ensures files { (files : List File) → files_after files [] ≡ files }
    ensures found { (files found : List File) → AreDurable files [] found → found ≡ files }
{}
