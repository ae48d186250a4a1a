// Consequences of the definitions alone.
ghost use Rattle.std.specs.Prelude.{◌≡◌, ℕ, Bool, [], None, slice_index};
ghost use Rattle.volume_codec.specs.Layout.{block_at};
ghost use Rattle.device.specs.Device.{Only};
ghost use Rattle.log_codec.specs.declared.start.LogStart.{LogStart};
ghost use Rattle.log_codec.specs.Log.{LogValue};
ghost use Rattle.log_codec.specs.Start.{counts_second};
ghost use Rattle.log_codec.specs.Chain.{HasLog};
ghost use Rattle.log_commits.specs.Tail.{tail_at};
ghost use Rattle.log_store.specs.Store.{IsStoreOver, StoreValue, fresh_store};

use device::Device;

/// A new store is over a device whose log, from the start that counts, has no commits, once all its bytes are durable.
/// The store's contents are the home blocks.
pub fn opened_store<D: Device>(_device: &D)
    ensures { (g : LogValue) (start : LogStart) (second spent : Bool)
        → Only (D.may_leave _device.now) (D.seen _device.now)
        → HasLog g start [] (D.seen _device.now)
        → second ≡ counts_second (slice_index (D.seen _device.now) 4096)
        → IsStoreOver D.Device (fresh_store (tail_at g start spent) second) (block_at (D.seen _device.now))
        _device.now }
{}
