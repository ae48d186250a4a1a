// The counts of calls and faults.
ghost use Rattle.std.specs.Prelude.{◌≡◌};
ghost use Rattle.device.specs.Count.{raised};

/// Adds 1 to a count. A count of 2^64-1 stays there.
pub fn raise(count: &mut u64)
    ensures { count.new ≡ raised count.old }
{
    *count = count.saturating_add(1);
}
