// The recovery of a volume.
ghost use Rattle.std.specs.Prelude.{List, ℕ};

/// Any way to recover a volume, of any format.
pub trait Recovery {
    /// The type of a volume's contents.
    ghost Contents: { Type 0 };

    /// Relates bytes to the contents to which they recover, if they do. A function is such a relation.
    ghost recovers: { List ℕ → Contents → Type 0 };
}
