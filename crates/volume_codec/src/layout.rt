// The layouts of volumes.
ghost use Rattle.std.specs.Prelude.{◌≡◌, ◌≢◌, ◌≤◌, IfSome, IfNone, List};
ghost use Rattle.volume_codec.specs.Layout.{number_of, magic_of, journals_of, max_slots as most_slots, lengths_blocks as lengths};

// Rule: gate byte
/// The byte that opens a journal's gate. It is the first byte of the gate's block, and every other value closes the
/// gate.
pub const OPEN_GATE: u8 = 0xA7;

/// The byte that is written to close a gate.
pub const CLOSED_GATE: u8 = 0;

/// The layout of a volume. It determines the magic with which its super block begins, the number of its journals, and
/// whether a block contains the lengths of its files.
#[derive(Clone, Copy, PartialEq, Eq, Debug)]
pub enum Layout {
    /// One journal.
    One,
    /// Two journals, so that a batch may be committed while the one before it is still applied.
    Two,
    /// Two journals, and a block that contains the lengths of the files, so that a file may be shorter than its
    /// capacity.
    Three,
    /// Four journals, and a block that contains the lengths of the files. Each journal has up to 65,535 record slots,
    /// and a descriptor of one or more blocks.
    Four,
}

impl Layout {
    ghost use Rattle.volume_codec.specs.declared.layout.Layout.{Layout};

    /// Returns the layout of this number, if there is one.
    pub fn from_number(number: u64) -> Option<Layout>
        ensures some { IfSome result (λ layout. number_of layout ≡ number) }
        ensures none { IfNone result ((layout : Layout) → number_of layout ≢ number) }
    {
        match number {
            1 => Some(Layout::One),
            2 => Some(Layout::Two),
            3 => Some(Layout::Three),
            4 => Some(Layout::Four),
            _ => None,
        }
    }

    /// Returns the layout whose super blocks begin with these bytes, if there is one.
    pub fn from_magic(magic: [u8; 8]) -> Option<Layout>
        ensures some { IfSome result (λ layout. magic ≡ magic_of layout) }
        ensures none { IfNone result ((layout : Layout) → magic ≢ magic_of layout) }
    {
        if magic == Layout::One.magic() {
            return Some(Layout::One);
        }
        if magic == Layout::Two.magic() {
            return Some(Layout::Two);
        }
        if magic == Layout::Three.magic() {
            return Some(Layout::Three);
        }
        if magic == Layout::Four.magic() {
            return Some(Layout::Four);
        }
        None
    }

    /// Returns the number by which this layout is requested.
    pub fn number(self) -> u64
        ensures { result ≡ number_of self }
    {
        match self {
            Layout::One => 1,
            Layout::Two => 2,
            Layout::Three => 3,
            Layout::Four => 4,
        }
    }

    /// Returns the bytes with which its super blocks begin.
    pub fn magic(self) -> [u8; 8]
        ensures { result ≡ magic_of self }
    {
        match self {
            Layout::One => *b"FAMSYNC1",
            Layout::Two => *b"FAMSYNC2",
            Layout::Three => *b"FAMSYNC3",
            Layout::Four => *b"FAMSYNC4",
        }
    }

    /// Returns the number of its journals.
    pub fn journals(self) -> u32
        ensures { result ≡ journals_of self }
    {
        match self {
            Layout::One => 1,
            Layout::Two => 2,
            Layout::Three => 2,
            Layout::Four => 4,
        }
    }

    /// Returns the largest number of record slots of its journals. A descriptor of one block has room for 1,020, and
    /// layout 4 allows 65,535.
    pub fn max_slots(self) -> u32
        ensures value { result ≡ most_slots self }
        ensures small { result ≤ 65535 }
    {
        match self {
            Layout::One => 1020,
            Layout::Two => 1020,
            Layout::Three => 1020,
            Layout::Four => 65535,
        }
    }

    /// Returns the number of home blocks, the first ones, that contain the lengths of the files.
    pub fn lengths_blocks(self) -> u32
        ensures value { result ≡ lengths self }
        ensures small { result ≤ 1 }
    {
        match self {
            Layout::One => 0,
            Layout::Two => 0,
            Layout::Three => 1,
            Layout::Four => 1,
        }
    }
}
