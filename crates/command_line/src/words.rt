// Reads numbers and files from words of the command line.
ghost use Rattle.std.specs.Prelude.{◌≡◌, SomeIff, MatchOption};
ghost use Rattle.std.specs.Str.Parse.{digits_value};
ghost use Rattle.command_line.specs.Words.{IsDecimal, IsHexadecimal, IsKey, IsFile, IsNoFile, AreSizes, AreNoSizes};

use volume_codec::FileSpec;

/// Returns the number that `word` writes in decimal digits, up to 2^64 - 1. Leading zeros are allowed. Returns `None`
/// if the word is empty, contains another character, or writes a larger number.
pub fn decimal(word: &str) -> Option<u64>
    ensures { SomeIff result (IsDecimal word.now) (digits_value 10 word.now) }
{
    if word.starts_with('+') {
        return None;
    }
    word.parse().ok()
}

// Returns the number that `word` writes in hexadecimal digits, up to 2^64 - 1. Returns `None` for any other word.
fn hexadecimal(word: &str) -> Option<u64>
    ensures { SomeIff result (IsHexadecimal word.now) (digits_value 16 word.now) }
{
    if word.starts_with('+') {
        return None;
    }
    u64::from_str_radix(word, 16).ok()
}

/// Returns the number that `word` writes in exactly 16 hexadecimal digits. Returns `None` for any other word.
pub fn key(word: &str) -> Option<u64>
    ensures { SomeIff result (IsKey word.now) (digits_value 16 word.now) }
{
    if word.len() != 16 {
        return None;
    }
    hexadecimal(word)
}

// Returns the length and the capacity that `word` writes. A length alone is also the capacity. If `grows`,
// `LENGTH/CAPACITY` is accepted as well.
fn sizes(word: &str, grows: bool) -> Option<(u64, u64)>
    ensures { MatchOption result (AreNoSizes grows word.now) (λ sizes. AreSizes grows word.now sizes.0 sizes.1) }
{
    if let Some(length) = decimal(word) {
        return Some((length, length));
    }
    if !grows {
        return None;
    }
    let (length, capacity) = word.rsplit_once('/')?;
    let length = decimal(length)?;
    let capacity = decimal(capacity)?;
    Some((length, capacity))
}

/// Returns the file that `NAME=LENGTH` describes. The word is cut at its last `=`, and the capacity is the length. If
/// `grows`, `NAME=LENGTH/CAPACITY` is accepted as well. Returns `None` for any other word.
pub fn file_spec(word: &str, grows: bool) -> Option<FileSpec<'_>>
    ensures { MatchOption result (IsNoFile grows word.now)
        (λ file. IsFile grows word.now file.name.now file.length file.capacity) }
{
    let (name, rest) = word.rsplit_once('=')?;
    let (length, capacity) = sizes(rest, grows)?;
    Some(FileSpec {
        name,
        length,
        capacity,
    })
}
