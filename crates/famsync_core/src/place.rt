// The address of bytes in memory, for a C program that reads them.

/// Returns the address of the first byte.
pub(crate) fn place_of(bytes: &[u8]) -> *const u8 {
    bytes.as_ptr()
}
