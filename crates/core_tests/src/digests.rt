// Compares digests with those of other programs.
use log_codec::CommitDigest;
use xxh64::{Xxh64, digest};

// The digests that `xxh64sum` 0.8.1 prints.
#[test]
fn published_digests(rt: HostRuntime) {
    assert_eq!(rt; digest(0, b""), 0xef46_db37_51d8_e999);
    assert_eq!(rt; digest(0, b"a"), 0xd24e_c4f1_a98c_6e5b);
    assert_eq!(rt; digest(0, b"abc"), 0x44bc_2cf5_ad77_0999);
    assert_eq!(rt; digest(0, b"message digest"), 0x066e_d728_fcee_b3be);
    assert_eq!(rt;
        digest(0, b"Nobody inspects the spammish repetition"),
        0xfbce_a83c_8a37_8bf1
    );
}

// The first 4,088 bytes of 3, 10, 17, .. (each 7 more than the one before, modulo 256), in pieces of 37 bytes.
#[test]
fn pieces(rt: HostRuntime) {
    let mut bytes = [0u8; 4088];
    for i in 0..4088 {
        bytes[i] = ((i * 7 + 3) % 256) as u8;
    }
    let mut hasher = Xxh64::new(0);
    for piece in bytes.chunks(37) {
        hasher.update(piece);
    }
    assert_eq!(rt; hasher.finish(), 0xcc94_ec49_0919_c556);
    assert_eq!(rt; digest(0, &bytes), 0xcc94_ec49_0919_c556);
}

// A commit's seal in layout 6. Each byte of record 0 is 0x11. Record 1 has the bytes 3, 10, 17, ..
#[test]
fn seals(rt: HostRuntime) {
    let mut records = [0x11; 8192];
    for i in 0usize..4096 {
        records[4096 + i] = ((i * 7 + 3) % 256) as u8;
    }
    let mut digest = CommitDigest::new(0x0123_4567_89ab_cdef, 3, 7, &[13, 14]);
    for piece in records.chunks(37) {
        digest.add(piece);
    }
    assert!(rt; digest.seal() == *b"\x9f\x7f\xeb\x98\x9b\xaf\x43\xab");
}
