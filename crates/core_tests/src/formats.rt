// New volumes on disks that contain other bytes, which no command makes: descriptors, records and what is past the
// volume keep their bytes.
use device::MemDisk;
use recovery::{format, format_as};
use std::alloc::Global;
use std::process::Abort;
use volume_codec::{FileSpec, write_super};

// Writes bytes into an image from offset `at` on. Bytes past its end are left out.
fn put(image: &mut [u8], at: usize, bytes: &[u8]) {
    for (i, byte) in bytes.iter().enumerate() {
        if let Some(place) = image.get_mut(at.saturating_add(i)) {
            *place = *byte;
        }
    }
}

// Returns bytes 0xFF.
fn others<R: Abort + AllocGlobal>(rt: &R, length: usize) -> Vec<u8> {
    vec![in rt.alloc(); 0xFF; length].expect(rt, "memory")
}

// Returns a disk of bytes 0xFF.
fn disk_of_others<R: Abort + AllocGlobal>(rt: &R, length: usize) -> MemDisk<Global> {
    MemDisk::from_bytes(rt.alloc(), others(rt, length)).expect(rt, "a disk")
}

// The blocks of layout 1 after its super block: a gate, four records, and three home blocks. A block follows them.
#[test]
fn other_bytes_stay(rt: HostRuntime) {
    let files = [("a", 5000), ("b", 4096)];
    let mut disk = disk_of_others(&rt, 45_056);
    format(rt.alloc(), &mut disk, &files, 4).expect(&rt, "a volume");
    let mut wanted = others(&rt, 45_056);
    let block = write_super(rt.alloc(), &files, 4).expect(&rt, "a super block");
    put(&mut wanted, 0, &block);
    put(&mut wanted, 4096, &[0]);
    put(&mut wanted, 28_672, &[0; 12_288]);
    assert!(rt; disk.bytes() == wanted.as_slice());
    assert!(rt; block.starts_with(b"FAMSYNC1\0\0\0\x02\0\0\0\x04\0\0\0\x0a"));
}

// Layout 4 has four gates, and its lengths in a block before the home blocks.
#[test]
fn other_bytes_stay_in_layout_4(rt: HostRuntime) {
    let files = [FileSpec {
        name: "a",
        length: 1,
        capacity: 1,
    }];
    let mut disk = disk_of_others(&rt, 81_920);
    format_as(rt.alloc(), &mut disk, 4, &files, 2).expect(&rt, "a volume");
    let mut wanted = others(&rt, 81_920);
    put(&mut wanted, 0, &[0; 4096]);
    put(&mut wanted, 0, b"FAMSYNC4\0\0\0\x01\0\0\0\x02\0\0\0\x13");
    put(&mut wanted, 32, b"a");
    put(&mut wanted, 64, b"\0\0\0\0\0\0\0\x01\0\0\0\x12\0\0\0\x01");
    for gate in [4096, 20_480, 36_864, 53_248] {
        put(&mut wanted, gate, &[0]);
    }
    put(&mut wanted, 69_632, &[0; 8192]);
    put(&mut wanted, 69_632, b"\0\0\0\0\0\0\0\x01");
    assert!(rt; disk.bytes() == wanted.as_slice());
}
