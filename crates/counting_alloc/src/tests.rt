// Tests what the allocator counts and refuses, with lists that grow.
use crate::CountingAllocator;
use std::alloc::{AllocError, Allocator, Global};
use std::process::Abort;

type Counting = CountingAllocator<Global>;

// A list of nine numbers, pushed one by one: its room grows from none to 4, 8 and 16 of them.
fn nine<A: Allocator>(alloc: A) -> Result<Vec<u64, A>, AllocError> {
    let mut list = Vec::new(alloc);
    for number in 0..9 {
        list.push(number)?;
    }
    Ok(list)
}

// Whether these are the requests, the refused ones, and the bytes asked, held and held at most.
fn has_counted(alloc: &Counting, counts: [u64; 5]) -> bool {
    [
        alloc.requests(),
        alloc.refused(),
        alloc.asked(),
        alloc.held(),
        alloc.most_held(),
    ] == counts
}

// Whether `nine` succeeds now.
fn can_make_nine(alloc: &Counting) -> bool {
    nine(alloc).is_ok()
}

#[test]
fn requests_and_bytes_are_counted(rt: HostRuntime) {
    let alloc = Counting::new(rt.alloc());
    assert!(rt; has_counted(&alloc, [0, 0, 0, 0, 0]));
    let list = nine(&alloc).expect(&rt, "a list");
    assert!(rt; has_counted(&alloc, [3, 0, 224, 128, 192]));
    alloc.restart();
    assert!(rt; has_counted(&alloc, [0, 0, 0, 128, 128]));
    drop(list);
    assert!(rt; has_counted(&alloc, [0, 0, 0, 0, 128]));
}

#[test]
fn each_request_is_refused_in_turn(rt: HostRuntime) {
    let alloc = Counting::new(rt.alloc());
    for n in 1..4 {
        alloc.restart();
        alloc.refuse_nth(n);
        assert!(rt; !can_make_nine(&alloc), "request {n}");
        assert!(rt; alloc.requests() == n && alloc.refused() == 1 && alloc.held() == 0);
        assert!(rt; can_make_nine(&alloc));
    }
    alloc.restart();
    alloc.refuse_nth(4);
    assert!(rt; can_make_nine(&alloc));
    assert!(rt; alloc.requests() == 3 && alloc.refused() == 0);
}

#[test]
fn all_requests_from_one_on_are_refused(rt: HostRuntime) {
    let alloc = Counting::new(rt.alloc());
    alloc.refuse_from(3);
    for _ in 0..3 {
        assert!(rt; !can_make_nine(&alloc));
    }
    assert!(rt; has_counted(&alloc, [5, 3, 288, 0, 96]));
    alloc.refuse_none();
    assert!(rt; can_make_nine(&alloc));
}
