use ref_ledger::Ledger;
use std::alloc::Global;

fn counts_with_more_room(alloc: Global) -> Option<(u32, u32, u32)> {
    let mut ledger = Ledger::new(alloc);
    ledger.reserve(2).ok()?;
    ledger.add([0, 1, 1].as_slice());
    ledger.reserve(1).ok()?;
    ledger.reserve(3).ok()?;
    Some((ledger.count(0), ledger.count(1), ledger.count(2)))
}

#[test]
fn each_place_counts_once_and_the_room_that_is_there_stays(rt: HostRuntime) {
    assert!(rt; counts_with_more_room(rt.alloc()) == Some((1, 2, 0)));
}

// The counts of two chunks after two sessions of four places are added, after one of them is
// dropped, and after two of the three places of the first chunk and the others are dropped too.
fn counts_after_drops(alloc: Global) -> Option<[(u32, u32); 4]> {
    let mut ledger = Ledger::new(alloc);
    ledger.reserve(2).ok()?;
    ledger.add([0, 0, 0, 1].as_slice());
    ledger.add([0, 0, 0, 1].as_slice());
    let both = (ledger.count(0), ledger.count(1));
    ledger.drop_places([0, 0, 0, 1].as_slice());
    let one = (ledger.count(0), ledger.count(1));
    ledger.drop_places([0, 0].as_slice());
    let part = (ledger.count(0), ledger.count(1));
    ledger.drop_places([0, 1].as_slice());
    Some([both, one, part, (ledger.count(0), ledger.count(1))])
}

#[test]
fn a_drop_takes_one_from_each_place_and_not_from_each_chunk(rt: HostRuntime) {
    assert!(rt; counts_after_drops(rt.alloc()) == Some([(6, 2), (3, 1), (1, 1), (0, 0)]));
}
