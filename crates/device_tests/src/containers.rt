use crate::packer_steps::{Script, follow_all};
use container_pack::{Spot, container_sizes, places};
use sd_base::{CONTAINER_HEADER, MAX_CHUNK_LEN, MAX_CONTAINER, OutOfMemory};
use std::test::Fail;

fn spot(container: u32, offset: u32) -> Spot {
    Spot { container, offset }
}

#[test]
fn spots_follow_from_the_lengths(rt: HostRuntime) {
    let max = MAX_CHUNK_LEN;
    // The fourth fills its container to the last byte.
    let last = max - CONTAINER_HEADER;
    let (a, b, c) = (
        spot(0, CONTAINER_HEADER),
        spot(0, 1_048_584),
        spot(0, 2_097_160),
    );
    let (d, next) = (spot(0, 3_145_736), spot(1, CONTAINER_HEADER));
    assert!(rt; are_spots(places(rt.alloc(), &[]), &[]));
    assert!(rt; are_spots(places(rt.alloc(), &[64, 8]), &[a, spot(0, 72)]));
    assert!(rt; are_spots(places(rt.alloc(), &[max, max, max, max]), &[a, b, c, next]));
    assert!(rt;
        are_spots(
            places(rt.alloc(), &[max, max, max, last, 1]),
            &[a, b, c, d, next]
        )
    );
}

const _: () = prove!(3_145_736 + (MAX_CHUNK_LEN - CONTAINER_HEADER) == MAX_CONTAINER);

fn are_spots(found: Result<Vec<Spot>, OutOfMemory>, wanted: &[Spot]) -> bool {
    match found {
        Ok(spots) => spots.as_slice() == wanted,
        Err(_) => false,
    }
}

#[test]
fn sizes_follow_from_the_lengths(rt: HostRuntime) {
    let max = MAX_CHUNK_LEN;
    // The fourth fills its container to the last byte.
    let full = [max, max, max, max - CONTAINER_HEADER, 1];
    assert!(rt; has_sizes(rt, &[], &[]));
    assert!(rt; has_sizes(rt, &[64, 8], &[80]));
    assert!(rt; has_sizes(rt, &[max, max, max, max], &[3_145_736, 1_048_584]));
    assert!(rt; has_sizes(rt, &full, &[u64::from(MAX_CONTAINER), 9]));
}

fn has_sizes(rt: HostRuntime, lengths: &[u32], wanted: &[u64]) -> bool {
    match container_sizes(rt.alloc(), lengths) {
        Ok(sizes) => sizes.as_slice() == wanted,
        Err(_) => false,
    }
}

/// What a call keeps that fails.
const ANY: &[u32] = &[0, 1, 99];

// A second run appends the chunks `d` and `ef` after `abc`. What a failed run left is a tail to it.
// An append to a container makes two calls, a cut and an append.

const FIRST_APPEND_FAILS: &str = "
        container.0.0 put SSCP\0\0\0\0abcTAIL
        resume 0 abc
        add d failed
        container.0.0 begins SSCP\0\0\0\0abc
        resume 0 abc
        add d 0 11
        add ef 0 12
        flush done
        container.0.0 holds SSCP\0\0\0\0abcdef
        container.0.0 is_not_loose
        ";

const SECOND_APPEND_FAILS: &str = "
        container.0.0 put SSCP\0\0\0\0abcTAIL
        resume 0 abc
        add d 0 11
        add ef failed
        container.0.0 begins SSCP\0\0\0\0abcd
        resume 0 abc
        add d 0 11
        add ef 0 12
        flush done
        container.0.0 holds SSCP\0\0\0\0abcdef
        container.0.0 is_not_loose
        ";

const REFUSED_ONCE: &str = "
        container.0.0 put TAIL
        container.1.0 put SSCP\0\0\0\0abcd
        add abc failed
        add abc 0 8
        container.0.0 holds SSCP\0\0\0\0abc
        container.1.0 holds SSCP\0\0\0\0abcd
        ";

static SCRIPTS: [Script; 17] = [
    // The file has two bytes and not three at the second spot; the other files are not there.
    Script {
        title: "a chunk is read back from its spot",
        failing: &[],
        kept: &[0],
        steps: "
        add abc 0 8
        add de 0 11
        read 0 0 8 3 abc
        read 0 0 11 2 de
        read 0 0 11 3 de
        read 0 1 8 3 nothing
        read 1 0 8 3 nothing
        ",
    },
    // The last step shows that a read of a chunk is one call.
    Script {
        title: "a read that fails is no lack of memory",
        failing: &[0, 2, 4],
        kept: &[0],
        steps: "
        container.0.0 put SSCP\0\0\0\0abc
        read 0 0 8 3 failed
        container.0.0 holds SSCP\0\0\0\0abc
        read 0 0 8 3 abc
        container.0.0 len failed
        ",
    },
    Script {
        title: "a new container begins with its header",
        failing: &[],
        kept: &[0],
        steps: "
        resume 3 three_longest
        container.3.1 put a tail of an earlier run
        add longest 1 8
        add ab 1 1048584
        container.3.0 len 0
        container.3.1 has_length 1048586
        container.3.1 begins SSCP\0\0\0\x01\x07
        container.3.1 ends \x07ab
        read 3 1 8 1048576 longest
        ",
    },
    Script {
        title: "both containers are flushed",
        failing: &[],
        kept: &[0],
        steps: "
        resume 3 three_longest_but_one_byte
        add a 0 3145735
        add longest 1 8
        container.3.0 is_loose
        container.3.1 is_loose
        flush done
        container.3.0 is_not_loose
        container.3.1 is_not_loose
        ",
    },
    Script {
        title: "a tail never comes between two chunks",
        failing: &[],
        kept: &[0],
        steps: "
        resume 0 abc
        container.0.0 put SSCP\0\0\0\0abcTAIL
        add d 0 11
        container.0.0 holds SSCP\0\0\0\0abcd
        container.0.0 append TAIL done
        add ef 0 12
        container.0.0 holds SSCP\0\0\0\0abcdef
        ",
    },
    Script {
        title: "a full container keeps its tail",
        failing: &[],
        kept: &[0],
        steps: "
        resume 0 three_longest
        container.0.0 put chunks and a tail
        add longest 1 8
        container.0.0 holds chunks and a tail
        ",
    },
    Script {
        title: "a wrong header costs no byte before the spot",
        failing: &[],
        kept: &[0],
        steps: "
        resume 0 abc
        container.0.0 put SSCQ\0\0\0\0abcTAIL
        add d 0 11
        container.0.0 holds SSCQ\0\0\0\0abcd
        ",
    },
    Script {
        title: "a failing cut leaves the chunk before",
        failing: &[0],
        kept: ANY,
        steps: FIRST_APPEND_FAILS,
    },
    Script {
        title: "a failing append leaves the chunk before",
        failing: &[1],
        kept: ANY,
        steps: FIRST_APPEND_FAILS,
    },
    Script {
        title: "a second cut that fails leaves the chunks before",
        failing: &[2],
        kept: ANY,
        steps: SECOND_APPEND_FAILS,
    },
    Script {
        title: "a second append that fails leaves the chunks before",
        failing: &[3],
        kept: ANY,
        steps: SECOND_APPEND_FAILS,
    },
    Script {
        title: "a failing flush leaves all chunks",
        failing: &[4],
        kept: ANY,
        steps: "
        container.0.0 put SSCP\0\0\0\0abcTAIL
        resume 0 abc
        add d 0 11
        add ef 0 12
        flush failed
        container.0.0 begins SSCP\0\0\0\0abcdef
        resume 0 abc
        add d 0 11
        add ef 0 12
        flush done
        container.0.0 holds SSCP\0\0\0\0abcdef
        container.0.0 is_not_loose
        ",
    },
    Script {
        title: "two appends and a flush make five calls",
        failing: &[5],
        kept: &[0],
        steps: "
        container.0.0 put SSCP\0\0\0\0abc
        resume 0 abc
        add d 0 11
        add ef 0 12
        flush done
        head len failed
        ",
    },
    Script {
        title: "a packer goes on after a refused cut",
        failing: &[0],
        kept: ANY,
        steps: REFUSED_ONCE,
    },
    Script {
        title: "a packer goes on after a refused header",
        failing: &[1],
        kept: ANY,
        steps: REFUSED_ONCE,
    },
    Script {
        title: "a packer goes on after a refused append",
        failing: &[2],
        kept: ANY,
        steps: REFUSED_ONCE,
    },
    // A cut, the header and the chunk.
    Script {
        title: "a first append makes three calls",
        failing: &[3],
        kept: &[0],
        steps: "
        add abc 0 8
        container.0.0 len failed
        ",
    },
];

#[test]
fn a_packer_keeps_each_chunk_at_its_spot_whatever_fails(rt: HostRuntime) -> Result<(), Fail> {
    follow_all(rt, &SCRIPTS)
}
