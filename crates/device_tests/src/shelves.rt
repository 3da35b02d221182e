use crate::packer_steps::{Script, follow_all};
use crate::shelf_steps::returns;
use edge_traits::{File, NoShelf};
use std::test::Fail;

static SCRIPTS: [Script; 8] = [
    Script {
        title: "a file that was put is read",
        failing: &[],
        kept: &[0],
        steps: "
        seal.0 put abc
        seal.0 holds abc
        seal.0 is_not_loose
        seal.0 len 3
        seal.0 read 2 4 c
        seal.0 read 3 4 nothing
        seal.0 read 18446744073709551615 4 nothing
        seal.0 put d
        seal.0 holds d
        seal.0 is_not_loose
        ",
    },
    Script {
        title: "a call changes only its own file",
        failing: &[],
        kept: &[0],
        steps: "
        head len 0
        head append ab done
        head is_loose
        seal.0 len 0
        seal.0 append ab done
        seal.0 is_loose
        seal.1 len 0
        seal.1 append ab done
        seal.1 is_loose
        book.0 len 0
        book.0 append ab done
        book.0 is_loose
        container.0.1 len 0
        container.0.1 append ab done
        container.0.1 is_loose
        container.1.0 len 0
        container.1.0 append ab done
        container.1.0 is_loose

        book.0 append cd done
        head cut 1 done
        seal.1 flush done

        head holds a
        head is_loose
        seal.0 holds ab
        seal.0 is_loose
        seal.1 holds ab
        seal.1 is_not_loose
        book.0 holds abcd
        book.0 is_loose
        container.0.1 holds ab
        container.0.1 is_loose
        container.1.0 holds ab
        container.1.0 is_loose
        ",
    },
    Script {
        title: "calls of all kinds are numbered together",
        failing: &[0, 2, 4],
        kept: &[0],
        steps: "
        head len failed
        head append a done
        head read 0 1 failed
        head cut 1 done
        head flush failed
        head is_loose
        head flush done
        head is_not_loose
        ",
    },
    Script {
        title: "a planned call that keeps nothing changes no bytes",
        failing: &[1, 5],
        kept: &[0],
        steps: "
        container.0.0 put abc
        container.0.0 len 3
        container.0.0 append de failed
        container.0.0 holds abc
        container.0.0 is_loose
        head append f done
        container.0.0 put abc
        container.0.0 flush done
        container.0.0 len 3
        container.0.0 cut 1 failed
        container.0.0 holds abc
        container.0.0 is_loose
        ",
    },
    Script {
        title: "a planned append keeps the first byte",
        failing: &[1],
        kept: &[1],
        steps: "
        container.0.0 put abc
        container.0.0 len 3
        container.0.0 append de failed
        container.0.0 holds abcd
        container.0.0 is_loose
        head append f done
        ",
    },
    Script {
        title: "a planned append keeps all bytes",
        failing: &[1],
        kept: &[2, 9],
        steps: "
        container.0.0 put abc
        container.0.0 len 3
        container.0.0 append de failed
        container.0.0 holds abcde
        container.0.0 is_loose
        head append f done
        ",
    },
    Script {
        title: "a planned cut that keeps anything is made",
        failing: &[1],
        kept: &[1, 2, 9],
        steps: "
        container.0.0 put abc
        container.0.0 flush done
        container.0.0 cut 1 failed
        container.0.0 holds a
        container.0.0 is_loose
        ",
    },
    Script {
        title: "a cut makes an absent file loose, also if it fails",
        failing: &[1],
        kept: &[0, 1],
        steps: "
        container.0.1 is_not_loose
        container.0.1 cut 1 done
        container.0.1 holds nothing
        container.0.1 is_loose
        container.0.0 is_not_loose
        container.0.0 cut 1 failed
        container.0.0 holds nothing
        container.0.0 is_loose
        ",
    },
];

#[test]
fn a_shelf_in_memory_keeps_what_was_appended_and_fails_as_planned(
    rt: HostRuntime,
) -> Result<(), Fail> {
    follow_all(rt, &SCRIPTS)
}

#[test]
fn a_shelf_of_no_files_fails_at_each_call(rt: HostRuntime) {
    for file in [
        File::Head,
        File::Seal(0),
        File::Book(0),
        File::Container(0, 1),
    ] {
        assert!(rt; fails_at_each_call(file));
    }
}

fn fails_at_each_call(file: File) -> bool {
    let mut shelf = NoShelf::new();
    for step in [
        "len failed",
        "read 0 1 failed",
        "append a failed",
        "cut 0 failed",
        "flush failed",
    ] {
        if !returns(&mut shelf, file, step) {
            return false;
        }
    }
    true
}
