use crate::faulty_files::{Faulty, Plan};
use crate::shelf_steps::{bytes_of, file_of, first_word, number_of, returns};
use edge_traits::{File, FolderShelf, Shelf};
use std::fs;
use std::os::unix::fs::symlink;
use std::sync::atomic::Ordering::SeqCst;
use std::test::Fail;

// Scripts of a shelf of a folder. Besides the calls on a file there are these steps:
//
//   folder odd              a folder is made
//   file left/head ab       a file is made that has these bytes
//   link odd/head seal.0    a link is made, to this
//   on_disk left/head ab    a file has these bytes on disk
//   absent odd              there is no file and no folder of this name
//   each len 0              a call on each of the six `FILES` in turn
//   failing_sync 2          the sync of this number will fail, counted from 1
//   failing_cut 3           no file can be cut to this length
//   interruptions 64        so many of the next reads and writes are interrupted
//   interruptions_left 0    so many of them are left
//   syncs 2                 so many syncs were made so far

/// What the steps show, the folder, and the steps.
type Script = (&'static str, &'static str, &'static str);

// Containers 3 and 67 share a place in the table.
static FILES: [File; 6] = [
    File::Head,
    File::Seal(4_294_967_295),
    File::Book(10),
    File::Container(0, 3),
    File::Container(0, 67),
    File::Container(1, 3),
];

/// Follows a script on a shelf of a folder of the system's files.
fn follow(rt: HostRuntime, script: &Script) -> Result<(), Fail> {
    let mut shelf = FolderShelf::new(rt, rt.alloc(), script.1)?;
    follow_on(rt, &Plan::new(), &mut shelf, script)
}

/// Follows a script on a shelf of a folder of files with which things go wrong as planned.
fn follow_faulty(rt: HostRuntime, script: &Script) -> Result<(), Fail> {
    let plan = Plan::new();
    let mut shelf = FolderShelf::new(Faulty { rt, plan: &plan }, rt.alloc(), script.1)?;
    follow_on(rt, &plan, &mut shelf, script)
}

/// The first step that does not go as it has to is the failure: the title, and the line, counted
/// from 0.
fn follow_on<S: Shelf>(
    rt: HostRuntime,
    plan: &Plan,
    shelf: &mut S,
    script: &Script,
) -> Result<(), Fail> {
    for (number, line) in script.2.lines().enumerate() {
        let step = line.trim();
        if !step.is_empty() && !goes_well(rt, plan, shelf, step) {
            return Err(Fail::from((script.0, number)));
        }
    }
    Ok(())
}

fn goes_well<S: Shelf>(rt: HostRuntime, plan: &Plan, shelf: &mut S, step: &str) -> bool {
    let (word, rest) = first_word(step);
    if let Some(file) = file_of(word) {
        return returns(shelf, file, rest);
    }
    match word {
        "each" => all_return(shelf, rest),
        "failing_sync" | "failing_cut" | "interruptions" | "interruptions_left" | "syncs" => {
            is_planned(plan, word, number_of(rest))
        }
        _ => is_on_disk(rt, word, rest),
    }
}

fn all_return<S: Shelf>(shelf: &mut S, step: &str) -> bool {
    for file in &FILES {
        if !returns(shelf, *file, step) {
            return false;
        }
    }
    true
}

fn is_planned(plan: &Plan, word: &str, number: u64) -> bool {
    match word {
        "failing_sync" => plan.failing_sync.store(number, SeqCst),
        "failing_cut" => plan.failing_length.store(number, SeqCst),
        "interruptions" => plan.interruptions.store(number, SeqCst),
        "interruptions_left" => return plan.interruptions.load(SeqCst) == number,
        _ => return plan.syncs.load(SeqCst) == number,
    }
    true
}

fn is_on_disk(rt: HostRuntime, word: &str, rest: &str) -> bool {
    let (path, rest) = first_word(rest);
    match word {
        "folder" => fs::create_dir(&rt, path).is_ok(),
        "file" => fs::write(&rt, path, bytes_of(rest)).is_ok(),
        "link" => symlink(&rt, rest, path).is_ok(),
        "on_disk" => has_file(rt, path, bytes_of(rest)),
        "absent" => !fs::exists(&rt, path).unwrap_or(true),
        _ => false,
    }
}

fn has_file(rt: HostRuntime, path: &str, bytes: &[u8]) -> bool {
    match fs::read(&rt, path) {
        Ok(found) => found.as_slice() == bytes,
        Err(_) => false,
    }
}

static WITH_FILES: [Script; 5] = [
    (
        "what is appended and cut is on disk",
        "bytes",
        "
        folder bytes
        each len 0
        each read 0 8 nothing
        each append abcd done
        each append ef done
        each cut 9 done
        each len 6
        each cut 5 done
        each append g done
        each flush done
        on_disk bytes/head abcdeg
        on_disk bytes/seal.4294967295 abcdeg
        on_disk bytes/book.10 abcdeg
        on_disk bytes/container.0.3 abcdeg
        on_disk bytes/container.0.67 abcdeg
        on_disk bytes/container.1.3 abcdeg
        ",
    ),
    (
        // A file that is open for reading is appended to and cut.
        "another shelf reads what was appended and cut",
        "bytes",
        "
        each len 6
        each read 3 8 deg
        each read 6 8 nothing
        each read 18446744073709551615 8 nothing
        each append hi done
        each cut 7 done
        each len 7
        each read 5 8 gh
        ",
    ),
    (
        "a folder that does not exist is not made",
        "nowhere",
        "
        head len 0
        head read 0 1 nothing
        head cut 0 done
        head flush done
        head append a failed
        head len 0
        absent nowhere
        ",
    ),
    (
        "the folder with no name does not exist",
        "",
        "
        head len 0
        head read 0 1 nothing
        head cut 0 done
        head flush done
        head append a failed
        head len 0
        ",
    ),
    (
        "what is no regular file has failed",
        "odd",
        "
        folder odd
        folder odd/head
        link odd/seal.0 seal.0
        head len failed
        head read 0 1 failed
        head append a failed
        head cut 0 failed
        seal.0 len failed
        seal.0 read 0 1 failed
        seal.0 append a failed
        seal.0 cut 0 failed
        ",
    ),
];

#[test]
fn a_folder_keeps_what_was_appended_and_cut(rt: HostRuntime) -> Result<(), Fail> {
    for script in &WITH_FILES {
        follow(rt, script)?;
    }
    Ok(())
}

static WITH_FAULTY_FILES: [Script; 12] = [
    // The first sync is of the file, the second of the folder, and the third of the other file.
    (
        "a flush whose first sync fails is never taken for done",
        "frail",
        "
        folder frail
        failing_sync 1
        head append a done
        book.0 append b done
        seal.0 flush done
        syncs 0
        head flush failed
        book.0 flush failed
        book.0 flush failed
        head flush failed
        syncs 1
        ",
    ),
    (
        "a flush whose sync of the folder fails is never taken for done",
        "frail",
        "
        failing_sync 2
        head append a done
        book.0 append b done
        seal.0 flush done
        syncs 0
        head flush failed
        book.0 flush failed
        book.0 flush failed
        head flush failed
        syncs 2
        ",
    ),
    (
        "after a failed flush no file is flushed",
        "frail",
        "
        failing_sync 3
        head append a done
        book.0 append b done
        seal.0 flush done
        syncs 0
        head flush done
        book.0 flush failed
        book.0 flush failed
        head flush failed
        syncs 3
        ",
    ),
    (
        // A flush after a file was made is two syncs, of the file and of the folder.
        "what changed after a flush is flushed again",
        "again",
        "
        folder again
        head append ab done
        head flush done
        syncs 2
        head append c done
        head flush done
        syncs 3
        head cut 1 done
        head flush done
        syncs 4
        book.0 append d done
        book.0 flush done
        syncs 6
        ",
    ),
    (
        "a failed append leaves its first bytes",
        "short",
        "
        folder short
        head append ab!c failed
        head len 2
        head append d done
        head len 3
        on_disk short/head abd
        ",
    ),
    (
        // A cut that changes nothing opens no file. One sync is of the file and one of the folder.
        "the first flush reaches what an earlier run left",
        "left",
        "
        folder left
        file left/seal.0 a
        seal.0 cut 1 done
        seal.0 flush done
        syncs 2
        seal.0 flush done
        syncs 2
        ",
    ),
    (
        "a folder that cannot be opened is never flushed",
        "shut",
        "
        folder shut
        head append a done
        head flush failed
        head flush failed
        ",
    ),
    (
        // The second cut is of a file whose length is known.
        "a failed cut is not taken for done",
        "long",
        "
        folder long
        file long/book.0 abcdef
        failing_cut 3
        book.0 cut 3 failed
        book.0 len 6
        book.0 cut 3 failed
        book.0 len 6
        book.0 append g done
        book.0 cut 3 failed
        book.0 len 7
        book.0 cut 4 done
        book.0 len 4
        on_disk long/book.0 abcd
        ",
    ),
    (
        // The file ends before the second piece is full.
        "a read goes on until its piece is full",
        "slow",
        "
        folder slow
        file slow/head abcdef
        head read 1 4 bcde
        head read 4 4 ef
        ",
    ),
    (
        "a failed read is no end of a file",
        "torn",
        "
        folder torn
        file torn/head ab!d
        head read 0 4 failed
        head read 2 4 failed
        head read 0 4 failed
        head read 0 2 ab
        head read 3 4 d
        head len 4
        ",
    ),
    (
        "an interrupted call on a file is made again 64 times",
        "rung",
        "
        folder rung
        interruptions 1
        head append a done
        interruptions_left 0
        interruptions 1
        head read 0 1 a
        interruptions_left 0
        interruptions 64
        head append a done
        interruptions_left 0
        interruptions 64
        head read 0 1 a
        interruptions_left 0
        ",
    ),
    (
        "a call on a file that is interrupted 65 times has failed",
        "rung",
        "
        interruptions 65
        head append a failed
        interruptions_left 0
        interruptions 65
        head read 0 1 failed
        interruptions_left 0
        on_disk rung/head aa
        ",
    ),
];

#[test]
fn a_fault_of_the_files_is_never_taken_for_done(rt: HostRuntime) -> Result<(), Fail> {
    for script in &WITH_FAULTY_FILES {
        follow_faulty(rt, script)?;
    }
    Ok(())
}
