//! The program: gathers the words, runs the tool over the standard streams and the store's folder,
//! and ends with the outcome's note and status.
#![tactic(auto)]

use backup_top::{BadKind, BadWords, Outcome, note_of, run, status_of};
use edge_traits::{FolderShelf, StdSink, StdSource};
use std::fs::File;
use std::process::ExitCode;
use std::{env, io};

fn main(rt: HostRuntime) -> ExitCode {
    let _streams = hold_streams(&rt);
    let outcome = match call_of(rt) {
        Ok((mut shelf, words)) => run(
            &rt,
            rt.alloc(),
            words.as_slice(),
            &mut StdSource::new(rt),
            &mut StdSink::new(rt),
            &mut shelf,
        ),
        Err(outcome) => outcome,
    };
    report(&rt, &outcome);
    ExitCode::from(status_of(&outcome))
}

// The shelf over the folder that the first word names, or an empty path if there is no word, and
// the words after it.
fn call_of(rt: HostRuntime) -> Result<(FolderShelf<HostRuntime>, Vec<String>), Outcome> {
    let mut args = env::args(&rt).map_err(outcome_of_args)?;
    args.next();
    let folder = args.next().unwrap_or(String::new(rt.alloc()));
    let shelf = FolderShelf::new(rt, rt.alloc(), folder.as_str()).map_err(
        |_| Outcome::OutOfMemory,
    )?;
    let words = args.collect(rt.alloc()).map_err(|_| Outcome::OutOfMemory)?;
    Ok((shelf, words))
}

// Words that are no text name no command; the runtime does not say at which place one is.
fn outcome_of_args(error: io::Error) -> Outcome {
    if error.kind() == io::ErrorKind::OutOfMemory {
        return Outcome::OutOfMemory;
    }
    Outcome::BadWords(BadWords {
        kind: BadKind::Command,
        place: 0,
    })
}

// Opens a folder three times and keeps it open. The system gives the next file that is opened the
// lowest free number. If a standard stream is closed, that would be the stream's, and what is
// written to the stream would end up in a file of the store. A folder can be neither read nor
// written, so a closed stream fails.
fn hold_streams(rt: &HostRuntime) -> [io::Result<File>; 3] {
    [
        File::open(rt, "/"),
        File::open(rt, "/"),
        File::open(rt, "/"),
    ]
}

fn report(rt: &(impl Eprint + AllocGlobal), outcome: &Outcome) {
    let _ = match note_of(rt.alloc(), outcome) {
        Ok(note) => eprint!(rt; "{note}"),
        Err(_) => eprint!(rt; "backup: out of memory\n"),
    };
}
