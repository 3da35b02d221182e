ghost use Rattle.std.specs.Prelude.{◌≡◌};
ghost use Rattle.container_pack.specs.Packer.{chunk_count};

use crate::shelf_steps::{bytes_of, file_of, first_word, is_done, is_failure, is_number, returns};
use container_pack::{Packer, Spot, read_chunk};
use edge_traits::{File, MemShelf, ShelfFail};
use sd_base::{MAX_CHUNK_LEN, MAX_CHUNKS, OutOfMemory};
use std::test::Fail;

/// Steps on a shelf in memory and a packer of generation 0 after no chunks. Besides the calls on a
/// file and looks at one, there are these: `resume 3 abc` (from now on, a packer of generation 3
/// after a chunk of three bytes), `add abc 0 8` (a chunk is appended and has this spot),
/// `read 0 1 8 3 abc` (of generation 0, from offset 8 of container 1, a chunk of three bytes) and
/// `flush done`.
pub(crate) struct Script {
    /// What the steps show.
    pub(crate) title: &'static str,
    /// The calls of the shelf that fail.
    pub(crate) failing: &'static [u32],
    /// How much they keep. The steps are followed once for each of these.
    pub(crate) kept: &'static [u32],
    pub(crate) steps: &'static str,
}

/// Follows the scripts. The first step that does not go as it has to is the failure: the title,
/// what was kept, and the line, counted from 0.
pub(crate) fn follow_all(rt: HostRuntime, scripts: &[Script]) -> Result<(), Fail> {
    for script in scripts {
        for kept in script.kept {
            if let Some(line) = first_wrong_line(rt, script, *kept)? {
                return Err(Fail::from((script.title, *kept, line)));
            }
        }
    }
    Ok(())
}

fn first_wrong_line(
    rt: HostRuntime,
    script: &Script,
    kept: u32,
) -> Result<Option<usize>, OutOfMemory> {
    let mut shelf = shelf_with(rt, script.failing, kept)?;
    let mut packer = Counted::after("0 nothing");
    for (number, line) in script.steps.lines().enumerate() {
        let step = line.trim();
        if !step.is_empty() && !goes_well(rt, &mut shelf, &mut packer, step) {
            return Ok(Some(number));
        }
    }
    Ok(None)
}

/// A shelf of which these calls fail and keep so much.
fn shelf_with(rt: HostRuntime, calls: &[u32], kept: u32) -> Result<MemShelf, OutOfMemory> {
    let mut failing = Vec::new(rt.alloc());
    for call in calls {
        failing.push(ShelfFail { call: *call, kept })?;
        // The second entry of a call has no effect.
        failing.push(ShelfFail {
            call: *call,
            kept: 9,
        })?;
    }
    Ok(MemShelf::new(rt.alloc(), failing))
}

fn goes_well(rt: HostRuntime, shelf: &mut MemShelf, packer: &mut Counted, step: &str) -> bool {
    let (word, rest) = first_word(step);
    match word {
        "resume" => {
            *packer = Counted::after(rest);
            true
        }
        "add" => packer.adds(shelf, rest),
        "flush" => is_done(packer.packer.flush(shelf), rest),
        "read" => reads_chunk(rt, shelf, rest),
        _ => match file_of(word) {
            Some(file) => goes_well_on(shelf, file, rest),
            None => false,
        },
    }
}

/// Whether a look at a file finds this, or a call on it returns this.
fn goes_well_on(shelf: &mut MemShelf, file: File, step: &str) -> bool {
    let (word, rest) = first_word(step);
    match word {
        "put" => shelf.put_file(file, bytes_of(rest)).is_ok(),
        "holds" => shelf.file(file) == bytes_of(rest),
        "begins" => shelf.file(file).starts_with(bytes_of(rest)),
        "ends" => shelf.file(file).ends_with(bytes_of(rest)),
        "has_length" => is_number(Ok(shelf.file(file).len() as u64), rest),
        "is_loose" => shelf.is_loose(file),
        "is_not_loose" => !shelf.is_loose(file),
        _ => returns(shelf, file, step),
    }
}

/// A packer that knows how many chunks it has, and so takes none that it may not be given.
#[derive(Drop)]
struct Counted {
    packer: Packer,
    chunks: u32,
    ghost counted: { chunk_count packer ≡ chunks },
}

impl Counted {
    /// A packer of a generation after some chunks.
    fn after(words: &str) -> Self {
        let (generation, chunks) = first_word(words);
        let generation = small(generation);
        let max = MAX_CHUNK_LEN;
        match chunks {
            "abc" => Counted {
                packer: Packer::resume(generation, &[3]),
                chunks: 1,
            },
            "three_longest" => Counted {
                packer: Packer::resume(generation, &[max, max, max]),
                chunks: 3,
            },
            "three_longest_but_one_byte" => Counted {
                packer: Packer::resume(generation, &[max, max, max - 1]),
                chunks: 3,
            },
            _ => Counted {
                packer: Packer::resume(generation, &[]),
                chunks: 0,
            },
        }
    }

    fn adds(&mut self, shelf: &mut MemShelf, rest: &str) -> bool {
        let (chunk, wanted) = first_word(rest);
        let chunk = bytes_of(chunk);
        if chunk.is_empty() || chunk.len() > MAX_CHUNK_LEN as usize || self.chunks >= MAX_CHUNKS {
            return false;
        }
        match self.packer.append_chunk(shelf, chunk) {
            Ok(spot) => {
                self.chunks += 1;
                spot == spot_of(first_word(wanted))
            }
            Err(fault) => is_failure(fault, wanted),
        }
    }
}

fn reads_chunk(rt: HostRuntime, shelf: &mut MemShelf, rest: &str) -> bool {
    let (generation, rest) = first_word(rest);
    let (container, rest) = first_word(rest);
    let (offset, rest) = first_word(rest);
    let (length, wanted) = first_word(rest);
    let at = spot_of((container, offset));
    match read_chunk(rt.alloc(), shelf, small(generation), at, small(length)) {
        Ok(chunk) => chunk.as_slice() == bytes_of(wanted),
        Err(fault) => is_failure(fault, wanted),
    }
}

fn spot_of(words: (&str, &str)) -> Spot {
    Spot {
        container: small(words.0),
        offset: small(words.1),
    }
}

/// The number that a word spells, or else the greatest, as which it fails.
fn small(word: &str) -> u32 {
    word.parse::<u32>().unwrap_or(u32::MAX)
}
