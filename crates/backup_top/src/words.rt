ghost use Rattle.std.specs.Prelude.{◌≡◌, ◌≤◌, ℕ, List, [], ◌∷◌, IfOk, Some, None, is_some, if◌then◌else◌};
ghost use Rattle.std.specs.Result.{result_err};
ghost use Rattle.sd_base.specs.Keys.{first_bad_word, number_of};
ghost use Rattle.sd_base.specs.Names.{bad_name};
ghost use Rattle.sd_base.specs.Words.{audit_of, bulk_of, bulk_of_seed, command_of, drop_of, ingest_of, init_of, list_of, plan_of, refs_of, restore_of, session_command_of};
ghost use Rattle.backup_top.specs.Keys.{key_spec_of};
ghost use Rattle.backup_top.specs.Words.{command_with, texts_of};

use crate::keys::{Key, Spelling, parse_value};
use crate::settings::{KeySet, read_settings};
use sd_base::{BadKind, BadWords, Command, MAX_BLOCKS, Name, Quiet};

/// Reads the words of the command line, without the path of the store: returns the command that
/// they name, or the first word that fails. It takes no memory.
pub fn read_words(words: &[String]) -> Result<Command, BadWords>
    ensures { result ≡ command_of (texts_of words.now) }
{
    match words {
        [] => Err(BadWords {
            kind: BadKind::Missing,
            place: 0,
        }),
        [command, words @ ..] => read_command(command.as_str(), words),
    }
}

// Reads the name of a command and the words after it.
fn read_command(command: &str, words: &[String]) -> Result<Command, BadWords>
    ensures { result ≡ command_of (command.now ∷ texts_of words.now) }
{
    match command {
        "plan" => read_plan(words),
        "init" => read_init(words),
        "ingest" => read_ingest(words),
        "bulk" => read_bulk(words),
        "list" => read_list(words),
        "restore" => read_restore(words),
        "drop" => read_drop(words),
        "refs" => read_refs(words),
        "audit" => read_audit(words),
        _ => Err(BadWords {
            kind: BadKind::Command,
            place: 0,
        }),
    }
}

// Reads the words after `plan`.
fn read_plan(words: &[String]) -> Result<Command, BadWords>
    ensures { result ≡ plan_of (texts_of words.now) }
{
    let set = read_settings(words, KeySet::Plan, 1)?;
    Ok(Command::Quiet(Quiet::Plan {
        raw: set.raw,
        workers: set.how.workers,
        segment: set.how.segment,
    }))
}

// Reads the words after `init`.
fn read_init(words: &[String]) -> Result<Command, BadWords>
    ensures { result ≡ init_of (texts_of words.now) }
{
    let set = read_settings(words, KeySet::Init, 1)?;
    Ok(Command::Quiet(Quiet::Init { raw: set.raw }))
}

// Reads the words after `ingest`.
fn read_ingest(words: &[String]) -> Result<Command, BadWords>
    ensures { result ≡ ingest_of (texts_of words.now) }
{
    match words {
        [] => Err(BadWords {
            kind: BadKind::Missing,
            place: 1,
        }),
        [name, words @ ..] => {
            let name = read_name(name.as_str())?;
            let set = read_settings(words, KeySet::Ingest, 2)?;
            Ok(Command::Ingest { name, how: set.how })
        }
    }
}

// Reads the words after `bulk`.
fn read_bulk(words: &[String]) -> Result<Command, BadWords>
    ensures { result ≡ bulk_of (texts_of words.now) }
{
    match words {
        [] => Err(BadWords {
            kind: BadKind::Missing,
            place: 1,
        }),
        [seed, words @ ..] => {
            let seed = read_number(&SEED, seed.as_str(), 1)?;
            read_blocks(seed, words)
        }
    }
}

// Reads the words after the seed of `bulk`.
fn read_blocks(seed: u64, words: &[String]) -> Result<Command, BadWords>
    ensures { result ≡ bulk_of_seed (Some seed) (texts_of words.now) }
{
    match words {
        [] => Err(BadWords {
            kind: BadKind::Missing,
            place: 2,
        }),
        [blocks, words @ ..] => {
            let blocks = read_number(&BLOCKS, blocks.as_str(), 2)?;
            let set = read_settings(words, KeySet::Ingest, 3)?;
            Ok(Command::Bulk {
                seed,
                blocks: blocks as u32,
                how: set.how,
            })
        }
    }
}

// Reads a word that is a number, at a place.
fn read_number(number: &Key, word: &str, place: u32) -> Result<u64, BadWords>
    ensures refused { result_err result ≡ (if is_some (number_of (key_spec_of number.now) word.now) then None
        else Some (record { kind = BadKind.Number; place = place })) }
    ensures value { IfOk result (λ value. number_of (key_spec_of number.now) word.now ≡ Some value) }
    ensures in_range { IfOk result (λ value. value ≤ number.now.greatest) }
{
    parse_value(number, word).ok_or(BadWords {
        kind: BadKind::Number,
        place,
    })
}

// Reads the words after `list`.
fn read_list(words: &[String]) -> Result<Command, BadWords>
    ensures { result ≡ list_of (texts_of words.now) }
{
    refuse_keys(words, 1)?;
    Ok(Command::Quiet(Quiet::List))
}

// Reads the words after `restore`.
fn read_restore(words: &[String]) -> Result<Command, BadWords>
    ensures { result ≡ restore_of (texts_of words.now) }
{
    let name = read_only_name(words)?;
    Ok(Command::Quiet(Quiet::Restore { name }))
}

// Reads the words after `drop`.
fn read_drop(words: &[String]) -> Result<Command, BadWords>
    ensures { result ≡ drop_of (texts_of words.now) }
{
    let name = read_only_name(words)?;
    Ok(Command::Quiet(Quiet::Drop { name }))
}

// Reads the words after `refs`.
fn read_refs(words: &[String]) -> Result<Command, BadWords>
    ensures { result ≡ refs_of (texts_of words.now) }
{
    refuse_keys(words, 1)?;
    Ok(Command::Quiet(Quiet::Refs))
}

// Reads the words after `audit`.
fn read_audit(words: &[String]) -> Result<Command, BadWords>
    ensures { result ≡ audit_of (texts_of words.now) }
{
    refuse_keys(words, 1)?;
    Ok(Command::Quiet(Quiet::Audit))
}

// Reads the words after a command that takes the name of a session and no keys.
fn read_only_name(words: &[String]) -> Result<Name, BadWords>
    ensures { (command : List ℕ → Command) → session_command_of [] (λ name more. command name) (texts_of words.now)
        ≡ command_with command result }
{
    match words {
        [] => Err(BadWords {
            kind: BadKind::Missing,
            place: 1,
        }),
        [name, words @ ..] => {
            let name = read_name(name.as_str())?;
            refuse_keys(words, 2)?;
            Ok(name)
        }
    }
}

// Reads the name of a session, the first word after a command.
fn read_name(word: &str) -> Result<Name, BadWords>
    ensures refused { result_err result
        ≡ (if is_some (bad_name word.now) then Some (record { kind = BadKind.Name; place = 1 }) else None) }
    ensures made { IfOk result (λ name. name ≡ word.now) }
{
    Name::read(word.as_bytes()).map_err(|_| BadWords {
        kind: BadKind::Name,
        place: 1,
    })
}

// Reads words that set no key: the first of them, at a place, is refused.
fn refuse_keys(words: &[String], place: u32) -> Result<(), BadWords>
    ensures { result_err result ≡ first_bad_word [] [] place (texts_of words.now) }
{
    match words {
        [] => Ok(()),
        [_, ..] => Err(BadWords {
            kind: BadKind::Key,
            place,
        }),
    }
}

// The numbers of `bulk`.
const SEED: Key = Key {
    name: "SEED",
    spelling: Spelling::Decimal,
    least: 0,
    greatest: u64::MAX,
};

const BLOCKS: Key = Key {
    name: "BLOCKS",
    spelling: Spelling::Decimal,
    least: 1,
    greatest: MAX_BLOCKS as u64,
};
