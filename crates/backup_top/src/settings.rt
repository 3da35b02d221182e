//! What the words after a command set, by keys.

ghost use Rattle.std.specs.Prelude.{◌≡◌, ◌≤◌, [], ◌∷◌, Some, None, IfOk, OnOk, MatchOption};
ghost use Rattle.std.specs.List.{find};
ghost use Rattle.std.specs.Result.{result_err};
ghost use Rattle.std.specs.Str.{bytes_eq};
ghost use Rattle.sd_base.specs.Keys.{bad_kind_of, first_bad_word};
ghost use Rattle.sd_base.specs.Words.{ingest_keys, params_keys, segment_key, workers_key};
ghost use Rattle.backup_top.specs.Keys.{key_spec_of};
ghost use Rattle.backup_top.specs.Words.{key_of, keys_of, settings_after, settings_of, texts_of, with_value};

use crate::keys::{Key, Spelling, read_value, split_word};
use sd_base::{
    BadKind, BadWords, DEFAULT_BATCH, DEFAULT_BITS, DEFAULT_MAX, DEFAULT_MIN, DEFAULT_POLYNOMIAL,
    DEFAULT_SEGMENT, DEFAULT_SHARDS, DEFAULT_TARGET, DEFAULT_WORKERS, How, MAX_SEGMENT, MAX_SHARDS,
    MAX_WORKERS, RawParams,
};

/// What words set: the parameters of cutting, and how a command is carried out.
#[derive(Clone, Copy)]
pub struct Settings {
    pub raw: RawParams,
    pub how: How,
}

/// The commands with keys. `bulk` has those of `ingest`.
#[derive(Clone, Copy)]
pub enum KeySet {
    Plan,
    Init,
    Ingest,
}

/// Reads words that set keys of a command, from the first of them at a place, 1 to 3. Each word
/// before the one that fails sets a key of its own, so its place is at most 3 more than the number
/// of keys.
pub fn read_settings(words: &[String], keys: KeySet, place: u32) -> Result<Settings, BadWords>
    requires { place ≤ 3 }
    ensures bad { result_err result ≡ first_bad_word (keys_of keys) [] place (texts_of words.now) }
    ensures set { IfOk result (λ settings. settings ≡ settings_of (texts_of words.now)) }
{
    let mut settings = DEFAULT_SETTINGS;
    for (i, word) in words.iter().enumerate() {
        if let Err(kind) = set_key(&mut settings, keys, &words[..i], word.as_str()) {
            let place = i as u32 + place;
            return Err(BadWords { kind, place });
        }
    }
    Ok(settings)
}

// Sets what a word names, unless the word is bad after the words before it. Each parameter of 32
// bits is read, and `Params::new` refuses those out of its range.
fn set_key(
    settings: &mut Settings,
    keys: KeySet,
    before: &[String],
    word: &str,
) -> Result<(), BadKind>
    ensures bad { result_err result ≡ bad_kind_of (keys_of keys) (texts_of before.now) word.now }
    ensures set { OnOk result (settings.new ≡ settings_after word.now settings.old) }
{
    let Some((name, text)) = split_word(word) else {
        return Err(BadKind::Key);
    };
    let Some(setting) = setting_named(keys, name) else {
        return Err(BadKind::Key);
    };
    let value = read_value(&setting.key(), before, text)?;
    setting.set(settings, value);
    Ok(())
}

// What a command sets by the key of a name.
fn setting_named(keys: KeySet, name: &str) -> Option<Setting>
    ensures { MatchOption result (find (λ key. bytes_eq key.name name.now) (keys_of keys) ≡ None)
        (λ setting. (name.now ≡ (key_of setting).name)
        × (find (λ key. bytes_eq key.name name.now) (keys_of keys) ≡ Some (key_of setting))) }
{
    match keys {
        KeySet::Plan => match Setting::of_params(name) {
            Some(setting) => Some(setting),
            None => Setting::of_workers(name),
        },
        KeySet::Init => Setting::of_params(name),
        KeySet::Ingest => Setting::of_ingest(name),
    }
}

// What a word can set.
#[derive(Clone, Copy)]
enum Setting {
    Polynomial,
    Bits,
    Target,
    Min,
    Max,
    Workers,
    Segment,
    Shards,
}

impl Setting {
    // The parameter of a name.
    fn of_params(name: &str) -> Option<Setting>
        ensures { MatchOption result (find (λ key. bytes_eq key.name name.now) params_keys ≡ None)
            (λ setting. (name.now ≡ (key_of setting).name)
            × (find (λ key. bytes_eq key.name name.now) params_keys ≡ Some (key_of setting))) }
    {
        match name {
            "polynomial" => Some(Setting::Polynomial),
            "bits" => Some(Setting::Bits),
            "target" => Some(Setting::Target),
            "min" => Some(Setting::Min),
            "max" => Some(Setting::Max),
            _ => None,
        }
    }

    // What says how a scan is shared by workers, by its name.
    fn of_workers(name: &str) -> Option<Setting>
        ensures { MatchOption result (find (λ key. bytes_eq key.name name.now) (workers_key ∷ segment_key ∷ []) ≡ None)
            (λ setting. (name.now ≡ (key_of setting).name)
            × (find (λ key. bytes_eq key.name name.now) (workers_key ∷ segment_key ∷ []) ≡ Some (key_of setting))) }
    {
        match name {
            "workers" => Some(Setting::Workers),
            "segment" => Some(Setting::Segment),
            _ => None,
        }
    }

    // What says how an ingest is carried out, by its name.
    fn of_ingest(name: &str) -> Option<Setting>
        ensures { MatchOption result (find (λ key. bytes_eq key.name name.now) ingest_keys ≡ None)
            (λ setting. (name.now ≡ (key_of setting).name)
            × (find (λ key. bytes_eq key.name name.now) ingest_keys ≡ Some (key_of setting))) }
    {
        match name {
            "workers" => Some(Setting::Workers),
            "segment" => Some(Setting::Segment),
            "shards" => Some(Setting::Shards),
            _ => None,
        }
    }

    fn key(self) -> Key
        ensures { key_spec_of result ≡ key_of self }
    {
        match self {
            Setting::Polynomial => POLYNOMIAL,
            Setting::Bits => BITS,
            Setting::Target => TARGET,
            Setting::Min => MIN,
            Setting::Max => MAX,
            Setting::Workers => WORKERS,
            Setting::Segment => SEGMENT,
            Setting::Shards => SHARDS,
        }
    }

    fn set(self, settings: &mut Settings, value: u64)
        requires { value ≤ (key_of self).greatest }
        ensures { settings.new ≡ with_value self value settings.old }
    {
        match self {
            Setting::Polynomial => settings.raw.polynomial = value,
            Setting::Bits => settings.raw.bits = value as u32,
            Setting::Target => settings.raw.target = value as u32,
            Setting::Min => settings.raw.min = value as u32,
            Setting::Max => settings.raw.max = value as u32,
            Setting::Workers => settings.how.workers = value as u32,
            Setting::Segment => settings.how.segment = value as u32,
            Setting::Shards => settings.how.shards = value as u32,
        }
    }
}

const DEFAULT_SETTINGS: Settings = Settings {
    raw: RawParams {
        polynomial: DEFAULT_POLYNOMIAL,
        bits: DEFAULT_BITS,
        target: DEFAULT_TARGET,
        min: DEFAULT_MIN,
        max: DEFAULT_MAX,
    },
    how: How {
        workers: DEFAULT_WORKERS,
        segment: DEFAULT_SEGMENT,
        batch: DEFAULT_BATCH,
        shards: DEFAULT_SHARDS,
    },
};

const POLYNOMIAL: Key = Key {
    name: "polynomial",
    spelling: Spelling::Hexadecimal,
    least: 0,
    greatest: u64::MAX,
};

const BITS: Key = Key {
    name: "bits",
    spelling: Spelling::Decimal,
    least: 0,
    greatest: u32::MAX as u64,
};

const TARGET: Key = Key {
    name: "target",
    ..BITS
};

const MIN: Key = Key {
    name: "min",
    ..BITS
};

const MAX: Key = Key {
    name: "max",
    ..BITS
};

const WORKERS: Key = Key {
    name: "workers",
    spelling: Spelling::Decimal,
    least: 1,
    greatest: MAX_WORKERS as u64,
};

const SEGMENT: Key = Key {
    name: "segment",
    greatest: MAX_SEGMENT as u64,
    ..WORKERS
};

const SHARDS: Key = Key {
    name: "shards",
    greatest: MAX_SHARDS as u64,
    ..WORKERS
};
