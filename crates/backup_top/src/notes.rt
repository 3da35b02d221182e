ghost use Rattle.std.specs.Prelude.{◌≡◌, IfOk, Some, string_bytes};
ghost use Rattle.hex.specs.Hex.{encode_lower};
ghost use Rattle.backup_top.specs.Notes.{damage_text, kind_text, note, parameter_text, status};

use sd_base::{BadKind, BadParams, DIGEST_LEN, Damage, OutOfMemory, Outcome};
use std::alloc::Global;
use std::fmt;

/// The status with which the program ends. It takes no memory.
pub fn status_of(outcome: &Outcome) -> u8
    ensures { result ≡ status outcome.now }
{
    match outcome {
        Outcome::Done => 0,
        Outcome::BadWords(_) => 2,
        Outcome::NoStore => 3,
        Outcome::StoreThere => 4,
        Outcome::NameTaken => 5,
        Outcome::NoSession => 6,
        Outcome::Damaged(_) => 7,
        Outcome::InputTooLong => 8,
        Outcome::TooManySessions | Outcome::TooManyPlaces | Outcome::TooManyChunks => 9,
        Outcome::SourceFault => 10,
        Outcome::SinkFault => 11,
        Outcome::ShelfFault => 12,
        Outcome::OutOfMemory => 13,
        Outcome::BadParams(_) => 14,
    }
}

/// The note of an outcome: a line for standard error, with its line feed, or nothing if all is
/// done. It fails only if memory runs out.
pub fn note_of(alloc: Global, outcome: &Outcome) -> Result<String, OutOfMemory>
    ensures { IfOk result (λ text. string_bytes text ≡ note outcome.now) }
{
    let note = Note(*outcome);
    Ok(format!(in alloc; "{note}")?)
}

// The note of an outcome, as it is printed.
#[derive(Clone, Copy)]
struct Note(Outcome);

impl fmt::Display for Note {
    ghost output = { λ printed. Some (note printed.0) };

    fn fmt<W: fmt::Write>(&self, f: &mut fmt::Formatter<W>) -> fmt::Result {
        match self.0 {
            Outcome::Done => Ok(()),
            Outcome::BadWords(bad) => {
                let place = bad.place;
                let kind = text_of_kind(bad.kind);
                writeln!(f, "backup: bad words at {place}: {kind}")
            }
            Outcome::BadParams(kind) => {
                let parameter = text_of_parameter(kind);
                writeln!(f, "backup: bad parameter: {parameter}")
            }
            Outcome::NoStore => writeln!(f, "backup: no store"),
            Outcome::StoreThere => writeln!(f, "backup: store already there"),
            Outcome::NameTaken => writeln!(f, "backup: name taken"),
            Outcome::NoSession => writeln!(f, "backup: no such session"),
            Outcome::Damaged(damage) => {
                let damage = DamageText(damage);
                writeln!(f, "backup: damaged {damage}")
            }
            Outcome::InputTooLong => writeln!(f, "backup: input too long"),
            Outcome::TooManySessions => writeln!(f, "backup: too many sessions"),
            Outcome::TooManyPlaces => writeln!(f, "backup: too many places"),
            Outcome::TooManyChunks => writeln!(f, "backup: too many chunks"),
            Outcome::SourceFault => writeln!(f, "backup: reading failed"),
            Outcome::SinkFault => writeln!(f, "backup: writing failed"),
            Outcome::ShelfFault => writeln!(f, "backup: store failed"),
            Outcome::OutOfMemory => writeln!(f, "backup: out of memory"),
        }
    }
}

// What is damaged, as a note says it.
#[derive(Clone, Copy)]
struct DamageText(Damage);

impl fmt::Display for DamageText {
    ghost output = { λ printed. Some (damage_text printed.0) };

    fn fmt<W: fmt::Write>(&self, f: &mut fmt::Formatter<W>) -> fmt::Result {
        match self.0 {
            Damage::Head => write!(f, "head"),
            Damage::Record(number) => write!(f, "record {number}"),
            Damage::Recipe { session, place } => write!(f, "recipe {session} {place}"),
            Damage::Container {
                number,
                needed,
                found,
            } => { write!(f, "container {number} needs {needed} has {found}") }
            Damage::Mark { number, .. } => write!(f, "mark {number}"),
            Damage::Chunk {
                number,
                kept,
                found,
            } => {
                let (kept, found) = (Digits(kept), Digits(found));
                write!(f, "chunk {number} kept {kept} found {found}")
            }
            Damage::Twin { first, second } => write!(f, "twin {first} {second}"),
            Damage::Order { session, place } => write!(f, "order {session} {place}"),
            Damage::Cut { session, place } => write!(f, "cut {session} {place}"),
        }
    }
}

// The name of a chunk in lower-case hexadecimal digits.
#[derive(Clone, Copy)]
struct Digits([u8; DIGEST_LEN]);

impl fmt::Display for Digits {
    ghost output = { λ name. Some (encode_lower name.0) };

    fn fmt<W: fmt::Write>(&self, f: &mut fmt::Formatter<W>) -> fmt::Result {
        let mut digits = [0; 2 * DIGEST_LEN];
        hex::encode_to_slice(self.0.as_slice(), &mut digits).map_err(|_| fmt::Error)?;
        f.write_str(str::from_utf8(&digits).map_err(|_| fmt::Error)?)
    }
}

fn text_of_parameter(kind: BadParams) -> &'static str
    ensures { result.now ≡ parameter_text kind }
{
    match kind {
        BadParams::Polynomial => "polynomial",
        BadParams::Bits => "bits",
        BadParams::Target => "target",
        BadParams::Min => "min",
        BadParams::Max => "max",
    }
}

fn text_of_kind(kind: BadKind) -> &'static str
    ensures { result.now ≡ kind_text kind }
{
    match kind {
        BadKind::Missing => "missing",
        BadKind::Command => "command",
        BadKind::Name => "name",
        BadKind::Number => "number",
        BadKind::Key => "key",
        BadKind::Twice => "twice",
        BadKind::Value => "value",
    }
}
