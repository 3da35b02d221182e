//! The status and the note of each outcome.
use backup_top::{BadKind, BadParams, BadWords, Outcome, note_of, status_of};
use sd_base::Damage;
use std::test::Fail;

/// The name of 64 zeros, by `sha256sum`.
pub(crate) const SIXTY_FOUR_ZEROS: [u8; 32] = [
    0xf5, 0xa5, 0xfd, 0x42, 0xd1, 0x6a, 0x20, 0x30, 0x27, 0x98, 0xef, 0x6e, 0xd3, 0x09, 0x97, 0x9b,
    0x43, 0x00, 0x3d, 0x23, 0x20, 0xd9, 0xf0, 0xe8, 0xea, 0x98, 0x31, 0xa9, 0x27, 0x59, 0xfb, 0x4b,
];

// Outcomes, and their statuses and notes.
static NOTES: [(Outcome, u8, &str); 28] = [
    (Outcome::Done, 0, ""),
    (
        Outcome::BadWords(BadWords {
            kind: BadKind::Missing,
            place: 0,
        }),
        2,
        "backup: bad words at 0: missing\n",
    ),
    (
        Outcome::BadWords(BadWords {
            kind: BadKind::Name,
            place: 1,
        }),
        2,
        "backup: bad words at 1: name\n",
    ),
    (
        Outcome::BadWords(BadWords {
            kind: BadKind::Number,
            place: 2,
        }),
        2,
        "backup: bad words at 2: number\n",
    ),
    (
        Outcome::BadWords(BadWords {
            kind: BadKind::Twice,
            place: 12,
        }),
        2,
        "backup: bad words at 12: twice\n",
    ),
    (
        Outcome::BadParams(BadParams::Polynomial),
        14,
        "backup: bad parameter: polynomial\n",
    ),
    (
        Outcome::BadParams(BadParams::Max),
        14,
        "backup: bad parameter: max\n",
    ),
    (Outcome::NoStore, 3, "backup: no store\n"),
    (Outcome::StoreThere, 4, "backup: store already there\n"),
    (Outcome::NameTaken, 5, "backup: name taken\n"),
    (Outcome::NoSession, 6, "backup: no such session\n"),
    (Outcome::Damaged(Damage::Head), 7, "backup: damaged head\n"),
    (
        Outcome::Damaged(Damage::Record(2)),
        7,
        "backup: damaged record 2\n",
    ),
    (
        Outcome::Damaged(Damage::Recipe {
            session: 1,
            place: 4,
        }),
        7,
        "backup: damaged recipe 1 4\n",
    ),
    (
        Outcome::Damaged(Damage::Container {
            number: 0,
            needed: 80,
            found: 79,
        }),
        7,
        "backup: damaged container 0 needs 80 has 79\n",
    ),
    (
        Outcome::Damaged(Damage::Mark {
            number: 3,
            found: 0x5353_4350_0000_0004,
        }),
        7,
        "backup: damaged mark 3\n",
    ),
    (
        Outcome::Damaged(Damage::Chunk {
            number: 1,
            kept: SIXTY_FOUR_ZEROS,
            found: [0x0a; 32],
        }),
        7,
        "backup: damaged chunk 1 \
        kept f5a5fd42d16a20302798ef6ed309979b43003d2320d9f0e8ea9831a92759fb4b \
        found 0a0a0a0a0a0a0a0a0a0a0a0a0a0a0a0a0a0a0a0a0a0a0a0a0a0a0a0a0a0a0a0a\n",
    ),
    (
        Outcome::Damaged(Damage::Twin {
            first: 5,
            second: 9,
        }),
        7,
        "backup: damaged twin 5 9\n",
    ),
    (
        Outcome::Damaged(Damage::Order {
            session: 0,
            place: 7,
        }),
        7,
        "backup: damaged order 0 7\n",
    ),
    (
        Outcome::Damaged(Damage::Cut {
            session: 12,
            place: 0,
        }),
        7,
        "backup: damaged cut 12 0\n",
    ),
    (Outcome::InputTooLong, 8, "backup: input too long\n"),
    (Outcome::TooManySessions, 9, "backup: too many sessions\n"),
    (Outcome::TooManyPlaces, 9, "backup: too many places\n"),
    (Outcome::TooManyChunks, 9, "backup: too many chunks\n"),
    (Outcome::SourceFault, 10, "backup: reading failed\n"),
    (Outcome::SinkFault, 11, "backup: writing failed\n"),
    (Outcome::ShelfFault, 12, "backup: store failed\n"),
    (Outcome::OutOfMemory, 13, "backup: out of memory\n"),
];

#[test]
fn each_outcome_has_its_status_and_its_note(rt: HostRuntime) -> Result<(), Fail> {
    for (outcome, status, note) in &NOTES {
        let text = note_of(rt.alloc(), outcome)?;
        assert!(rt;
            status_of(outcome) == *status && text.as_str() == *note,
            "{note}"
        );
    }
    Ok(())
}
