use sd_base::BadName::{Length, Letter};
use sd_base::{BadName, Name};

// Whether bytes are read as the name that they are, or refused in this way.
fn reading_is(bytes: &[u8], want: Option<BadName>) -> bool {
    match Name::read(bytes) {
        Ok(name) => want.is_none() && name.as_bytes() == bytes,
        Err(bad) => Some(bad) == want,
    }
}

static WORDS: [(&[u8], Option<BadName>); 16] = [
    (b"", Some(Length)),
    (b"a", None),
    (b"9", None),
    (b"Z", None),
    (b"a.b_c-1", None),
    (b"a..", None),
    (b".x", Some(Letter)),
    (b"-x", Some(Letter)),
    (b"_x", Some(Letter)),
    (b"a/b", Some(Letter)),
    (b"a b", Some(Letter)),
    (b"a\0", Some(Letter)),
    (b"a\xe9", Some(Letter)),
    (b"/", Some(Letter)),
    (&[b'a'; 64], None),
    (&[b'a'; 65], Some(Length)),
];

#[test]
fn only_names_are_read(rt: HostRuntime) {
    for &(bytes, want) in &WORDS {
        assert!(rt; reading_is(bytes, want), "of {} bytes", bytes.len());
    }
}

// Whether two names are in the order of these numbers.
fn order_is(name: &[u8], other: &[u8], index: usize, other_index: usize) -> bool {
    match (Name::read(name), Name::read(other)) {
        (Ok(name), Ok(other)) => {
            name.cmp(&other) == index.cmp(&other_index) && (name == other) == (index == other_index)
        }
        _ => false,
    }
}

static RISING: [&[u8]; 6] = [b"0", b"A", b"Z", b"a", b"a.b", b"ab"];

#[test]
fn names_are_in_the_order_of_their_bytes(rt: HostRuntime) {
    for (index, name) in RISING.iter().enumerate() {
        for (other_index, other) in RISING.iter().enumerate() {
            assert!(rt;
                order_is(name, other, index, other_index),
                "{index} and {other_index}"
            );
        }
    }
}
