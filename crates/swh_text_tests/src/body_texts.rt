// Ids as text, refs, persons, numbers, URLs, escapes and pieces.
use std::test::Fail;
use swh_base::{
    Kind, Name, Url, UrlFault, are_digits, behind, escape, is_digit, is_lower_hex_digit, is_person,
    is_ref, is_url, number_of, split_at_byte,
};

const ID: [u8; 40] = *b"e69de29bb2d1d6434b8b29ae775ad8c2e48c5391";

// An upper-case digit, a digit too few, one too many.
static NO_IDS: [&[u8]; 3] = [
    b"E69de29bb2d1d6434b8b29ae775ad8c2e48c5391",
    b"e69de29bb2d1d6434b8b29ae775ad8c2e48c539",
    b"e69de29bb2d1d6434b8b29ae775ad8c2e48c53911",
];

#[test]
fn ids_as_text(rt: HostRuntime) -> Result<(), Fail> {
    let name = Name::from_hex(Kind::Content, &ID).ok_or("an id")?;
    let mut out = [0; 40];
    name.hex(&mut out);
    assert!(rt; out == ID);
    for text in &NO_IDS {
        assert!(rt; Name::from_hex(Kind::Content, text).is_none());
    }
    Ok(())
}

struct Text {
    bytes: &'static [u8],
    is_ref: bool,
    is_person: bool,
    number: Option<u64>,
    are_digits: bool,
}

static TEXTS: [Text; 7] = [
    Text {
        bytes: b"refs/heads/main",
        is_ref: true,
        is_person: false,
        number: None,
        are_digits: false,
    },
    Text {
        bytes: b"refs/heads/a b",
        is_ref: false,
        is_person: false,
        number: None,
        are_digits: false,
    },
    Text {
        bytes: b"A U Thor <author@example.com> 1112911993 -0700",
        is_ref: false,
        is_person: true,
        number: None,
        are_digits: false,
    },
    Text {
        bytes: b"<a@e.org> 0 +0000",
        is_ref: false,
        is_person: true,
        number: None,
        are_digits: false,
    },
    Text {
        bytes: b"A <a@e.org> 1112911993 0700",
        is_ref: false,
        is_person: false,
        number: None,
        are_digits: false,
    },
    Text {
        bytes: b"0042",
        is_ref: true,
        is_person: false,
        number: Some(42),
        are_digits: true,
    },
    Text {
        bytes: b"",
        is_ref: false,
        is_person: false,
        number: None,
        are_digits: true,
    },
];

#[test]
fn texts(rt: HostRuntime) {
    for case in &TEXTS {
        assert!(rt; is_ref(case.bytes) == case.is_ref);
        assert!(rt; is_person(case.bytes) == case.is_person);
        assert!(rt; number_of(case.bytes) == case.number);
        assert!(rt; are_digits(case.bytes) == case.are_digits);
    }
}

#[test]
fn digits_and_letters(rt: HostRuntime) {
    assert!(rt; is_digit(b'7'));
    assert!(rt; !is_lower_hex_digit(b'F'));
    assert!(rt; Kind::Release.letters() == b"rel".as_slice());
    assert!(rt; is_url(&[b'a'; 2048]));
    assert!(rt; !is_url(&[b'a'; 2049]));
}

static NO_URLS: [&str; 3] = ["", "a\x7fb", "a\x1fb"];

#[test]
fn urls(rt: HostRuntime) -> Result<(), Fail> {
    let url = Url::new(rt.alloc(), "https://e.org/p")?.again(rt.alloc())?;
    assert!(rt; url.as_str() == "https://e.org/p");
    for text in &NO_URLS {
        assert!(rt; matches!(Url::new(rt.alloc(), text), Err(UrlFault::BadUrl)));
    }
    Ok(())
}

#[test]
fn escapes(rt: HostRuntime) -> Result<(), Fail> {
    let text = escape(rt.alloc(), b"a b;100%\x7f\xff")?;
    assert!(rt; text.as_str() == "a%20b%3B100%25%7F%FF");
    Ok(())
}

#[test]
fn pieces(rt: HostRuntime) {
    let cut = split_at_byte(b"a\0b\0c", b'\0');
    assert!(rt; cut == Some((b"a".as_slice(), b"b\0c".as_slice())));
    assert!(rt; split_at_byte(b"abc", b'\0').is_none());
    assert!(rt; behind(b"tree ", b"tree 4b") == Some(b"4b".as_slice()));
    assert!(rt; behind(b"tree ", b"tree").is_none());
}
