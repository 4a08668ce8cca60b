// The format: the worked bytes of an opening and of a run.
use std::alloc::Global;
use std::test::Fail;
use swh_base::{Entry, Items, Kind, Memory, Name, Shared, Url, VisitKind};
use swh_format::{record_of_event, run_of_entries};
use swh_model::{Event, EventKind};

// The content `hi` with an id of twenty sevens.
const STORE: [u8; 31] = [
    1, 0, 0, 0, 0, 0, 0, 0, 2, 7, 7, 7, 7, 7, 7, 7, 7, 7, 7, 7, 7, 7, 7, 7, 7, 7, 7, 7, 7, b'h',
    b'i',
];

fn content(alloc: Global) -> Result<Entry, Memory> {
    Ok(Entry {
        name: Name {
            kind: Kind::Content,
            id: [7; 20],
        },
        body: Shared::from_vec(b"hi".to_vec(alloc)?)?,
        kids: Shared::from_vec(Vec::new(alloc))?,
    })
}

#[test]
fn an_opening_has_the_worked_bytes(rt: HostRuntime) -> Result<(), Fail> {
    let alloc = rt.alloc();
    let what = EventKind::Open {
        origin: Url::new(alloc, "https://e.org/p")?,
        kind: VisitKind::Fast,
        date: 1_000_000_000,
    };
    let event = Event { by: 1, what };
    let bytes = record_of_event(alloc, 0, 0, &event)?;
    let worked = b"\x4f\0\0\0\x1c\0\0\0\x01\x01\0\0\0\0\x3b\x9a\xca\0https://e.org/p\0";
    assert_eq!(rt; bytes.as_slice(), worked.as_slice());
    let copy = record_of_event(alloc, 0, 0, &event.again(alloc)?)?;
    assert_eq!(rt; copy.as_slice(), worked.as_slice());
    Ok(())
}

// The objects of a batch are those of its copy.
#[test]
fn a_batch_is_made_again(rt: HostRuntime) -> Result<(), Fail> {
    let alloc = rt.alloc();
    let mut entries = Vec::new(alloc);
    entries.push(content(alloc)?)?;
    let what = EventKind::Batch(Items::from_vec(entries));
    let EventKind::Batch(copies) = (Event { by: 1, what }).again(alloc)?.what else {
        return Err(Fail::from("a batch"));
    };
    let bytes = run_of_entries(Vec::new(alloc), copies.as_slice())?;
    assert_eq!(rt; bytes.as_slice(), STORE.as_slice());
    Ok(())
}

#[test]
fn a_run_has_kind_length_id_and_body(rt: HostRuntime) -> Result<(), Fail> {
    let alloc = rt.alloc();
    let bytes = run_of_entries(Vec::new(alloc), &[content(alloc)?])?;
    assert_eq!(rt; bytes.len(), 31);
    assert_eq!(rt; &bytes[..9], b"\x01\0\0\0\0\0\0\0\x02".as_slice());
    assert_eq!(rt; &bytes[29..], b"hi".as_slice());
    Ok(())
}
