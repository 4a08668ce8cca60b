// Values that are shared and handed on.
use std::alloc::Global;
use std::test::Fail;
use swh_base::{Bytes, Entry, Items, Kind, Memory, Name, Shared};

const NAME: Name = Name {
    kind: Kind::Content,
    id: [7; 20],
};

fn entry(alloc: Global) -> Result<Entry, Memory> {
    Ok(Entry {
        name: NAME,
        body: Shared::from_vec(b"ab".to_vec(alloc)?)?,
        kids: Shared::from_vec(Vec::new(alloc))?,
    })
}

fn is_entry(found: &Entry) -> bool {
    found.name == NAME
        && found.body.as_slice() == b"ab".as_slice()
        && found.kids.as_slice().is_empty()
}

#[test]
fn an_entry_is_shared(rt: HostRuntime) -> Result<(), Fail> {
    let again = entry(rt.alloc())?.again()?;
    assert!(rt; is_entry(&again));
    Ok(())
}

#[test]
fn bytes_are_kept(rt: HostRuntime) -> Result<(), Fail> {
    let bytes = Bytes::from_slice(rt.alloc(), b"xyz")?;
    assert!(rt; bytes.as_slice() == b"xyz".as_slice());
    Ok(())
}

#[test]
fn items_are_kept(rt: HostRuntime) -> Result<(), Fail> {
    let mut numbers = Items::from_vec(Vec::new(rt.alloc()));
    numbers.push(5)?;
    assert!(rt; numbers.into_vec().as_slice() == [5].as_slice());
    Ok(())
}
