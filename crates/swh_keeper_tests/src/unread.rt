//! Archives on disks whose reads fall short: none opens with fewer events, and none is made anew over what is there.
use crate::files::LEDGER;
use crate::short::Short;
use std::alloc::{AllocError, Global};
use std::test::Fail;
use swh_base::Sha1Namer;
use swh_keeper::{Keeper, OpenFault, OpenWhy};

type ShortArchive = Result<Keeper<Sha1Namer, Short>, OpenFault<Short>>;

/// Why there is no archive, and how many writes there were on either disk; none where there is one.
fn why_not(given: ShortArchive) -> Option<(OpenWhy, u64)> {
    match given {
        Ok(keeper) => {
            let (_store, _ledger) = keeper.close();
            None
        }
        Err(fault) => {
            let OpenFault { why, store, ledger } = fault;
            Some((why, store.writes().saturating_add(ledger.writes())))
        }
    }
}

/// The store and the ledger of an archive, and how many bytes of each are read.
type Files = (&'static [u8], usize, &'static [u8], usize);

fn opened(alloc: Global, files: Files) -> Result<Option<(OpenWhy, u64)>, AllocError> {
    let (store, of_store, ledger, of_ledger) = files;
    let store = Short::new(alloc, store, of_store)?;
    let ledger = Short::new(alloc, ledger, of_ledger)?;
    Ok(why_not(Keeper::open(alloc, Sha1Namer, store, ledger)))
}

fn made(alloc: Global, files: Files) -> Result<Option<(OpenWhy, u64)>, AllocError> {
    let (store, of_store, ledger, of_ledger) = files;
    let store = Short::new(alloc, store, of_store)?;
    let ledger = Short::new(alloc, ledger, of_ledger)?;
    Ok(why_not(Keeper::make(alloc, Sha1Namer, store, ledger)))
}

/// Says whether the archive is damaged, and spared by a making.
fn is_spared(alloc: Global, files: Files) -> Result<bool, AllocError> {
    let is_damaged = matches!(opened(alloc, files)?, Some((OpenWhy::Damaged { .. }, 0)));
    Ok(is_damaged && made(alloc, files)? == Some((OpenWhy::Made, 0)))
}

#[test]
fn a_ledger_that_is_not_read_whole_is_lost_to_nothing(rt: HostRuntime) -> Result<(), Fail> {
    let alloc = rt.alloc();
    for given in 0..LEDGER.len() {
        assert!(rt; is_spared(alloc, (b"", 0, LEDGER, given))?, "{given} bytes");
    }
    Ok(())
}

/// The ledger of a batch of the content `hi`, and its run.
const BATCH: &[u8] =
    b"SWHARC1\n\x01B\0\0\0\x18\0\0\0\x01\0\0\0\0\0\0\0\0\0\0\0\0\0\0\0\x1f\0\0\0\x01\0";

const RUN: &[u8] =
    b"\x01\0\0\0\0\0\0\0\x022\xf9\x5c\x0d\x12D\xa7\x8b+\xe1\xba\xb8\xde\x17\x90o\xab\xb2\xc4\xa8hi";

#[test]
fn a_store_that_is_not_read_whole_is_lost_to_nothing(rt: HostRuntime) -> Result<(), Fail> {
    let alloc = rt.alloc();
    for given in 0..RUN.len() {
        let whole = BATCH.len();
        assert!(rt;
            is_spared(alloc, (RUN, given, BATCH, whole))?,
            "{given} bytes"
        );
    }
    Ok(())
}
