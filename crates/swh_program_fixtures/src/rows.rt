// The rows of a table, one after another.
use crate::plain::PlainDepot;
use crate::setting::{Case, Spelled};
use crate::world::{is_met, is_met_by, is_spelled_by};
use std::alloc::Global;
use std::test::Fail;
use swh_base::{ByteNamer, Sha1Namer};

/// Fails with the name of the first row that is not met.
pub fn all_met(alloc: Global, cases: &[Case<'_>]) -> Result<(), Fail> {
    for case in cases {
        if !is_met(alloc, case)? {
            return Err(Fail::new(case.name));
        }
    }
    Ok(())
}

/// Fails with the name of the first row that is not met, over files that take no more memory than they are long.
pub fn all_met_plainly(alloc: Global, cases: &[Case<'_>]) -> Result<(), Fail> {
    for case in cases {
        if !is_met_by(alloc, Sha1Namer, PlainDepot::new(alloc, None), case)? {
            return Err(Fail::new(case.name));
        }
    }
    Ok(())
}

/// Fails with the name of the first row that is not met, over such files, where the sum of the bytes of a body is its id.
pub fn all_met_in_sums(alloc: Global, cases: &[Case<'_>]) -> Result<(), Fail> {
    for case in cases {
        if !is_met_by(alloc, ByteNamer, PlainDepot::new(alloc, None), case)? {
            return Err(Fail::new(case.name));
        }
    }
    Ok(())
}

/// Fails with the name of the first row that is not met, of such as are spelled, over such files.
pub fn all_met_spelled(alloc: Global, rows: &[Spelled<'_>]) -> Result<(), Fail> {
    for row in rows {
        if !is_spelled_by(alloc, Sha1Namer, PlainDepot::new(alloc, None), row)? {
            return Err(Fail::new(row.case.name));
        }
    }
    Ok(())
}
