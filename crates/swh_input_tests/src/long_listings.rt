// The last lines of listings of as many bytes as one may have, 4,294,967,296, and of one more. What is before them is given
// out unread, and is never written.
use std::alloc::{AllocError, Global};
use std::test::Fail;
use swh_base::Which;
use swh_fastlex::Window;
use swh_listing::{LISTING_LIMIT, ListingFault, Mode, next_listed};
use swh_memory_repeated::RepeatedSource;
use swh_outside::{Failed, Source};

/// How many bytes may stand behind a place, what stands there, and a letter so often; and whether a line is read there, or what
/// is told.
type Row = (u64, &'static [u8], usize, Option<ListingFault>);

const TOO_LONG: Option<ListingFault> = Some(ListingFault::Limit {
    which: Which::Stream,
    number: 4_294_967_297,
});

const ROWS: &[Row] = &[
    // The last line that may stand, and one that is longer by a byte.
    (9, b"120000 a\n", 0, None),
    (8, b"120000 a\n", 0, TOO_LONG),
    // One that is none, below the limit and above it.
    (2, b"x\n", 0, Some(ListingFault::BadModes { line: 7 })),
    (1, b"x\n", 0, TOO_LONG),
    // One that is cut.
    (8, b"120000 a", 0, Some(ListingFault::BadModes { line: 7 })),
    (7, b"120000 a", 0, TOO_LONG),
    // One that is too long at the limit, and one byte before it.
    (1_048_576, b"", 1_048_577, TOO_LONG),
    (
        1_048_577,
        b"",
        1_048_577,
        Some(ListingFault::Limit {
            which: Which::Line,
            number: 1_048_577,
        }),
    ),
];

/// A source of so many bytes, whichever stand in the buffer, and then of a text.
#[derive(Drop)]
struct LateSource {
    before: u64,
    text: RepeatedSource,
}

impl Source for LateSource {
    ghost use Rattle.std.specs.Prelude.{[], false};

    ghost tells = { ⊥ };

    ghost left = { λ _. [] };

    ghost given = { λ _. [] };

    ghost ended = { λ _. false };

    ghost faults = { λ _. 0 };

    ghost path = { λ _. [] };

    fn get(&mut self, out: &mut [u8]) -> Result<usize, Failed> {
        if self.before == 0 {
            return self.text.get(out);
        }
        let count = self.before.min(out.len() as u64);
        self.before -= count;
        Ok(count as usize)
    }
}

/// Gives out what is before a place, a window at a time; says whether it came there.
fn goes_to(window: &mut Window, source: &mut LateSource, place: u64) -> Result<bool, Failed> {
    for _turn in 0..70_000 {
        if window.place() >= place {
            return Ok(window.place() == place);
        }
        let left = place - window.place();
        let count = window.count() as u64;
        window.skip(count.min(left) as usize);
        let _some = window.fill(source)?;
    }
    Ok(false)
}

/// A source of bytes up to this place, and then of a row's bytes.
fn source_to(
    alloc: Global,
    before: u64,
    (_, text, letters, _): Row,
) -> Result<LateSource, AllocError> {
    let mut rest = Vec::from_slice(alloc, text)?;
    let mut letters = Vec::from_elem(alloc, b'a', letters)?;
    rest.append(&mut letters)?;
    let text = RepeatedSource::new(Vec::new(alloc), 0, rest);
    Ok(LateSource { before, text })
}

/// Whether a row's line is read as it is to be, where it is the seventh.
fn ends_so(alloc: Global, row: Row) -> Result<bool, AllocError> {
    let place = LISTING_LIMIT.saturating_sub(row.0);
    let mut source = source_to(alloc, place, row)?;
    let mut window = Window::new(alloc)?;
    let there = goes_to(&mut window, &mut source, place);
    if there != Ok(true) || window.place() > LISTING_LIMIT {
        return Ok(false);
    }
    match next_listed(alloc, &mut window, &mut source, 7) {
        Ok(Some(listed)) => {
            Ok(
                row.3 == None
                    && listed.mode == Mode::Link
                    && listed.path.as_slice() == b"a".as_slice(),
            )
        }
        Ok(None) => Ok(false),
        Err(fault) => Ok(row.3 == Some(fault)),
    }
}

#[test]
fn lines_at_the_limit(rt: HostRuntime) -> Result<(), Fail> {
    for (number, row) in ROWS.iter().enumerate() {
        assert!(rt; ends_so(rt.alloc(), *row)?, "row {number}");
    }
    Ok(())
}
