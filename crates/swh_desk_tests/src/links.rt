// Connections that are served one after another over one archive.
ghost use Rattle.std.specs.Prelude.{All, IfOk};
ghost use Rattle.swh_memory_input.specs.Links.{IsUnused};

use std::alloc::{AllocError, Global};
use std::test::Fail;
use swh_base::Sha1Namer;
use swh_desk::{ServeStop, Tally, serve_links};
use swh_fixtures::made_archive;
use swh_memory_input::{MemoryClock, MemoryDoors, MemoryLink};

const DATE: u64 = 1_000_000_000;

/// The most bytes that go out on a link.
const ROOM: usize = 4_096;

fn link_of(alloc: Global, text: &[u8]) -> Result<MemoryLink, AllocError>
    ensures { IfOk result IsUnused }
{
    let bytes = Vec::from_slice(alloc, text)?;
    MemoryLink::new(alloc, bytes, 7, ROOM, Vec::new(alloc))
}

fn links_of(alloc: Global, texts: &[&[u8]]) -> Result<Vec<MemoryLink>, AllocError>
    ensures { IfOk result (λ links. All IsUnused links.items) }
{
    let mut links = Vec::new(alloc);
    'texts: for text in texts {
        let link = link_of(alloc, text)?;
        if links.push(link).is_err() {
            return Err(AllocError);
        }
    }
    Ok(links)
}

#[derive(Clone, Copy)]
enum Ends {
    All { broken: u32 },
    AtDoors,
    AtClock,
}

// What clients send, which calls of the doors and of the clock fail, how that ends, and what was put on each link that was
// given back.
struct Row {
    sent: &'static [&'static [u8]],
    doors_failing: &'static [u64],
    clock_failing: &'static [u64],
    ends: Ends,
    put: &'static [&'static [u8]],
}

const POST: &[u8] = b"POST /api/1/load/fast/https://e.org/p/ HTTP/1.1\r\nContent-Length: 0\r\n\r\n";

const LOADED: &[u8] =
    b"HTTP/1.1 200 OK\r\nContent-Length: 116\r\nContent-Type: application/json\r\n\r\n\
{\"detail\":\"swh:1:snp:1a8893e6a86f444e8be8e7bda6cb34fb1735a00e\",\"origin\":\"https://e.org/p\",\"status\":\"full\",\"visit\":1}";

const GET: &[u8] = b"GET /api/1/origin/https://e.org/p/get/ HTTP/1.1\r\n\r\n";

const ONE_VISIT: &[u8] =
    b"HTTP/1.1 200 OK\r\nContent-Length: 36\r\nContent-Type: application/json\r\n\r\n\
{\"url\":\"https://e.org/p\",\"visits\":1}";

const NO_VISIT: &[u8] =
    b"HTTP/1.1 404 Not Found\r\nContent-Length: 21\r\nContent-Type: application/json\r\n\r\n\
{\"error\":\"not found\"}";

const ROWS: [Row; 4] = [
    Row {
        sent: &[GET, POST, GET],
        doors_failing: &[],
        clock_failing: &[],
        ends: Ends::All { broken: 0 },
        put: &[NO_VISIT, LOADED, ONE_VISIT],
    },
    // The second ends inside its request.
    Row {
        sent: &[POST, b"GET /api/1/", GET],
        doors_failing: &[],
        clock_failing: &[],
        ends: Ends::All { broken: 1 },
        put: &[LOADED, b"", ONE_VISIT],
    },
    Row {
        sent: &[POST, GET, GET],
        doors_failing: &[1],
        clock_failing: &[],
        ends: Ends::AtDoors,
        put: &[LOADED],
    },
    // The second is let in, and given back as it came.
    Row {
        sent: &[POST, GET, GET],
        doors_failing: &[],
        clock_failing: &[1],
        ends: Ends::AtClock,
        put: &[LOADED, b""],
    },
];

fn has_ended_so(ended: &Result<Tally, ServeStop>, links: u32, ends: Ends) -> bool {
    match (ended, ends) {
        (Ok(tally), Ends::All { broken }) => {
            tally.served == links && tally.broken == broken && tally.starved == 0
        }
        (Err(ServeStop::Door), Ends::AtDoors) => true,
        (Err(ServeStop::Clock), Ends::AtClock) => true,
        _ => false,
    }
}

fn were_put(links: &[MemoryLink], put: &[&[u8]]) -> bool {
    links.len() == put.len()
        && links
            .iter()
            .zip(put)
            .all(|(link, bytes)| link.bytes() == *bytes)
}

fn is_served_so(alloc: Global, row: &Row) -> Result<bool, Fail> {
    let links = links_of(alloc, row.sent)?;
    let doors_failing = Vec::from_slice(alloc, row.doors_failing)?;
    let clock_failing = Vec::from_slice(alloc, row.clock_failing)?;
    let mut doors = MemoryDoors::with_links(alloc, links, doors_failing);
    let mut clock = MemoryClock::new(DATE, clock_failing);
    let mut keeper = made_archive(alloc, Sha1Namer, &[], &[])?;
    let ended = serve_links(alloc, &Sha1Namer, &mut keeper, &mut doors, &mut clock, 3);
    let (_store, _ledger) = keeper.close();
    Ok(has_ended_so(&ended, 3, row.ends) && were_put(doors.links_back(), row.put))
}

#[test]
fn connections_are_served_in_turn(rt: HostRuntime) -> Result<(), Fail> {
    for (number, row) in ROWS.iter().enumerate() {
        assert!(rt; is_served_so(rt.alloc(), row)?, "row {number}");
    }
    Ok(())
}

#[test]
fn no_connection_is_served(rt: HostRuntime) -> Result<(), Fail> {
    let alloc = rt.alloc();
    let mut keeper = made_archive(alloc, Sha1Namer, &[], &[])?;
    let mut doors = MemoryDoors::new(alloc);
    let mut clock = MemoryClock::new(DATE, Vec::new(alloc));
    let ended = serve_links(alloc, &Sha1Namer, &mut keeper, &mut doors, &mut clock, 0);
    let (_store, _ledger) = keeper.close();
    assert!(rt; has_ended_so(&ended, 0, Ends::All { broken: 0 }));
    assert_eq!(rt; doors.faults(), 0);
    Ok(())
}
