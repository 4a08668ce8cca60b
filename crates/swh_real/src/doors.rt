// A listener of the system.
ghost use Rattle.std.specs.Prelude.{◌≡◌, ◌≤◌, IfOk, IsErrOf, OnErr};
ghost use Rattle.swh_outside.specs.Causes.{HasOutCause};
ghost use Rattle.swh_outside.specs.Faults.{one_more};

use crate::RealLink;
use crate::accepting::{Next, next_after};
use std::alloc::AllocError;
use std::io::ErrorKind;
use std::marker::Model;
use std::net::{Net, TcpListener, TcpStream};
use std::time::{Clock, Duration};
use std::{io, thread};
use swh_files::Count;
use swh_outside::{Doors, OutFault};

/// The milliseconds for which nothing is accepted where descriptors or memory are wanting.
const WANT_MILLISECONDS: u64 = 50;

/// A listener over TCP, at an address that a host's name or an IP address and a port make, as `127.0.0.1:8080`. It
/// waits for a connection as long as there is none, and goes on where one was aborted, where the network had an error,
/// and where descriptors or memory are wanting, as accept(2) says. A contract sees the count of faults.
#[derive(Drop)]
pub struct RealDoors<R: Net<Listener = TcpListener, Stream = TcpStream> + Clock + Drop> {
    rt: R,
    listener: Option<TcpListener>,
    count: Count,
}

impl<R: Net<Listener = TcpListener, Stream = TcpStream> + Clock + Drop> Model for RealDoors<R> {
    ghost use Rattle.std.specs.Prelude.{ℕ};

    ghost Value = { ℕ };

    ghost view = { λ doors. doors.count };
}

impl<R: Net<Listener = TcpListener, Stream = TcpStream> + Clock + Drop> RealDoors<R> {
    /// Doors that listen nowhere yet: `accept` fails until `bind` did not.
    pub fn new(rt: R) -> Self
        ensures { result ≡ 0 }
    {
        RealDoors {
            rt,
            listener: None,
            count: Count::new(),
        }
    }

    /// How often they have failed.
    pub fn faults(&self) -> u64
        ensures { result ≡ self.now }
    {
        self.count.get()
    }

    // Waits for the next connection.
    fn next_stream(&self) -> io::Result<TcpStream> {
        let Some(listener) = &self.listener else {
            return Err(io::Error::from(ErrorKind::NotConnected));
        };
        for _ in 0..u64::MAX {
            let fault = match listener.accept() {
                Ok((stream, _)) => return Ok(stream),
                Err(fault) => fault,
            };
            match next_after(&fault) {
                Next::Accept => {}
                Next::Sleep => thread::sleep(&self.rt, Duration::from_millis(WANT_MILLISECONDS)),
                Next::Fail => return Err(fault),
            }
        }
        Err(io::Error::from(ErrorKind::TimedOut))
    }
}

impl<R: Net<Listener = TcpListener, Stream = TcpStream> + Clock + Clone + Drop + Send> Doors
    for RealDoors<R> {
    ghost use Rattle.std.specs.Prelude.{[]};
    ghost use Rattle.swh_outside.specs.declared.fault.OutFault.TheVariants.{Failed};

    type L = RealLink<R>;

    ghost tells = { ⊥ };

    ghost given_back = { λ _. [] };

    ghost places = { λ _. 0 };

    ghost faults = { λ doors. doors };

    fn bind(&mut self, addr: &str) -> Result<(), OutFault>
        ensures once { OnErr result (self.new ≡ one_more self.old) }
        ensures cause { HasOutCause self.old self.new result }
    {
        match TcpListener::bind(&self.rt, addr) {
            Ok(listener) => {
                self.listener = Some(listener);
                Ok(())
            }
            Err(_) => Err(OutFault::from(self.count.refuse())),
        }
    }

    fn accept(&mut self) -> Result<RealLink<R>, OutFault>
        ensures no_fault { IfOk result (λ link. link ≡ 0) }
        ensures once { IsErrOf result Failed → self.new ≡ one_more self.old }
        ensures cause { HasOutCause self.old self.new result }
    {
        let rt: Result<R, AllocError> = self.rt.clone();
        let Ok(rt) = rt else {
            return Err(OutFault::Memory);
        };
        match self.next_stream() {
            Ok(stream) => {
                // Without it a small reply may wait for an acknowledgement; one that is refused costs only that.
                let _ = stream.set_nodelay(true);
                Ok(RealLink::new(rt, stream))
            }
            Err(_) => Err(OutFault::from(self.count.refuse())),
        }
    }

    fn back(&mut self, _link: RealLink<R>)
        ensures { self.new ≡ self.old }
    {}
}
