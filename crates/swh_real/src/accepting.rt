// Which errors of accept(2) end a listener, and which it outlives.
use std::io;

// Their numbers in Linux.
const EPERM: i32 = 1;

const ENOMEM: i32 = 12;

const ENFILE: i32 = 23;

const EMFILE: i32 = 24;

const ENONET: i32 = 64;

const EPROTO: i32 = 71;

const ENOPROTOOPT: i32 = 92;

const EOPNOTSUPP: i32 = 95;

const ENETDOWN: i32 = 100;

const ENETUNREACH: i32 = 101;

const ECONNABORTED: i32 = 103;

const ENOBUFS: i32 = 105;

const EHOSTDOWN: i32 = 112;

const EHOSTUNREACH: i32 = 113;

/// What is to be done where no connection was accepted.
pub enum Next {
    /// Wait for the next one: this one was aborted, or forbidden, or the network had an error that was left for it.
    Accept,
    /// Wait for the next one after a while: descriptors or memory are wanting.
    Sleep,
    /// Give up: the listener itself is of no use.
    Fail,
}

/// What is to be done after this error.
pub fn next_after(fault: &io::Error) -> Next {
    let Some(number) = fault.raw_os_error() else {
        return Next::Fail;
    };
    match number {
        EMFILE | ENFILE | ENOBUFS | ENOMEM => Next::Sleep,
        ECONNABORTED | EPERM => Next::Accept,
        ENETDOWN
        | EPROTO
        | ENOPROTOOPT
        | EHOSTDOWN
        | ENONET
        | EHOSTUNREACH
        | EOPNOTSUPP
        | ENETUNREACH => Next::Accept,
        _ => Next::Fail,
    }
}
