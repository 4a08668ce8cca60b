// Replies: their bytes.
use std::test::Fail;
use swh_base::{Reply, Shared};
use swh_http::reply_bytes;

#[test]
fn a_reply(rt: HostRuntime) -> Result<(), Fail> {
    let body = Vec::from_slice(rt.alloc(), b"{\"error\":\"not found\"}")?;
    let reply = Reply {
        status: 404,
        json: true,
        body: Shared::from_vec(body)?,
    };
    let bytes = reply_bytes(rt.alloc(), &reply, false)?;
    assert!(rt;
        bytes.as_slice()
            == b"HTTP/1.1 404 Not Found\r\nContent-Length: 21\r\n\
Content-Type: application/json\r\nConnection: close\r\n\r\n{\"error\":\"not found\"}"
                .as_slice()
    );
    Ok(())
}
