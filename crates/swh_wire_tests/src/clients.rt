// What clients sent to a socket that listened: curl 7.88, Chromium 156, `http.client` of Python 3.11 and `fetch` of
// Node.js 20.

pub const CURL: &[u8] =
    b"GET /api/1/x HTTP/1.1\r\nHost: 127.0.0.1:18461\r\nUser-Agent: curl/7.88.1\r\nAccept: */*\r\n\r\n";

pub const CURL_POST: &[u8] =
    b"POST /api/1/known/ HTTP/1.1\r\nHost: 127.0.0.1:18461\r\nUser-Agent: curl/7.88.1\r\n\
Accept: */*\r\nContent-Type: application/json\r\nContent-Length: 54\r\n\r\n\
[\"swh:1:cnt:94a9ed024d3859793618152ea559a168bbcbb5e2\"]";

pub const CHROMIUM: &[u8] =
    b"GET /api/1/x HTTP/1.1\r\nHost: 127.0.0.1:18462\r\nConnection: keep-alive\r\n\
sec-ch-ua: \"Not:A-Brand\";v=\"8\", \"Chromium\";v=\"156\"\r\nsec-ch-ua-mobile: ?0\r\nsec-ch-ua-platform: \"Linux\"\r\n\
Upgrade-Insecure-Requests: 1\r\nUser-Agent: Mozilla/5.0 (X11; Linux x86_64) AppleWebKit/537.36 \
(KHTML, like Gecko) HeadlessChrome/156.0.0.0 Safari/537.36\r\nAccept: text/html,application/xhtml+xml,\
application/xml;q=0.9,image/jxl,image/avif,image/webp,image/apng,*/*;q=0.8,\
application/signed-exchange;v=b3;q=0.7\r\nSec-Fetch-Site: none\r\nSec-Fetch-Mode: navigate\r\n\
Sec-Fetch-User: ?1\r\nSec-Fetch-Dest: document\r\nAccept-Encoding: gzip, deflate, br, zstd\r\n\
Accept-Language: en-US,en;q=0.9\r\n\r\n";

pub const PYTHON: &[u8] =
    b"POST /api/1/known/ HTTP/1.1\r\nHost: 127.0.0.1:18461\r\nAccept-Encoding: identity\r\n\
Content-Length: 54\r\nContent-Type: application/json\r\n\r\n\
[\"swh:1:cnt:94a9ed024d3859793618152ea559a168bbcbb5e2\"]";

pub const NODE: &[u8] =
    b"GET /api/1/x HTTP/1.1\r\nhost: 127.0.0.1:18461\r\nconnection: keep-alive\r\naccept: */*\r\n\
accept-language: *\r\nsec-fetch-mode: cors\r\nuser-agent: node\r\naccept-encoding: gzip, deflate\r\n\r\n";

pub const KNOWN: &[u8] = b"[\"swh:1:cnt:94a9ed024d3859793618152ea559a168bbcbb5e2\"]";
