//! Where the bytes of a request's head so far end.
ghost use Rattle.std.specs.Prelude.{◌≡◌, ◌≤◌, ◌==◌, ◌||◌, [], length, if◌then◌else◌};
ghost use Rattle.std.specs.Str.{is_utf8};
ghost use Rattle.httparse.specs.Grammar.{is_token_byte, is_uri_byte, is_value_byte};
ghost use Rattle.swh_http.specs.HeadState.{advance as place_after, version_byte, StartsWithin};

/// A place in the head's grammar.
#[derive(Clone, Copy, Debug)]
pub enum HeadState {
    /// At the start, or after empty lines.
    Blank,
    /// After the CR of an empty line.
    BlankEnd,
    Method,
    /// Before the target.
    Space,
    /// In the target, which begins at this index.
    Target { from: usize },
    /// Before this byte of `HTTP/1.`.
    Version(u8),
    /// Before the minor version.
    Minor,
    /// After the minor version.
    LineEnd,
    /// After the CR of a line.
    Feed,
    /// At the start of a field line, or of the empty line that ends the head.
    Line,
    /// After the CR of that empty line.
    LastFeed,
    /// In a field's name.
    Name,
    /// In a field's value.
    Value,
    /// The head is whole.
    Whole,
    /// More bytes follow a whole head.
    Over,
    /// No head begins so.
    Broken,
}

// A byte of a method or of a field's name.
#[tactic(auto, unfolding(httparse::specs::Grammar::is_token_byte))]
fn is_token_byte(byte: u8) -> bool
    ensures { result ≡ is_token_byte byte }
{
    byte.is_ascii_alphanumeric() || b"!#$%&'*+-.^_`|~".contains(&byte)
}

fn is_uri_byte(byte: u8) -> bool
    ensures { result ≡ is_uri_byte byte }
{
    byte > b' ' && byte != 127
}

fn is_value_byte(byte: u8) -> bool
    ensures { result ≡ is_value_byte byte }
{
    byte == b'\t' || (byte >= b' ' && byte != 127)
}

fn version_byte(index: u8) -> u8
    ensures { result ≡ version_byte index }
{
    match index {
        0 => b'H',
        1 | 2 => b'T',
        3 => b'P',
        4 => b'/',
        5 => b'1',
        6 => b'.',
        _ => 0,
    }
}

fn is_text(bytes: &[u8]) -> bool
    ensures { result ≡ is_utf8 bytes.now }
{
    match str::from_utf8(bytes) {
        Ok(_) => true,
        Err(_) => false,
    }
}

// After the target, which has to be text.
fn after_text(is_text: bool) -> HeadState
    ensures { result ≡ (if is_text then HeadState.Version 0 else HeadState.Broken) }
{
    if is_text {
        HeadState::Version(0)
    } else {
        HeadState::Broken
    }
}

// In the target.
fn after_target(before: &[u8], from: usize, byte: u8) -> HeadState
    requires { from ≤ length before.now }
    ensures { result ≡ place_after before.now (HeadState.Target from) byte }
{
    if is_uri_byte(byte) {
        HeadState::Target { from }
    } else if byte == b' ' {
        after_text(is_text(&before[from..]))
    } else {
        HeadState::Broken
    }
}

fn after_version(index: u8, byte: u8) -> HeadState
    ensures { result ≡ place_after [] (HeadState.Version index) byte }
{
    if byte != version_byte(index) {
        HeadState::Broken
    } else if index < 6 {
        HeadState::Version(index + 1)
    } else {
        HeadState::Minor
    }
}

// At the start of a line: what a LF, a CR and a byte of a token lead to.
fn at_start(byte: u8, feed: HeadState, end: HeadState, token: HeadState) -> HeadState
    ensures { result ≡ (if byte == 10 then feed else (if byte == 13 then end else
        (if is_token_byte byte then token else HeadState.Broken))) }
{
    if byte == b'\n' {
        feed
    } else if byte == b'\r' {
        end
    } else if is_token_byte(byte) {
        token
    } else {
        HeadState::Broken
    }
}

// In a token: it goes on, or ends with this byte.
fn in_token(byte: u8, token: HeadState, end: u8, after: HeadState) -> HeadState
    ensures { result ≡ (if is_token_byte byte then token else (if byte == end then after else HeadState.Broken)) }
{
    if is_token_byte(byte) {
        token
    } else if byte == end {
        after
    } else {
        HeadState::Broken
    }
}

fn at_feed(byte: u8, place: HeadState) -> HeadState
    ensures { result ≡ (if byte == 10 then place else HeadState.Broken) }
{
    if byte == b'\n' {
        place
    } else {
        HeadState::Broken
    }
}

fn at_line_end(byte: u8) -> HeadState
    ensures { result ≡ (if byte == 10 then HeadState.Line else (if byte == 13 then HeadState.Feed else HeadState.Broken)) }
{
    if byte == b'\n' {
        HeadState::Line
    } else if byte == b'\r' {
        HeadState::Feed
    } else {
        HeadState::Broken
    }
}

fn at_minor(byte: u8) -> HeadState
    ensures { result ≡ (if byte == 48 || byte == 49 then HeadState.LineEnd else HeadState.Broken) }
{
    if byte == b'0' || byte == b'1' {
        HeadState::LineEnd
    } else {
        HeadState::Broken
    }
}

fn at_target(before: &[u8], byte: u8) -> HeadState
    ensures { result ≡ place_after before.now HeadState.Space byte }
{
    if is_uri_byte(byte) {
        HeadState::Target { from: before.len() }
    } else {
        HeadState::Broken
    }
}

fn in_value(byte: u8) -> HeadState
    ensures { result ≡ place_after [] HeadState.Value byte }
{
    if is_value_byte(byte) {
        HeadState::Value
    } else {
        at_line_end(byte)
    }
}

/// Where this byte leads, after these bytes of the head.
pub fn advance(before: &[u8], place: HeadState, byte: u8) -> HeadState
    requires { StartsWithin (length before.now) place }
    ensures { result ≡ place_after before.now place byte }
{
    match place {
        HeadState::Blank => at_start(
            byte,
            HeadState::Blank,
            HeadState::BlankEnd,
            HeadState::Method,
        ),
        HeadState::BlankEnd => at_feed(byte, HeadState::Blank),
        HeadState::Method => in_token(byte, HeadState::Method, b' ', HeadState::Space),
        HeadState::Space => at_target(before, byte),
        HeadState::Target { from } => after_target(before, from, byte),
        HeadState::Version(index) => after_version(index, byte),
        HeadState::Minor => at_minor(byte),
        HeadState::LineEnd => at_line_end(byte),
        HeadState::Feed => at_feed(byte, HeadState::Line),
        HeadState::Line => at_start(byte, HeadState::Whole, HeadState::LastFeed, HeadState::Name),
        HeadState::LastFeed => at_feed(byte, HeadState::Whole),
        HeadState::Name => in_token(byte, HeadState::Name, b':', HeadState::Value),
        HeadState::Value => in_value(byte),
        HeadState::Whole | HeadState::Over => HeadState::Over,
        HeadState::Broken => HeadState::Broken,
    }
}
