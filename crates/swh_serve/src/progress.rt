// How a connection stands.

/// How a connection stands behind some replies, with the number of all requests and refusals that were replied to.
#[derive(Debug, Drop)]
pub enum Progress {
    /// It is kept.
    Open { requests: u64 },
    /// It is over.
    Closed { requests: u64 },
}
