// Requests that are answered, and those that load.

use swh_base::Url;

/// What a request asks for.
#[derive(Debug, Drop)]
pub enum Route {
    /// A reply of the read API, a refusal among them.
    Read,
    /// A load of the stream in its body, for an origin.
    Load { origin: Url },
}
