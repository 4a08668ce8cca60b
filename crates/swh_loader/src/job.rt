// What is loaded.
use swh_base::Url;
use swh_inputs::Input;

/// An origin, and its input as it was opened.
pub struct Job<S, F> {
    pub origin: Url,
    pub input: Input<S, F>,
}
