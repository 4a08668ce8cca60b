// A source of a text that is given many times over.
use swh_outside::{Failed, Source};

/// A source that gives a text so many times, and then another text once.
#[derive(Drop)]
pub struct RepeatedSource {
    text: Vec<u8>,
    times: u64,
    end: Vec<u8>,
    at: usize,
}

impl RepeatedSource {
    /// A source of a text so many times, and then of the end. A text without a byte is left out.
    pub fn new(text: Vec<u8>, times: u64, end: Vec<u8>) -> Self {
        let times = if text.is_empty() { 0 } else { times };
        RepeatedSource {
            text,
            times,
            end,
            at: 0,
        }
    }

    // What is left of the text that is being given, or of the end.
    fn rest(&self) -> &[u8] {
        let whole = if self.times > 0 {
            self.text.as_slice()
        } else {
            self.end.as_slice()
        };
        match whole.split_at_checked(self.at) {
            Some((_given, rest)) => rest,
            None => &[],
        }
    }

    // Goes on behind so many bytes, at the end of the text to the next one.
    fn go_on(&mut self, count: usize) {
        self.at = self.at.saturating_add(count);
        if self.times > 0 && self.at >= self.text.len() {
            self.times -= 1;
            self.at = 0;
        }
    }
}

impl Source for RepeatedSource {
    ghost use Rattle.std.specs.Prelude.{[], false};

    ghost tells = { ⊥ };

    ghost left = { λ _. [] };

    ghost given = { λ _. [] };

    ghost ended = { λ _. false };

    ghost faults = { λ _. 0 };

    ghost path = { λ _. [] };

    fn get(&mut self, out: &mut [u8]) -> Result<usize, Failed> {
        let rest = self.rest();
        let count = rest.len().min(out.len());
        out[..count].copy_from_slice(&rest[..count]);
        self.go_on(count);
        Ok(count)
    }
}
