// A source in memory.
ghost use Rattle.std.specs.Prelude.{◌≡◌, ◌≤◌, [], false, length, string_bytes};

use swh_memory_failures::Failures;
use swh_outside::{Failed, Source};

/// A source of given bytes, in pieces of a given size. A call that is to fail takes none.
#[derive(Drop)]
pub struct MemorySource {
    path: String,
    bytes: Vec<u8>,
    piece: usize,
    at: usize,
    ended: bool,
    failures: Failures,
    ghost in_range: { at ≤ length bytes.items },
}

impl MemorySource {
    ghost use Rattle.std.specs.Prelude.{◌<◌, ◌==◌, ◌||◌, ◌++◌, take, drop, min, max};
    ghost use Rattle.swh_outside.specs.Source.{IsGot};
    ghost use Rattle.swh_memory_input.specs.Inputs.{
      source_left,
      source_given,
      source_ended,
      source_path,
      source_piece,
      source_tally,
      source_faults,
    };
    ghost use Rattle.swh_memory_failures.specs.Tally.{fresh_tally};

    /// A source of these bytes, opened at a path. A call gives a piece of them at most, and one byte where the piece
    /// is 0. Its calls with the listed numbers, from 0, will fail.
    pub fn new(path: String, bytes: Vec<u8>, piece: usize, failing: Vec<u64>) -> Self
        ensures left { source_left result ≡ bytes.items }
        ensures given { source_given result ≡ [] }
        ensures not_ended { source_ended result ≡ false }
        ensures path { source_path result ≡ string_bytes path }
        ensures piece { source_piece result ≡ piece }
        ensures failing { source_tally result ≡ fresh_tally failing.items }
        ensures no_fault { source_faults result ≡ 0 }
    {
        MemorySource {
            path,
            bytes,
            piece,
            at: 0,
            ended: false,
            failures: Failures::at(failing),
        }
    }

    /// Takes the next bytes that are left into the front of `out`, and says how many; 0 is the end.
    pub(crate) fn give(&mut self, out: &mut [u8]) -> usize
        requires { 0 < length out.old }
        ensures count { result ≡ min (min (length out.old) (max (source_piece self.old) 1))
            (length (source_left self.old)) }
        ensures got { IsGot (source_left self.old) result out.new (source_left self.new) }
        ensures rest { drop result out.new ≡ drop result out.old }
        ensures given { source_given self.new ≡ source_given self.old ++ take result out.new }
        ensures ended { source_ended self.new ≡ (source_ended self.old || (result == 0)) }

        // What it leaves as it was.
        ensures same_path { source_path self.new ≡ source_path self.old }
        ensures same_piece { source_piece self.new ≡ source_piece self.old }
        ensures same_tally { source_tally self.new ≡ source_tally self.old }
    {
        let count = out
            .len()
            .min(self.piece.max(1))
            .min(self.bytes.len() - self.at);
        let end = self.at + count;
        out[..count].copy_from_slice(&self.bytes[self.at..end]);
        self.at = end;
        if count == 0 {
            self.ended = true;
        }
        count
    }

    /// The bytes that it gave.
    pub fn given(&self) -> &[u8]
        ensures { result.now ≡ source_given self.now }
    {
        &self.bytes[..self.at]
    }

    /// Whether a call met the end.
    pub fn has_ended(&self) -> bool
        ensures { result ≡ source_ended self.now }
    {
        self.ended
    }

    /// How often it has failed.
    pub fn faults(&self) -> u64
        ensures { result ≡ source_faults self.now }
    {
        self.failures.count()
    }

    /// Where it was opened.
    pub fn path(&self) -> &str
        ensures { result.now ≡ source_path self.now }
    {
        self.path.as_str()
    }
}

impl Source for MemorySource {
    ghost use Rattle.std.specs.Prelude.{◌<◌, IfOk, OnErr, drop, is_err, min, max};
    ghost use Rattle.swh_outside.specs.Faults.{HasCause};
    ghost use Rattle.swh_outside.specs.Source.{IsGot, IsHeard};
    ghost use Rattle.swh_memory_input.specs.Inputs.{
      source_left,
      source_given,
      source_ended,
      source_path,
      source_piece,
      source_tally,
      source_faults,
    };
    ghost use Rattle.swh_memory_failures.specs.Tally.{is_next_listed, tallied};

    ghost tells = { Unit {0} };

    ghost left = { source_left };

    ghost given = { source_given };

    ghost ended = { source_ended };

    ghost faults = { source_faults };

    ghost path = { source_path };

    fn get(&mut self, out: &mut [u8]) -> Result<usize, Failed>
        requires { 0 < length out.old }
        ensures bound { IfOk result (λ n. n ≤ length out.new) }
        ensures bytes { IfOk result (λ n. IsGot (source_left self.old) n out.new (source_left self.new)) }
        ensures loses { OnErr result (source_left self.new ≡ source_left self.old) }
        ensures heard { IsHeard (source_given self.old) (source_ended self.old) out.new (source_given self.new)
            (source_ended self.new) result }
        ensures same_path { source_path self.new ≡ source_path self.old }
        ensures cause { HasCause (source_faults self.old) (source_faults self.new) result }

        ensures piece { IfOk result (λ n. n ≡ min (min (length out.old) (max (source_piece self.old) 1))
            (length (source_left self.old))) }
        ensures same_piece { source_piece self.new ≡ source_piece self.old }
        ensures rest { IfOk result (λ n. drop n out.new ≡ drop n out.old) }
        ensures untouched { OnErr result (out.new ≡ out.old) }
        ensures fails { is_err result ≡ is_next_listed (source_tally self.old) }
        ensures counted { source_tally self.new ≡ tallied (is_err result) (source_tally self.old) }
    {
        if self.failures.next_fails() {
            return Err(self.failures.refuse());
        }
        Ok(self.give(out))
    }
}
