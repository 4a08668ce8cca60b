// The lines that report jobs.
ghost use Rattle.std.specs.Prelude.{◌≡◌, ◌+◌, ◌<◌, ◌≤◌, ◌++◌, [], IfOk, IfSome, length, vec_capacity};
ghost use Rattle.swh_loader.specs.Report.{report_of, report_line_limit, detail_limit, outcome_room};
ghost use Rattle.swh_pool.specs.Lines.{room_of};

use crate::dated::DatedJob;
use std::alloc::Global;
use swh_base::{Bytes, Memory, Url, VisitKind};
use swh_loader::{LoadFault, Loaded, report_limit, report_line};
use swh_outside::{Folder, Source};

/// The lines of jobs so far, and how many bytes of room are left for those of the others.
#[derive(Drop)]
pub struct Lines {
    pub text: Vec<u8>,
    pub left: usize,
    ghost room: { length text.items + left ≤ vec_capacity text },
}

/// The most bytes of the lines of these jobs; none where no memory has so many.
fn room_of<S: Source, F: Folder>(jobs: &[DatedJob<S, F>]) -> Option<usize>
    ensures { IfSome result (λ room. room ≡ room_of jobs.now) }
{
    let mut room: usize = 0;
    'jobs: for dated in jobs {
        room = match room.checked_add(report_limit(dated.job.input.kind())) {
            Some(more) => more,
            None => return None,
        };
    }
    Some(room)
}

impl Lines {
    /// No line, with room for those of these jobs.
    pub fn with_room<S: Source, F: Folder>(
        alloc: Global,
        jobs: &[DatedJob<S, F>],
    ) -> Result<Lines, Memory>
        ensures text { IfOk result (λ lines. lines.text.items ≡ []) }
        ensures left { IfOk result (λ lines. lines.left ≡ room_of jobs.now) }
    {
        let Some(room) = room_of(jobs) else {
            return Err(Memory);
        };
        let text = Vec::with_capacity(alloc, room)?;
        Ok(Lines { text, left: room })
    }

    /// Adds the line of a job, whose input is of this kind. The room for it was taken before.
    pub fn add(&mut self, kind: VisitKind, origin: &Url, outcome: &Result<Loaded, LoadFault>)
        requires room { report_line_limit kind ≤ self.old.left }
        requires short { outcome_room outcome.now ≤ detail_limit kind }
        ensures text { self.new.text.items ≡ self.old.text.items ++ report_of origin.now outcome.now }
        ensures left { self.new.left + report_line_limit kind ≡ self.old.left }
    {
        report_line(&mut self.text, origin, outcome);
        self.left -= report_limit(kind);
    }

    pub fn into_text(self) -> Bytes
        ensures { result ≡ self.text.items }
    {
        let Lines { text, left: _left } = self;
        Bytes::from_vec(text)
    }
}
