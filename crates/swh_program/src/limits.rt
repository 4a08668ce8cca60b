// The limits as numbers. Definitions read the constants of the code, so a clause that names a limit would hold of any
// number there; these hold of one.
ghost use Rattle.std.specs.Prelude.{◌≡◌, ◌^◌};
ghost use Rattle.swh_base.specs.Limits.{
  body_limit,
  line_limit,
  path_limit,
  ref_limit,
  tag_limit,
  url_limit,
  objects_limit,
  bytes_limit,
  run_limit,
  file_limit,
};
ghost use Rattle.swh_base.specs.declared.visit.VisitKind.TheVariants.{Fast, Dir, Batch};
ghost use Rattle.swh_fastmeaning.specs.Ending.{refs_limit};
ghost use Rattle.swh_fastrows.specs.declared.row_source.TheConstants.{STREAM_LIMIT};
ghost use Rattle.swh_jobs.specs.JobFile.{most_jobs};
ghost use Rattle.swh_jobs.specs.declared.limits.TheConstants.{INPUT_PATH_LIMIT};
ghost use Rattle.swh_loader.specs.Report.{report_line_limit};

/// Each limit of the clauses is this number.
pub fn limits_in_numbers()
    ensures body { body_limit ≡ 67108864 }
    ensures line { line_limit ≡ 1048576 }
    ensures path { path_limit ≡ 65535 }
    ensures ref_name { ref_limit ≡ 1024 }
    ensures tag_name { tag_limit ≡ 1014 }
    ensures url { url_limit ≡ 2048 }
    ensures refs { refs_limit ≡ 65536 }
    ensures stream { STREAM_LIMIT ≡ 2 ^ 32 }
    ensures batch_objects { objects_limit ≡ 4096 }
    ensures batch_bytes { bytes_limit ≡ 8388608 }
    ensures run { run_limit ≡ 75616256 }
    ensures file { file_limit ≡ 2 ^ 62 }
    ensures jobs { most_jobs ≡ 256 }
    ensures job_path { INPUT_PATH_LIMIT ≡ 4096 }
    ensures report_line { (report_line_limit Fast ≡ 2167) × (report_line_limit Batch ≡ 2167) }
    ensures folder_line { report_line_limit Dir ≡ 198692 }
{}
