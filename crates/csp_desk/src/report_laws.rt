//! What a report says to who reads it, as the contract of a function with no body.
ghost use Rattle.std.specs.Prelude.{◌≡◌, Some};
ghost use Rattle.json.specs.Json.{document};
ghost use Rattle.csp_model.specs.declared.verdict.Violation.{Violation};
ghost use Rattle.csp_desk.specs.Report.{report_value, report_bytes};

/// The bytes of a report are the JSON of what it says.
pub fn a_report_reads_back()
    ensures { (v : Violation) → document (report_bytes v) ≡ Some (report_value v) }
{}
