// The report of a check.
ghost use Rattle.std.specs.Prelude.{◌≡◌, IfOk};
ghost use Rattle.std.specs.List.{list_any};
ghost use Rattle.drc_findings.specs.Report.{is_error};
ghost use Rattle.reports.specs.NetLists.{reported};

use drc_rules::{Finding, Level, report_text};
use std::alloc::{AllocError, Global};
use std::marker::Model;

/// The report of the check of a project.
#[derive(Debug, Drop)]
pub struct Check {
    /// The text of the report.
    pub text: Vec<u8>,
    /// Whether a finding of level error is among it.
    pub has_error: bool,
}

impl Model for Check {
    ghost use Rattle.reports.specs.NetLists.{CheckData};

    ghost Value = { CheckData };

    ghost view = { λ c. record { text = c.text.items; has_error = c.has_error } };
}

fn has_error(found: &[Finding]) -> bool
    ensures { result ≡ list_any is_error found.now }
{
    found
        .iter()
        .any(|finding| matches!(finding.level, Level::Error))
}

/// The report of what was found.
pub(crate) fn reported(alloc: Global, found: &[Finding]) -> Result<Check, AllocError>
    ensures { IfOk result (λ check. check ≡ reported found.now) }
{
    Ok(Check {
        text: report_text(alloc, found)?,
        has_error: has_error(found),
    })
}
