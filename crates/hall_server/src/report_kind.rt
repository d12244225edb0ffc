// The reports whose text is kept: those that look at all sheets.
ghost use Rattle.std.specs.Prelude.{◌≡◌, IfSome};
ghost use Rattle.hall_server.specs.steps.KeptTexts.{what_of};

use reports::{Form, What};

/// A report whose text is kept.
#[derive(Clone, Copy, Debug, PartialEq, Eq)]
pub enum ReportKind {
    /// The net list in a form.
    Net(Form),
    /// What the check finds.
    Drc,
}

/// The kind of a report, where its text is kept.
pub fn kind_of(what: &What) -> Option<ReportKind>
    ensures { IfSome result (λ kind. what_of kind ≡ what.now) }
{
    match what {
        What::Net(form) => Some(ReportKind::Net(*form)),
        What::Drc => Some(ReportKind::Drc),
        What::Sheet(_) | What::Symbol(_) | What::Objects(_) | What::Sheets => None,
    }
}
