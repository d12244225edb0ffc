// The text of one kind that was made last.
ghost use Rattle.std.specs.Prelude.{◌≡◌, IfSome};
ghost use Rattle.edit_rules.specs.Histories.{project};
ghost use Rattle.pin_matrix.specs.Matrices.{usual};
ghost use Rattle.reports.specs.NetLists.{seen_text};
ghost use Rattle.reports.specs.Reports.{Reports};
ghost use Rattle.hall_server.specs.steps.KeptTexts.{IsReportText, IsTextAfter, what_of};

use crate::kept_text::KeptText;
use crate::project_copy::ProjectCopy;
use crate::report_kind::ReportKind;
use hall_log::{HallName, Prefix};
use pin_matrix::Matrix;
use project_model::Project;
use reports::{ReportFault, check, net_report};
use std::alloc::Global;
use web_requests::Bytes;

/// The text of one kind that was made last, on any board of a hall.
#[derive(Drop)]
pub struct LastText<B: HallName> {
    kept: Option<KeptText<B>>,
}

/// The text of a kind on a project, by the usual matrix.
fn text_on(alloc: Global, kind: ReportKind, project: &Project) -> Result<Vec<u8>, ReportFault>
    ensures { Reports project.now.contents usual (what_of kind) (seen_text result) }
{
    match kind {
        ReportKind::Net(form) => Ok(net_report(alloc, form, project)?),
        ReportKind::Drc => Ok(check(alloc, &Matrix::usual(), project)?.text),
    }
}

impl<B: HallName> LastText<B> {
    /// None yet. It takes no memory.
    pub(crate) fn none() -> LastText<B> {
        LastText { kept: None }
    }

    /// The text once more, with the entries that it is of, where it is of this kind and these begin
    /// with those that were seen. It takes no memory.
    pub fn text_after(&self, kind: ReportKind, seen: &Prefix<B>) -> Option<(Prefix<B>, Bytes)>
        ensures { IfSome result (IsTextAfter seen.now kind) }
    {
        let Some(kept) = &self.kept else {
            return None;
        };
        kept.text_after(kind, seen)
    }

    // The text in its reply, which is kept. None where there is no memory for it.
    fn keep(
        &mut self,
        alloc: Global,
        kind: ReportKind,
        prefix: &Prefix<B>,
        text: &[u8],
    ) -> Option<Bytes>
        requires { IsReportText prefix.now kind text.now }
        ensures { IfSome result (λ kept. kept ≡ text.now) }
    {
        let text = Bytes::in_reply(alloc, prefix.len() as u32, text).ok()?;
        let again = text.again()?;
        self.kept = Some(KeptText::new(prefix.again(), kind, text));
        Some(again)
    }

    /// The text of a kind on the project of a copy, by the usual matrix. It is then the last one,
    /// where there is memory to keep it.
    pub fn make(
        &mut self,
        alloc: Global,
        kind: ReportKind,
        copy: &ProjectCopy<B>,
    ) -> Result<Bytes, ReportFault>
        ensures { Reports (project copy.now) usual (what_of kind) result }
    {
        let text = text_on(alloc, kind, copy.project())?;
        match self.keep(alloc, kind, copy.prefix(), &text) {
            Some(kept) => Ok(kept),
            None => Ok(Bytes::from_vec(text)),
        }
    }
}
