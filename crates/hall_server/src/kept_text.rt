// One text that is kept.
ghost use Rattle.std.specs.Prelude.{◌≡◌, IfSome};
ghost use Rattle.hall_server.specs.steps.KeptTexts.{IsReportText, IsTextAfter};

use crate::report_kind::ReportKind;
use hall_log::{HallName, Prefix};
use std::marker::Model;
use web_requests::Bytes;

/// The text of a report, with the entries and the kind that it is of.
#[derive(Drop)]
pub struct KeptText<B: HallName> {
    prefix: Prefix<B>,
    kind: ReportKind,
    text: Bytes,
}

impl<B: HallName> Model for KeptText<B> {
    ghost use Rattle.hall_server.specs.steps.KeptTexts.{IsReportText, KeptData};

    ghost Value = { KeptData };

    ghost view = { λ k. record { entries = k.prefix; kind = k.kind; text = k.text } };

    ghost invariant = { λ k. IsReportText k.prefix k.kind k.text };
}

impl<B: HallName> KeptText<B> {
    /// A text of these entries. It takes no memory.
    pub fn new(prefix: Prefix<B>, kind: ReportKind, text: Bytes) -> KeptText<B>
        requires { IsReportText prefix kind text }
    {
        KeptText { prefix, kind, text }
    }

    /// The text once more, with the entries that it is of, where it is of this kind and these begin
    /// with those that were seen. It takes no memory.
    pub fn text_after(&self, kind: ReportKind, seen: &Prefix<B>) -> Option<(Prefix<B>, Bytes)>
        ensures { IfSome result (IsTextAfter seen.now kind) }
    {
        if self.kind != kind {
            return None;
        }
        if !seen.begins(&self.prefix) {
            return None;
        }
        let text = self.text.again()?;
        Some((self.prefix.again(), text))
    }
}
