// Reports on what a seat sees.
ghost use Rattle.std.specs.Prelude.{◌≡◌, List, IfOk, false, length, true};
ghost use Rattle.edit_entries.specs.Entries.{EntryData};
ghost use Rattle.edit_rules.specs.Histories.{project};
ghost use Rattle.pin_matrix.specs.Matrices.{usual};
ghost use Rattle.reports.specs.Reports.{Reports};
ghost use Rattle.hall_server.specs.steps.KeptTexts.{IsReportText, what_of};
ghost use Rattle.web_requests.specs.Answers.{is_behind};
ghost use Rattle.hall_server.specs.steps.Looks.{IsReported, IsWanted, shown_of};

use crate::kept_reports::KeptReports;
use crate::last_text::LastText;
use crate::project_copy::ProjectCopy;
use crate::report_kind::ReportKind;
use crate::shown::Shown;
use hall_core::{HallName, Prefix, Seat, ShowsBoard};
use pin_matrix::Matrix;
use reports::{ReportFault, What, report};
use std::alloc::{AllocError, Global};
use std::sync::Wait;
use web_requests::Bytes;

/// How many entries are wanted.
fn wanted(least: Option<u64>) -> u64
    ensures { IsWanted least result }
{
    match least {
        Some(least) => least,
        None => 0,
    }
}

/// What a report comes to, of a history of so many entries.
fn shown(front: u32, told: Result<Bytes, ReportFault>) -> Shown
    ensures { result ≡ shown_of front told }
{
    match told {
        Ok(body) => Shown::Text { front, body },
        Err(ReportFault::NoMemory) => Shown::NoMemory,
        Err(fault) => Shown::Fault { front, fault },
    }
}

/// The report on what is published, by the usual matrix.
fn report_on<B: HallName, S: ShowsBoard<B>>(
    alloc: Global,
    published: &S,
    what: &What,
) -> Result<Bytes, ReportFault>
    ensures { Reports (project (S.list published.now)) usual what.now result }
{
    let text = report(alloc, published.board(), what, &Matrix::usual())?;
    Ok(Bytes::from_vec(text))
}

/// What a report comes to that is made within one look.
pub(crate) fn report_in_look<B: HallName, S: ShowsBoard<B>>(
    alloc: Global,
    seat: &mut Seat<B, S>,
    least: Option<u64>,
    what: &What,
) -> Shown
    ensures { IsReported seat.old seat.new least what.now result }
{
    let told = seat.look_whole(wanted(least), |published: &S| {
        report_on(alloc, published, what)
    });
    match told {
        Some((front, Some(told))) => shown(front, told),
        Some((front, None)) => Shown::Behind { front },
        None => Shown::NoEntry,
    }
}

/// A copy of the project of what is published.
fn copy_of<B: HallName, S: ShowsBoard<B>>(
    alloc: Global,
    published: &S,
) -> Result<ProjectCopy<B>, AllocError>
    ensures { IfOk result (λ copy. copy ≡ S.list published.now) }
{
    ProjectCopy::of(alloc, published.board(), published.prefix())
}

/// The text of a kind that is made of a copy, where there is one.
fn made_of<B: HallName>(
    alloc: Global,
    last: &mut LastText<B>,
    kind: ReportKind,
    copied: Result<ProjectCopy<B>, AllocError>,
) -> Result<Bytes, ReportFault>
    ensures { (h : List EntryData) → IfOk copied (λ copy. copy ≡ h)
        → Reports (project h) usual (what_of kind) result }
{
    let copy = copied?;
    last.make(alloc, kind, &copy)
}

/// What a report of a kind comes to whose text is made. A look copies the project, and is over when
/// the text is made of the copy.
fn report_of_copy<B: HallName, S: ShowsBoard<B>>(
    alloc: Global,
    seat: &mut Seat<B, S>,
    last: &mut LastText<B>,
    least: Option<u64>,
    kind: ReportKind,
) -> Shown
    ensures { IsReported seat.old seat.new least (what_of kind) result }
{
    let copied = seat.look_whole(wanted(least), |published: &S| copy_of(alloc, published));
    match copied {
        Some((front, Some(copied))) => shown(front, made_of(alloc, last, kind, copied)),
        Some((front, None)) => Shown::Behind { front },
        None => Shown::NoEntry,
    }
}

/// What a report comes to that wants more entries than these, which the seat has then seen.
fn behind<B: HallName, S: ShowsBoard<B>>(
    seat: &mut Seat<B, S>,
    least: Option<u64>,
    published: &Prefix<B>,
) -> Shown
    requires { is_behind least (length published.now) ≡ true }
    ensures { (what : What) → IsReported seat.old seat.new least what result }
{
    if !seat.learn(published) {
        return Shown::NoEntry;
    }
    Shown::Behind {
        front: published.len() as u32,
    }
}

/// What a report of a kind comes to whose text is kept. The seat has then seen its entries.
fn report_of_kept<B: HallName, S: ShowsBoard<B>>(
    seat: &mut Seat<B, S>,
    least: Option<u64>,
    kind: ReportKind,
    prefix: &Prefix<B>,
    body: Bytes,
) -> Shown
    requires enough { is_behind least (length prefix.now) ≡ false }
    requires text { IsReportText prefix.now kind body }
    ensures { IsReported seat.old seat.new least (what_of kind) result }
{
    if !seat.learn(prefix) {
        return Shown::NoEntry;
    }
    Shown::Text {
        front: prefix.len() as u32,
        body,
    }
}

/// What a report of a kind comes to, under the lock of the kind: the text that was made last, where
/// it holds all that was published when it was asked for, or one that is made.
fn kept_or_made<B: HallName, S: ShowsBoard<B>>(
    alloc: Global,
    seat: &mut Seat<B, S>,
    last: &mut LastText<B>,
    published: &Prefix<B>,
    least: Option<u64>,
    kind: ReportKind,
) -> Shown
    requires { is_behind least (length published.now) ≡ false }
    ensures { IsReported seat.old seat.new least (what_of kind) result }
{
    match last.text_after(kind, published) {
        Some((prefix, body)) => report_of_kept(seat, least, kind, &prefix, body),
        None => report_of_copy(alloc, seat, last, least, kind),
    }
}

/// What a report of a kind comes to. While another worker makes a text of the kind it waits for the
/// lock by `rt`, and holds no look: a publish waits for no text.
pub(crate) fn kept_report<W: Wait, B: HallName, S: ShowsBoard<B>>(
    rt: &W,
    alloc: Global,
    seat: &mut Seat<B, S>,
    reports: &KeptReports<B>,
    least: Option<u64>,
    kind: ReportKind,
) -> Shown
    ensures { IsReported seat.old seat.new least (what_of kind) result }
{
    let Some(published) = seat.published() else {
        return Shown::NoEntry;
    };
    if published.len() < wanted(least) {
        return behind(seat, least, &published);
    }
    let mut guard = reports.last(kind).lock(rt);
    let last: &mut LastText<B> = &mut guard;
    kept_or_made(alloc, seat, last, &published, least, kind)
}
