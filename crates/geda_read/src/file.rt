// A file that is being read, line by line.
ghost use Rattle.std.specs.Prelude.{◌≡◌, ◌≢◌, [], ◌∷◌, IfOk, IfSome, None, option_map};
ghost use Rattle.geda_text.specs.Lines.{IsCutLine};
ghost use Rattle.sheet_lines.specs.SheetLines.{RowIsInRange, LineIsInRange};
ghost use Rattle.sheet_lines.specs.Pending.{pending_of};
ghost use Rattle.sheet_lines.specs.declared.fault.LineFault.TheVariants as faults;
ghost use Rattle.sheet_lines.specs.steps.Results.{Gives};
ghost use Rattle.geda_grammar.specs.declared.kind.ReadKind.TheVariants.{OutOfRange};
ghost use Rattle.geda_grammar.specs.declared.row.Row.TheVariants as grammar_rows;
ghost use Rattle.geda_read.specs.steps.Expecting.{rows_expect};
ghost use Rattle.geda_grammar.specs.steps.Reading.{Amid, Complete, Ready};
ghost use Rattle.geda_grammar.specs.steps.SheetLines.{sheet_line};
ghost use Rattle.geda_read.specs.steps.Rows.{is_symbol_file};
ghost use Rattle.geda_read.specs.steps.Files.{IsReadBy, end_rows, go_on, map_ok, reader_of, refused_kind, start_of, state_of, take_amid, take_between, take_line, take_row, take_shape, take_version};

use crate::kinds::{Expected, version_kind};
use crate::refusal::Refusal;
use crate::rows::{FileMode, OpenRows};
use crate::version::version;
use geda_grammar::{ReadKind, Row};
use geda_model::Head;
use sheet_lines::{LineFault, Pending, Progress, SheetLine, sheet_line};
use std::alloc::Global;
use std::mem;

/// Where a file stands between two lines.
#[derive(Drop)]
pub struct Stage {
    /// What the version line says. Before that line there is nothing else.
    head: Option<Head>,
    /// The rows that were read.
    rows: OpenRows,
    /// The shape whose lines are to come, where one is begun.
    pending: Option<Pending>,
}

/// Takes a row that is no `]`, or refuses its line for this.
#[tactic(auto, unfolding(crate::specs::steps::Files::take_row))]
fn take_row(
    alloc: Global,
    mode: FileMode,
    rows: &mut OpenRows,
    row: Row,
    kind: ReadKind,
) -> Result<(), LineFault>
    requires range { RowIsInRange row }
    requires other { row ≢ grammar_rows.CloseSymbol }
    ensures { Gives (λ _. rows.new) result (take_row mode rows.old row kind) }
{
    match rows.take(alloc, mode, row) {
        Ok(()) => Ok(()),
        Err(Refusal::NoMemory) => Err(LineFault::NoMemory),
        Err(Refusal::Stray) => Err(LineFault::Refused(kind)),
    }
}

/// The fault of a line that may not come where it stands; `kind` is the kind of its first wrong
/// field, if it has one. It takes no memory.
#[inline(never)]
fn refused(mode: FileMode, rows: &OpenRows, line: &[u8], kind: ReadKind) -> LineFault
    ensures { result ≡ faults.Refused (refused_kind mode rows.now line.now kind) }
{
    let expected = Expected::behind(rows, mode);
    LineFault::Refused(expected.line_kind(mode, line, kind))
}

/// What a line says where a row comes next, or why it is refused there.
fn read_line(
    alloc: Global,
    mode: FileMode,
    rows: &OpenRows,
    line: &[u8],
) -> Result<SheetLine, LineFault>
    ensures read { IsReadBy (is_symbol_file mode) (rows_expect mode rows.now) line.now result }
    ensures range { IfOk result LineIsInRange }
{
    match sheet_line(alloc, line) {
        Err(LineFault::Refused(kind)) => Err(refused(mode, rows, line, kind)),
        said => said,
    }
}

/// Takes the `]` of a line. What may come is worked out before, since a refusal keeps nothing.
#[tactic(auto, unfolding(crate::specs::steps::Files::take_row))]
fn take_close(
    alloc: Global,
    mode: FileMode,
    rows: &mut OpenRows,
    line: &[u8],
) -> Result<(), LineFault>
    ensures { Gives (λ _. rows.new) result (take_row mode rows.old grammar_rows.CloseSymbol
        (refused_kind mode rows.old line.now OutOfRange)) }
{
    let expected = Expected::behind(rows, mode);
    match rows.close_symbol(alloc) {
        Ok(()) => Ok(()),
        Err(Refusal::NoMemory) => Err(LineFault::NoMemory),
        Err(Refusal::Stray) => {
            let kind = expected.line_kind(mode, line, ReadKind::OutOfRange);
            Err(LineFault::Refused(kind))
        }
    }
}

/// Takes the row of a line that is no `]`.
#[inline(always)]
#[tactic(auto, unfolding(crate::specs::steps::Files::take_row))]
fn take_other(
    alloc: Global,
    mode: FileMode,
    rows: &mut OpenRows,
    row: Row,
    line: &[u8],
) -> Result<(), LineFault>
    requires range { RowIsInRange row }
    requires other { row ≢ grammar_rows.CloseSymbol }
    ensures { Gives (λ _. rows.new) result
        (take_row mode rows.old row (refused_kind mode rows.old line.now OutOfRange)) }
{
    match rows.take(alloc, mode, row) {
        Ok(()) => Ok(()),
        Err(Refusal::NoMemory) => Err(LineFault::NoMemory),
        Err(Refusal::Stray) => Err(refused(mode, rows, line, ReadKind::OutOfRange)),
    }
}

/// Takes the row of a line.
#[inline(always)]
fn take_complete(
    alloc: Global,
    mode: FileMode,
    rows: &mut OpenRows,
    row: Row,
    line: &[u8],
) -> Result<(), LineFault>
    requires { RowIsInRange row }
    ensures { Gives (λ _. rows.new) result
        (take_row mode rows.old row (refused_kind mode rows.old line.now OutOfRange)) }
{
    match row {
        Row::CloseSymbol => take_close(alloc, mode, rows, line),
        row => take_other(alloc, mode, rows, row, line),
    }
}

/// A shape whose lines are to come, where it may stand.
fn take_begun(
    mode: FileMode,
    rows: &OpenRows,
    pending: Pending,
    line: &[u8],
) -> Result<Pending, LineFault>
    ensures { Gives (λ p. Amid rows.now (pending_of p)) result
        (take_shape (rows_expect mode rows.now) rows.now (pending_of pending)
        (refused_kind mode rows.now line.now OutOfRange)) }
{
    if !Expected::behind(rows, mode).admits(&pending) {
        return Err(refused(mode, rows, line, ReadKind::OutOfRange));
    }
    Ok(pending)
}

/// Takes a line by its fields, where a row comes next. Answers the shape whose lines are to come,
/// if it begins one.
#[inline(always)]
#[tactic(auto, unfolding(crate::specs::steps::Files::take_between))]
fn take_fields(
    alloc: Global,
    mode: FileMode,
    rows: &mut OpenRows,
    line: &[u8],
) -> Result<Option<Pending>, LineFault>
    ensures { Gives (reader_of rows.new) result (take_between mode rows.old line.now) }
{
    match read_line(alloc, mode, rows, line)? {
        SheetLine::Blank => Ok(None),
        SheetLine::Complete(row) => {
            take_complete(alloc, mode, rows, row, line)?;
            Ok(None)
        }
        SheetLine::Begins(pending) => Ok(Some(take_begun(mode, rows, pending, line)?)),
    }
}

/// Takes the row that a line says.
#[inline(always)]
#[tactic(auto, unfolding(crate::specs::steps::Files::take_between))]
fn take_said(
    alloc: Global,
    mode: FileMode,
    rows: &mut OpenRows,
    row: Row,
    line: &[u8],
) -> Result<(), LineFault>
    requires said { sheet_line line.now ≡ Complete row }
    requires range { RowIsInRange row }
    ensures { Gives (λ _. Ready rows.new) result (take_between mode rows.old line.now) }
{
    take_complete(alloc, mode, rows, row, line)?;
    Ok(())
}

/// The byte that a line is. `None` exactly where it is not one byte.
fn only_byte(line: &[u8]) -> Option<u8>
    ensures { IfSome result (λ byte. line.now ≡ byte ∷ []) }
{
    match line {
        [byte] => Some(*byte),
        _ => None,
    }
}

impl Stage {
    /// Where a file of which no line is read stands. It takes no memory.
    pub fn new(alloc: Global, mode: FileMode) -> Stage
        ensures { state_of result ≡ start_of mode }
    {
        let head = match mode {
            FileMode::Object => Some(Head { date: 0, format: 1 }),
            _ => None,
        };
        Stage {
            head,
            rows: OpenRows::new(alloc, mode),
            pending: None,
        }
    }

    /// Takes the version line.
    #[tactic(auto, unfolding(crate::specs::steps::Files::take_version))]
    fn take_version(&mut self, alloc: Global, mode: FileMode, line: &[u8]) -> Result<(), LineFault>
        ensures { Gives (λ _. state_of self.new) result (take_version mode line.now) }
    {
        let Some(head) = version(line) else {
            return Err(LineFault::Refused(version_kind(line)));
        };
        let begun = Stage {
            head: Some(head),
            rows: OpenRows::new(alloc, mode),
            pending: None,
        };
        drop(mem::replace(self, begun));
        Ok(())
    }

    /// Takes a line of the shape whose lines are to come. Where there is none, nothing changes.
    #[tactic(auto, unfolding(crate::specs::steps::Files::take_amid))]
    fn go_on(&mut self, alloc: Global, mode: FileMode, line: &[u8]) -> Result<(), LineFault>
        requires { IsCutLine line.now }
        ensures head { self.new.head ≡ self.old.head }
        ensures more { Gives (λ _. reader_of self.new.rows self.new.pending) result
            (go_on mode self.old.rows (option_map pending_of self.old.pending) line.now) }
    {
        let Some(pending) = self.pending.take() else {
            return Ok(());
        };
        match pending.with(alloc, line)? {
            Progress::Still(pending) => self.pending = Some(pending),
            Progress::Whole(shape) => {
                let row = Row::Drawn(shape);
                take_row(alloc, mode, &mut self.rows, row, ReadKind::NotUtf8)?;
            }
        }
        Ok(())
    }

    /// Takes a line by its fields, where a row comes next.
    #[inline(never)]
    fn take_long(&mut self, alloc: Global, mode: FileMode, line: &[u8]) -> Result<(), LineFault>
        requires { self.old.pending ≡ None }
        ensures head { self.new.head ≡ self.old.head }
        ensures more { Gives (λ _. reader_of self.new.rows self.new.pending) result
            (take_between mode self.old.rows line.now) }
    {
        if let Some(pending) = take_fields(alloc, mode, &mut self.rows, line)? {
            self.pending = Some(pending);
        }
        Ok(())
    }

    /// Takes a line where a row comes next. A bracket alone is taken at once, since it wants no
    /// search for fields.
    #[inline(always)]
    #[tactic(auto, using(crate::proofs::LoneBrackets::open_block, crate::proofs::LoneBrackets::close_block, crate::proofs::LoneBrackets::open_symbol, crate::proofs::LoneBrackets::close_symbol))]
    fn take_next(&mut self, alloc: Global, mode: FileMode, line: &[u8]) -> Result<(), LineFault>
        requires { self.old.pending ≡ None }
        ensures head { self.new.head ≡ self.old.head }
        ensures more { Gives (λ _. reader_of self.new.rows self.new.pending) result
            (take_between mode self.old.rows line.now) }
    {
        let rows = &mut self.rows;
        match only_byte(line) {
            Some(b'{') => take_said(alloc, mode, rows, Row::OpenBlock, line),
            Some(b'}') => take_said(alloc, mode, rows, Row::CloseBlock, line),
            Some(b'[') => take_said(alloc, mode, rows, Row::OpenSymbol, line),
            Some(b']') => take_said(alloc, mode, rows, Row::CloseSymbol, line),
            _ => self.take_long(alloc, mode, line),
        }
    }

    /// Takes the next line, or says why it is refused.
    #[inline(always)]
    pub fn take(&mut self, alloc: Global, mode: FileMode, line: &[u8]) -> Result<(), LineFault>
        requires { IsCutLine line.now }
        ensures { Gives (λ _. state_of self.new) result
            (take_line mode (state_of self.old) line.now) }
    {
        if self.head.is_none() {
            return self.take_version(alloc, mode, line);
        }
        if self.pending.is_some() {
            return self.go_on(alloc, mode, line);
        }
        self.take_next(alloc, mode, line)
    }

    /// What the version line says, behind the last line, or why a line is missing.
    fn head_at_end(&self) -> Result<Head, LineFault>
        ensures { Gives (λ head. head) result
            (map_ok (λ ended. ended.0) (end_rows (state_of self.now))) }
    {
        let Some(head) = self.head else {
            return Err(LineFault::Refused(ReadKind::NoVersion));
        };
        if self.pending.is_some() {
            return Err(LineFault::Refused(ReadKind::CutShort));
        }
        Ok(head)
    }

    /// What is there behind the last line, or why one is missing. It takes no memory.
    pub fn end(self) -> Result<(Head, OpenRows), LineFault>
        ensures { Gives (λ p. p) result (end_rows (state_of self)) }
    {
        match self.head_at_end() {
            Ok(head) => Ok((head, self.rows)),
            Err(fault) => {
                drop(self);
                Err(fault)
            }
        }
    }
}
