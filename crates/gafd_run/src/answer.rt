// What each command answers. The program ends with the answer, so that a net list is left to the
// system, which takes all memory back at once.
ghost use Rattle.std.specs.Prelude.{◌≡◌, ◌≢◌, ◌≤◌, ◌-◌, ◌^◌, AllPairs, IfOk, true, false, min, string_bytes};
ghost use Rattle.pin_matrix.specs.MatrixFiles.{toml_document};
ghost use Rattle.geda_defs.specs.Contents.{KeepsFiles};
ghost use Rattle.command_words.specs.Commands.{IsAskable, most_steps};
ghost use Rattle.command_words.specs.declared.command.Command.TheVariants.{Drc, Export, Netlist};
ghost use Rattle.command_words.specs.declared.command.Command.TheVariants.{Renumber, Spice};
ghost use Rattle.command_words.specs.declared.command.Command.TheVariants.{Symcheck};
ghost use Rattle.outside.specs.Counts.{counts};
ghost use Rattle.project_files.specs.Measures.{LeavesIds, symbols_text};
ghost use Rattle.gafd_run.specs.Answers.{ByNetList, CircuitOf, TextOf, WorkOf, checked_under};
ghost use Rattle.gafd_run.specs.Answers.{RenumbersTo, is_symbol_name, listed, matrix_of_document};
ghost use Rattle.gafd_run.specs.Answers.{check_reported, renumber_line};
ghost use Rattle.gafd_run.specs.Answers.{symbols_reported, written_down};
ghost use Rattle.gafd_run.specs.steps.Checking.{MatrixFrom};
ghost use Rattle.gafd_run.specs.steps.Passing.{AnswerOf, ComesOf, IsOnFiles, Over};

use crate::fault::RunFault;
use crate::tables::{fill, table};
use backends::net_text;
use command_words::Command;
use drc_rules::{Matrix, MatrixFault};
use geda_model::{Items, Name};
use geda_write::{sheet_text, symbol_text};
use project_files::{
    Folder, MeasuredProject, measured_project_of, project_of, sheet_in, symbol_in,
};
use project_model::Project;
use renum_files::{FileText, RenumberedFiles, renumbered_files};
use reports::{Check, Form, check_and_nets, net_list};
use spice_out::spice_text;
use std::alloc::{AllocError, Global};
use std::marker::Model;
use std::mem::forget;
use sym_check::{CheckedFile, has_errors, report_text};
use symbol_files::checked_files;
use work_run::work_text;

/// What goes out, the status with which the program then ends, and the files that are written
/// before.
#[derive(Debug, Drop)]
pub struct Answer {
    /// The bytes that go out.
    pub text: Vec<u8>,
    /// The status.
    pub status: u8,
    /// The files, in the order in which they are written.
    pub files: Vec<FileText>,
}

impl Model for Answer {
    ghost use Rattle.gafd_run.specs.Answers.{AnswerData};

    ghost Value = { AnswerData };

    ghost view = { λ a. record {
      text = a.text.items;
      status = a.status;
      files = a.files.items;
    } };
}

impl Answer {
    ghost use Rattle.std.specs.Prelude.{◌≡◌};
    ghost use Rattle.gafd_run.specs.Answers.{all_well};

    pub(crate) fn done(alloc: Global, text: Vec<u8>) -> Answer
        ensures { result ≡ all_well text.items }
    {
        Answer {
            text,
            status: 0,
            files: Vec::new(alloc),
        }
    }
}

/// The text of the net list of a project in a form. The memory of both is left to the system, which
/// takes it back as the program ends.
fn listed(alloc: Global, form: Form, project: Project) -> Result<Answer, RunFault>
    ensures { ComesOf (ByNetList (listed form) project.contents) result }
{
    let nets = net_list(alloc, &project)?;
    let text = net_text(alloc, form, &nets)?;
    forget(nets);
    forget(project);
    Ok(Answer::done(alloc, text))
}

/// A project as a circuit for SPICE.
fn circuit(alloc: Global, project: &Project) -> Result<Answer, RunFault>
    ensures { ComesOf (CircuitOf project.now.contents) result }
{
    let nets = net_list(alloc, project)?;
    Ok(Answer::done(alloc, spice_text(alloc, &nets)?))
}

/// The answer of a check.
fn reported(alloc: Global, check: Check) -> Answer
    ensures { result ≡ check_reported check }
{
    Answer {
        text: check.text,
        status: if check.has_error { 7 } else { 0 },
        files: Vec::new(alloc),
    }
}

/// The report of the check of a project under a matrix. The memory of the project and of its net
/// list is left to the system, which takes it back as the program ends.
fn checked(alloc: Global, matrix: &Matrix, project: Project) -> Result<Answer, RunFault>
    ensures { ComesOf (ByNetList (checked_under matrix.now) project.contents) result }
{
    let (check, nets) = check_and_nets(alloc, matrix, &project)?;
    forget(nets);
    forget(project);
    Ok(reported(alloc, check))
}

/// The canonical text of the sheet that these bytes spell.
fn sheet_export(alloc: Global, file: &Name, bytes: &[u8]) -> Result<Answer, RunFault>
    ensures { ComesOf (TextOf false file.now bytes.now) result }
{
    let sheet = sheet_in(alloc, file, bytes)?;
    Ok(Answer::done(alloc, sheet_text(alloc, &sheet)?))
}

/// The canonical text of the symbol that these bytes spell.
fn symbol_export(alloc: Global, file: &Name, bytes: &[u8]) -> Result<Answer, RunFault>
    ensures { ComesOf (TextOf true file.now bytes.now) result }
{
    let symbol = symbol_in(alloc, file, bytes)?;
    Ok(Answer::done(alloc, symbol_text(alloc, &symbol)?))
}

fn is_symbol_name(name: &Name) -> bool
    ensures { result ≡ is_symbol_name name.now }
{
    name.as_str().as_bytes().ends_with(b".sym")
}

/// The canonical text of what these bytes spell.
fn text_of(alloc: Global, file: &Name, bytes: &[u8]) -> Result<Answer, RunFault>
    ensures { ComesOf (TextOf (is_symbol_name file.now) file.now bytes.now) result }
{
    if is_symbol_name(file) {
        symbol_export(alloc, file, bytes)
    } else {
        sheet_export(alloc, file, bytes)
    }
}

fn netlist<F: Folder>(
    alloc: Global,
    form: Form,
    names: Items<Name>,
    folder: &mut F,
) -> Result<Answer, RunFault>
    requires { AllPairs ◌≢◌ names }
    ensures answer { AnswerOf (counts (F.faults folder.old) (F.faults folder.new))
        (Over (F.files folder.old) (Netlist form names)) result }
    ensures later { F.faults folder.old ≤ F.faults folder.new }
    ensures files { KeepsFiles (F.files folder.old) (F.files folder.new) }
{
    let project = project_of(alloc, names.as_slice(), folder)?;
    listed(alloc, form, project)
}

fn spice<F: Folder>(alloc: Global, names: Items<Name>, folder: &mut F) -> Result<Answer, RunFault>
    requires { AllPairs ◌≢◌ names }
    ensures answer { AnswerOf (counts (F.faults folder.old) (F.faults folder.new))
        (Over (F.files folder.old) (Spice names)) result }
    ensures later { F.faults folder.old ≤ F.faults folder.new }
    ensures files { KeepsFiles (F.files folder.old) (F.files folder.new) }
{
    let project = project_of(alloc, names.as_slice(), folder)?;
    circuit(alloc, &project)
}

/// The matrix that the bytes of a file are.
fn matrix_in(alloc: Global, file: Name, bytes: &[u8]) -> Result<Matrix, RunFault>
    ensures { ComesOf (λ read. read ≡ matrix_of_document file (toml_document bytes.now)) result }
{
    match Matrix::read(alloc, bytes) {
        Ok(matrix) => Ok(matrix),
        Err(MatrixFault::BadToml) => Err(RunFault::BadToml { file }),
        Err(MatrixFault::BadRows) => Err(RunFault::BadRows { file }),
        Err(MatrixFault::NoMemory) => Err(RunFault::NoMemory),
    }
}

/// The matrix of a file, or the usual one where no file is named.
fn matrix_of<F: Folder>(
    alloc: Global,
    file: Option<Name>,
    folder: &mut F,
) -> Result<Matrix, RunFault>
    ensures matrix { AnswerOf (counts (F.faults folder.old) (F.faults folder.new))
        (MatrixFrom (F.files folder.old) file) result }
    ensures later { F.faults folder.old ≤ F.faults folder.new }
    ensures files { KeepsFiles (F.files folder.old) (F.files folder.new) }
{
    let Some(file) = file else {
        return Ok(Matrix::usual());
    };
    match folder.read(alloc, file.as_str())? {
        Some(bytes) => matrix_in(alloc, file, &bytes),
        None => Err(RunFault::Missing { file }),
    }
}

fn drc<F: Folder>(
    alloc: Global,
    matrix: Option<Name>,
    names: Items<Name>,
    folder: &mut F,
) -> Result<Answer, RunFault>
    requires { AllPairs ◌≢◌ names }
    ensures answer { AnswerOf (counts (F.faults folder.old) (F.faults folder.new))
        (Over (F.files folder.old) (Drc matrix names)) result }
    ensures later { F.faults folder.old ≤ F.faults folder.new }
    ensures files { KeepsFiles (F.files folder.old) (F.files folder.new) }
{
    let matrix = matrix_of(alloc, matrix, folder)?;
    let project = project_of(alloc, names.as_slice(), folder)?;
    checked(alloc, &matrix, project)
}

fn export<F: Folder>(alloc: Global, file: Name, folder: &mut F) -> Result<Answer, RunFault>
    ensures answer { AnswerOf (counts (F.faults folder.old) (F.faults folder.new))
        (Over (F.files folder.old) (Export file)) result }
    ensures later { F.faults folder.old ≤ F.faults folder.new }
    ensures files { KeepsFiles (F.files folder.old) (F.files folder.new) }
{
    match folder.read(alloc, file.as_str())? {
        Some(bytes) => text_of(alloc, &file, &bytes),
        None => Err(RunFault::Missing { file }),
    }
}

/// The report on symbols.
fn symbols_reported(alloc: Global, files: &[CheckedFile]) -> Result<Answer, AllocError>
    ensures { IfOk result (λ answer. answer ≡ symbols_reported files.now) }
{
    Ok(Answer {
        text: report_text(alloc, files)?,
        status: if has_errors(files) { 7 } else { 0 },
        files: Vec::new(alloc),
    })
}

fn symcheck<F: Folder>(
    alloc: Global,
    names: Items<Name>,
    folder: &mut F,
) -> Result<Answer, RunFault>
    ensures answer { AnswerOf (counts (F.faults folder.old) (F.faults folder.new))
        (Over (F.files folder.old) (Symcheck names)) result }
    ensures later { F.faults folder.old ≤ F.faults folder.new }
    ensures files { KeepsFiles (F.files folder.old) (F.files folder.new) }
{
    let files = checked_files(alloc, names.as_slice(), folder)?;
    let answer = symbols_reported(alloc, &files)?;
    Ok(answer)
}

fn renumber_line(alloc: Global, count: usize) -> Result<String, AllocError>
    ensures { IfOk result (λ line. string_bytes line ≡ renumber_line count) }
{
    format!(in alloc; "renumbered {count}\n")
}

/// The answer of a numbering.
fn written_down(alloc: Global, renumbered: RenumberedFiles) -> Result<Answer, AllocError>
    ensures { IfOk result (λ answer. answer ≡ written_down renumbered) }
{
    let RenumberedFiles { count, files } = renumbered;
    let line = renumber_line(alloc, count)?;
    Ok(Answer {
        text: line.into_bytes(),
        status: 0,
        files,
    })
}

/// What numbering a project comes to.
fn renumbered(alloc: Global, measured: MeasuredProject) -> Result<Answer, RunFault>
    requires symbols { measured.symbol_bytes
        ≡ min (symbols_text measured.project.contents) (2 ^ 64 - 1) }
    requires ids { LeavesIds measured.project.contents }
    ensures { ComesOf (RenumbersTo measured.project.contents) result }
{
    let renumbered = renumbered_files(alloc, measured)?;
    Ok(written_down(alloc, renumbered)?)
}

fn renumber<F: Folder>(
    alloc: Global,
    names: Items<Name>,
    folder: &mut F,
) -> Result<Answer, RunFault>
    requires { AllPairs ◌≢◌ names }
    ensures answer { AnswerOf (counts (F.faults folder.old) (F.faults folder.new))
        (Over (F.files folder.old) (Renumber names)) result }
    ensures later { F.faults folder.old ≤ F.faults folder.new }
    ensures files { KeepsFiles (F.files folder.old) (F.files folder.new) }
{
    let project = measured_project_of(alloc, names.as_slice(), folder)?;
    renumbered(alloc, project)
}

/// What so many steps of the work from a start come to.
fn work(alloc: Global, start: u32, count: u32) -> Result<Answer, RunFault>
    requires { count ≤ most_steps }
    ensures { ComesOf (WorkOf start count) result }
{
    Ok(Answer::done(alloc, work_text(alloc, start, count)?))
}

/// What a command on files answers, whose sheets differ. All files stay.
pub fn answer_of<F: Folder>(
    alloc: Global,
    command: Command,
    folder: &mut F,
) -> Result<Answer, RunFault>
    requires askable { IsAskable command }
    requires on_files { IsOnFiles command }
    ensures answer { AnswerOf (counts (F.faults folder.old) (F.faults folder.new))
        (Over (F.files folder.old) command) result }
    ensures later { F.faults folder.old ≤ F.faults folder.new }
    ensures files { KeepsFiles (F.files folder.old) (F.files folder.new) }
{
    match command {
        Command::Netlist { form, sheets } => netlist(alloc, form, sheets, folder),
        Command::Spice { sheets } => spice(alloc, sheets, folder),
        Command::Drc { matrix, sheets } => drc(alloc, matrix, sheets, folder),
        Command::Export { file } => export(alloc, file, folder),
        Command::Symcheck { symbols } => symcheck(alloc, symbols, folder),
        Command::Renumber { sheets } => renumber(alloc, sheets, folder),
        Command::Table { sheet } => table(alloc, sheet, folder),
        Command::Fill { sheet, table } => fill(alloc, sheet, table, folder),
        Command::Work { start, count } => work(alloc, start, count),
        Command::Serve { .. } | Command::Store { .. } => unreachable!(),
    }
}
