// The text of a report on symbols.
ghost use Rattle.std.specs.Prelude.{◌≡◌, ◌++◌, IfOk, OnOk, count_by};
ghost use Rattle.std.specs.List.{flat_map, list_any};
ghost use Rattle.sym_check.specs.Report.{all_found, file_count_text, file_text, is_symbol_error};
ghost use Rattle.sym_check.specs.Report.{is_symbol_warning, symbol_finding_text, symbol_level_word};
ghost use Rattle.sym_check.specs.Report.{symbol_report_text, symbol_rule_name, words_text};

use crate::finding::SymFinding;
use geda_model::{Items, Name};
use std::alloc::{AllocError, Global};
use text_tallies::put_levels;

/// A file with a symbol that was checked.
#[derive(Debug, Drop)]
pub struct CheckedFile {
    /// The name of the file.
    pub file: Name,
    /// What is found in it, in the order of the report.
    pub findings: Items<SymFinding>,
}

/// The name of a rule by its number.
fn code_name(code: u8) -> &'static str
    ensures { result.now ≡ symbol_rule_name code }
{
    match code {
        1 => "NoDevice",
        2 => "NoRefdes",
        3 => "NoPins",
        4 => "MissingNumber",
        5 => "MissingSeq",
        6 => "DuplicateNumber",
        7 => "DuplicateSeq",
        8 => "MissingLabel",
        9 => "BadPintype",
        10 => "OffGrid",
        11 => "BadNumslots",
        12 => "MissingSlotdef",
        13 => "DuplicateSlotdef",
        14 => "BadSlotdef",
        _ => "BadNet",
    }
}

fn level_word(error: bool) -> &'static str
    ensures { result.now ≡ symbol_level_word error }
{
    if error { "error" } else { "warning" }
}

fn put_words(out: &mut Vec<u8>, words: &str) -> Result<(), AllocError>
    ensures { OnOk result (out.new.items ≡ out.old.items ++ words_text words.now) }
{
    let bytes = words.as_bytes();
    match bytes {
        [] => Ok(()),
        [..] => {
            out.push(b' ')?;
            out.extend_from_slice(bytes)
        }
    }
}

fn put_finding(out: &mut Vec<u8>, finding: &SymFinding) -> Result<(), AllocError>
    ensures { OnOk result (out.new.items ≡ out.old.items ++ symbol_finding_text finding.now) }
{
    out.extend_from_slice(level_word(finding.error).as_bytes())?;
    out.push(b' ')?;
    out.extend_from_slice(code_name(finding.code).as_bytes())?;
    put_words(out, finding.words.as_str())?;
    out.push(b'\n')?;
    Ok(())
}

fn put_findings(out: &mut Vec<u8>, findings: &[SymFinding]) -> Result<(), AllocError>
    ensures { OnOk result
        (out.new.items ≡ out.old.items ++ flat_map symbol_finding_text findings.now) }
{
    for finding in findings {
        put_finding(out, finding)?;
    }
    Ok(())
}

fn put_count(alloc: Global, out: &mut Vec<u8>, file: &str, count: usize) -> Result<(), AllocError>
    ensures { OnOk result (out.new.items ≡ out.old.items ++ file_count_text file.now count) }
{
    let line = format!(in alloc; "{file}: findings {count}\n")?;
    out.extend_from_slice(line.as_bytes())
}

fn put_file(alloc: Global, out: &mut Vec<u8>, file: &CheckedFile) -> Result<(), AllocError>
    ensures { OnOk result (out.new.items ≡ out.old.items ++ file_text file.now) }
{
    put_count(alloc, out, file.file.as_str(), file.findings.len())?;
    put_findings(out, file.findings.as_slice())
}

fn put_files(alloc: Global, out: &mut Vec<u8>, files: &[CheckedFile]) -> Result<(), AllocError>
    ensures { OnOk result (out.new.items ≡ out.old.items ++ flat_map file_text files.now) }
{
    for file in files {
        put_file(alloc, out, file)?;
    }
    Ok(())
}

fn count_errors(findings: &[SymFinding]) -> usize
    ensures { result ≡ count_by is_symbol_error findings.now }
{
    findings.iter().filter(|finding| finding.error).count()
}

fn count_warnings(findings: &[SymFinding]) -> usize
    ensures { result ≡ count_by is_symbol_warning findings.now }
{
    findings.iter().filter(|finding| !finding.error).count()
}

/// How many errors are found in all files.
fn all_errors(files: &[CheckedFile]) -> u128
    ensures { result ≡ count_by is_symbol_error (all_found files.now) }
{
    let mut errors: u128 = 0;
    for file in files {
        errors += count_errors(file.findings.as_slice()) as u128;
    }
    errors
}

/// How many warnings are found in all files.
fn all_warnings(files: &[CheckedFile]) -> u128
    ensures { result ≡ count_by is_symbol_warning (all_found files.now) }
{
    let mut warnings: u128 = 0;
    for file in files {
        warnings += count_warnings(file.findings.as_slice()) as u128;
    }
    warnings
}

/// The text of a report on these files, in their order (docs/FORMATS.md, "Symbol report").
pub fn report_text(alloc: Global, files: &[CheckedFile]) -> Result<Vec<u8>, AllocError>
    ensures { IfOk result (λ text. text.items ≡ symbol_report_text files.now) }
{
    let mut out = Vec::new(alloc);
    put_files(alloc, &mut out, files)?;
    put_levels(alloc, &mut out, all_errors(files), all_warnings(files))?;
    Ok(out)
}

fn has_error(findings: &[SymFinding]) -> bool
    ensures { result ≡ list_any is_symbol_error findings.now }
{
    findings.iter().any(|finding| finding.error)
}

/// Whether an error is found in some file. It takes no memory.
#[tactic(auto, using(crate::proofs::ListLemmas::any_append))]
pub fn has_errors(files: &[CheckedFile]) -> bool
    ensures { result ≡ list_any is_symbol_error (all_found files.now) }
{
    for file in files {
        if has_error(file.findings.as_slice()) {
            return true;
        }
    }
    false
}
