// The text of a report.
ghost use Rattle.std.specs.Prelude.{◌≡◌, ◌++◌, IfOk, OnOk, count_by};
ghost use Rattle.std.specs.List.{flat_map};
ghost use Rattle.drc_findings.specs.Report.{code_name, count_text, finding_text, is_error};
ghost use Rattle.drc_findings.specs.Report.{is_warning, level_word, report_text};

use crate::finding::Finding;
use pin_matrix::Level;
use std::alloc::{AllocError, Global};
use text_tallies::put_levels;

/// The name of a rule by its number.
fn code_name(code: u8) -> &'static str
    ensures { result.now ≡ code_name code }
{
    match code {
        1 => "Unnumbered",
        2 => "NoRefdes",
        3 => "DuplicateRefdes",
        4 => "DuplicateSlot",
        5 => "BadSlot",
        6 => "UnusedSlot",
        7 => "UnknownPintype",
        8 => "Conflict",
        9 => "OnePin",
        10 => "UnconnectedPin",
        11 => "NotDriven",
        12 => "PinOnTwoNets",
        13 => "MissingSymbol",
        14 => "MissingSource",
        15 => "SourceLoop",
        16 => "Unreached",
        17 => "BadNet",
        18 => "SameText",
        _ => "NoConnection",
    }
}

fn level_word(level: Level) -> &'static str
    ensures { result.now ≡ level_word level }
{
    match level {
        Level::Correct => "correct",
        Level::Warning => "warning",
        Level::Error => "error",
    }
}

fn is_error(finding: &Finding) -> bool
    ensures { result ≡ is_error finding.now }
{
    match finding.level {
        Level::Error => true,
        Level::Correct | Level::Warning => false,
    }
}

fn is_warning(finding: &Finding) -> bool
    ensures { result ≡ is_warning finding.now }
{
    match finding.level {
        Level::Warning => true,
        Level::Correct | Level::Error => false,
    }
}

fn put_finding(out: &mut Vec<u8>, finding: &Finding) -> Result<(), AllocError>
    ensures { OnOk result (out.new.items ≡ out.old.items ++ finding_text finding.now) }
{
    out.extend_from_slice(level_word(finding.level).as_bytes())?;
    out.push(b' ')?;
    out.extend_from_slice(code_name(finding.code).as_bytes())?;
    out.push(b' ')?;
    out.extend_from_slice(finding.words.as_str().as_bytes())?;
    out.push(b'\n')?;
    Ok(())
}

fn put_findings(out: &mut Vec<u8>, findings: &[Finding]) -> Result<(), AllocError>
    ensures { OnOk result (out.new.items ≡ out.old.items ++ flat_map finding_text findings.now) }
{
    for finding in findings {
        put_finding(out, finding)?;
    }
    Ok(())
}

fn put_count(alloc: Global, out: &mut Vec<u8>, count: usize) -> Result<(), AllocError>
    ensures { OnOk result (out.new.items ≡ out.old.items ++ count_text count) }
{
    let line = format!(in alloc; "findings {count}\n")?;
    out.extend_from_slice(line.as_bytes())
}

fn count_errors(findings: &[Finding]) -> usize
    ensures { result ≡ count_by is_error findings.now }
{
    findings.iter().filter(|finding| is_error(finding)).count()
}

fn count_warnings(findings: &[Finding]) -> usize
    ensures { result ≡ count_by is_warning findings.now }
{
    findings
        .iter()
        .filter(|finding| is_warning(finding))
        .count()
}

/// The text of a report (docs/FORMATS.md, "Report").
pub fn report_text(alloc: Global, findings: &[Finding]) -> Result<Vec<u8>, AllocError>
    ensures { IfOk result (λ text. text.items ≡ report_text findings.now) }
{
    let errors = count_errors(findings);
    let warnings = count_warnings(findings);
    let mut out = Vec::new(alloc);
    put_count(alloc, &mut out, findings.len())?;
    put_findings(&mut out, findings)?;
    put_levels(alloc, &mut out, errors as u128, warnings as u128)?;
    Ok(out)
}
