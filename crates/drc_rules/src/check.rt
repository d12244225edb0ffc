// The findings of a project.
ghost use Rattle.std.specs.Prelude.{◌≡◌, ◌++◌, ◌∷◌, [], IfOk, OnOk, map};
ghost use Rattle.std.specs.List.Sorted.{IsStrictlySortedBy};
ghost use Rattle.hierarchy.specs.Instances.{instances_of, lost_of};
ghost use Rattle.drc_findings.specs.Order.{by_finding};
ghost use Rattle.drc_rules.specs.Findings.{findings, lost_finding};

use crate::on_nets::add_on_nets;
use component_checks::{add_on_components, add_on_packages, checked_components};
use drc_findings::{Finding, Rule, add_error, add_warning};
use hierarchy::{Hierarchy, Lost};
use instance_objects::{InstanceObjects, once_in_order};
use net_list::Nets;
use pin_matrix::Matrix;
use printed_texts::{name_words, pair_words};
use project_model::Project;
use std::alloc::{AllocError, Global};

fn add_lost_one(alloc: Global, found: &mut Vec<Finding>, lost: &Lost) -> Result<(), AllocError>
    ensures { OnOk result (found.new.items ≡ found.old.items ++ lost_finding lost.now ∷ []) }
{
    match lost {
        Lost::MissingSource { sheet, value } => {
            let words = pair_words(alloc, sheet.as_str(), value.as_str())?;
            add_error(found, Rule::MissingSource, words)
        }
        Lost::SourceLoop { refdes, sheet } => {
            let words = pair_words(alloc, refdes.as_str(), sheet.as_str())?;
            add_error(found, Rule::SourceLoop, words)
        }
        Lost::Unreached { sheet } => {
            let words = name_words(alloc, sheet.as_str())?;
            add_warning(found, Rule::Unreached, words)
        }
    }
}

fn add_lost(alloc: Global, found: &mut Vec<Finding>, lost: &[Lost]) -> Result<(), AllocError>
    ensures { OnOk result (found.new.items ≡ found.old.items ++ map lost_finding lost.now) }
{
    for one in lost {
        add_lost_one(alloc, found, one)?;
    }
    Ok(())
}

/// The findings of a project by its objects in the instances of its sheets, what its hierarchy
/// leaves out and this net list, under a matrix, in order, equal ones once (docs/RULES.md,
/// "Findings").
pub fn findings_on(
    alloc: Global,
    objects: &InstanceObjects<'_>,
    lost: &[Lost],
    nets: &Nets,
    matrix: &Matrix,
) -> Result<Vec<Finding>, AllocError>
    requires lost { lost.now ≡ lost_of objects.now }
    ensures findings { IfOk result (λ list. list.items ≡ findings objects.now nets.now matrix.now) }
    ensures rising { IfOk result (λ list. IsStrictlySortedBy by_finding list.items) }
{
    let components = checked_components(alloc, objects)?;
    let mut found = Vec::new(alloc);
    add_on_components(alloc, &mut found, &components)?;
    add_on_packages(alloc, &mut found, &components, nets.packages.as_slice())?;
    add_on_nets(alloc, &mut found, matrix, nets.nets.as_slice())?;
    add_lost(alloc, &mut found, lost)?;
    let list = once_in_order(found)?;
    Ok(list)
}

/// The findings of a project with this hierarchy and this net list under a matrix, in order, equal
/// ones once (docs/RULES.md, "Findings").
pub fn findings(
    alloc: Global,
    project: &Project,
    hierarchy: &Hierarchy,
    nets: &Nets,
    matrix: &Matrix,
) -> Result<Vec<Finding>, AllocError>
    requires instances { hierarchy.now.instances ≡ instances_of project.now.contents }
    requires lost { hierarchy.now.lost ≡ lost_of project.now.contents }
    ensures findings { IfOk result
        (λ list. list.items ≡ findings project.now.contents nets.now matrix.now) }
    ensures rising { IfOk result (λ list. IsStrictlySortedBy by_finding list.items) }
{
    let objects = InstanceObjects::of(alloc, project, hierarchy.instances.as_slice())?;
    findings_on(alloc, &objects, hierarchy.lost.as_slice(), nets, matrix)
}
