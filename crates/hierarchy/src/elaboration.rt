// The hierarchy of a project.
ghost use Rattle.std.specs.Prelude.{◌≡◌, ◌≢◌, ◌<◌, ◌≤◌, ◌↔◌, All, AllPairs, Contains, IfOk, IsErrOf, List, OnOk, length};
ghost use Rattle.project_model.specs.Projects.{ProjectData};
ghost use Rattle.hierarchy.specs.declared.fault.ElabFault.TheVariants as faults;
ghost use Rattle.hierarchy.specs.SheetTable.{sheet_table};
ghost use Rattle.hierarchy.specs.Ways.{IsWay, WayData, last_sheet, ways};
ghost use Rattle.hierarchy.specs.Crowded.{HasTooMany};
ghost use Rattle.hierarchy.specs.Instances.{AreApart, IsCrowded, instances, instances_of, lost_of};
ghost use Rattle.hierarchy.specs.Lost.{lost};
ghost use Rattle.hierarchy.specs.steps.Inside.{AreSources};

use crate::crowd::{MOST_STEPS, are_too_many};
use crate::fault::ElabFault;
use crate::filling::sheet_table;
use crate::instances::{Instance, instances_at};
use crate::lost::{Lost, lost_by};
use crate::table::TableSheet;
use crate::way::Way;
use crate::widening::{root_ways, widened};
use geda_model::Items;
use project_model::Project;
use std::alloc::Global;

/// The instances of a project's sheets, and what is left out of them.
#[derive(Debug, Drop)]
pub struct Hierarchy {
    /// All instances, from the roots on: each directly before its children, those by component id
    /// and then by the order of the sources.
    pub instances: Items<Instance>,
    /// What is left out, in the order of the instances; last the sheets without an instance, in
    /// order of name.
    pub lost: Items<Lost>,
}

/// All ways, in order.
fn all_ways(alloc: Global, sheets: &[TableSheet]) -> Result<Vec<Way>, ElabFault>
    requires { AreSources sheets.now }
    ensures all { IfOk result (λ all. all.items ≡ ways sheets.now) }
    ensures few { OnOk result (¬ HasTooMany sheets.now) }
    ensures crowded { IsErrOf result faults.TooManyInstances → HasTooMany sheets.now }
{
    let mut ways = root_ways(alloc, sheets)?;
    for depth in 0..MOST_STEPS + 1 {
        if are_too_many(sheets, ways.as_slice()) {
            return Err(ElabFault::TooManyInstances);
        }
        ways = widened(alloc, sheets, ways, depth)?;
    }
    if are_too_many(sheets, ways.as_slice()) {
        return Err(ElabFault::TooManyInstances);
    }
    Ok(ways)
}

/// The hierarchy of a table of sheets.
fn hierarchy_of(alloc: Global, sheets: &[TableSheet]) -> Result<Hierarchy, ElabFault>
    requires sources { AreSources sheets.now }
    requires once { AllPairs ◌≢◌ (ways sheets.now) }
    ensures instances { IfOk result (λ hierarchy. hierarchy.instances ≡ instances sheets.now) }
    ensures lost { IfOk result (λ hierarchy. hierarchy.lost ≡ lost sheets.now) }
    ensures few { OnOk result (¬ HasTooMany sheets.now) }
    ensures crowded { IsErrOf result faults.TooManyInstances → HasTooMany sheets.now }
{
    let ways = all_ways(alloc, sheets)?;
    let lost = lost_by(alloc, sheets, ways.as_slice())?;
    let instances = instances_at(alloc, sheets, ways.as_slice())?;
    Ok(Hierarchy {
        instances: Items::from_vec(instances),
        lost: Items::from_vec(lost),
    })
}

/// The instances of a project's sheets (docs/RULES.md, "Instances"), and what is left out of them
/// ("Sources that are left out").
///
/// `TooManyInstances` exactly where there would be over 4,096 instances, a route of over 16 ids, or
/// a sum over instances of weights of over 4,000,000 ("Limits of a hierarchy").
pub fn elaborate(alloc: Global, project: &Project) -> Result<Hierarchy, ElabFault>
    ensures instances { IfOk result
        (λ hierarchy. hierarchy.instances ≡ instances_of project.now.contents) }
    ensures lost { IfOk result (λ hierarchy. hierarchy.lost ≡ lost_of project.now.contents) }
    ensures accepted { OnOk result (¬ IsCrowded project.now.contents) }
    ensures refused { IsErrOf result faults.TooManyInstances → IsCrowded project.now.contents }
{
    let sheets = sheet_table(alloc, project)?;
    hierarchy_of(alloc, sheets.as_slice())
}

/// The law that the list of ways has exactly the ways: the steps down from a root on which no sheet
/// comes twice.
pub fn ways_law()
    ensures { (p : ProjectData) (w : WayData)
        → Contains (ways (sheet_table p)) w ↔ IsWay (sheet_table p) w }
{}

/// The law that a way has fewer steps than the project has sheets.
pub fn short_law()
    ensures { (p : ProjectData) (w : WayData)
        → IsWay (sheet_table p) w → length w.steps < length (sheet_table p) }
{}

/// The law that each way stands once in the list.
pub fn once_law()
    ensures { (p : ProjectData) → AllPairs ◌≢◌ (ways (sheet_table p)) }
{}

/// The law that an instance is known by its route and its sheet.
pub fn known_law()
    ensures { (p : ProjectData) → AllPairs AreApart (instances_of p) }
{}
