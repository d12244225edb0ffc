// What a project comes to by its net list.
ghost use Rattle.sheet_groups.specs.Conductors.{sheet_conductors};
ghost use Rattle.sheet_groups.specs.Groups.{AreGroups};
ghost use Rattle.backends.specs.Forms.{net_text};
ghost use Rattle.reports.specs.NetLists.{Elaborates, OfNetList, checked, seen_text};

use crate::check_report::{Check, reported};
use backends::net_text;
use board_core::Board;
use drc_rules::{Matrix, findings_on};
use geda_geom::Key;
use hierarchy::{ElabFault, elaborate};
use instance_objects::InstanceObjects;
use net_list::{Form, Nets};
use net_names::{join, join_objects};
use project_model::Project;
use sheet_groups::local_groups;
use std::alloc::{AllocError, Global};

/// The net list of a project (docs/RULES.md, "Nets").
///
/// `TooManyInstances` exactly where the limits of a hierarchy are exceeded.
pub fn net_list(alloc: Global, project: &Project) -> Result<Nets, ElabFault>
    ensures { Elaborates
        (OfNetList ElabFault.TooManyInstances (λ nets. nets) project.now.contents) result }
{
    let hierarchy = elaborate(alloc, project)?;
    let groups = local_groups(alloc, project)?;
    Ok(join(alloc, project, &hierarchy, groups)?)
}

/// The text of the net list of a project with these groups, in a form.
fn net_report_by(
    alloc: Global,
    form: Form,
    project: &Project,
    groups: Vec<(Key, Key)>,
) -> Result<Vec<u8>, ElabFault>
    requires { AreGroups (sheet_conductors project.now.contents) groups.items }
    ensures { Elaborates
        (OfNetList ElabFault.TooManyInstances (net_text form) project.now.contents)
        (seen_text result) }
{
    let hierarchy = elaborate(alloc, project)?;
    let nets = join(alloc, project, &hierarchy, groups)?;
    Ok(net_text(alloc, form, &nets)?)
}

/// The text of the net list of a project in a form.
///
/// `TooManyInstances` exactly where the limits of a hierarchy are exceeded.
pub fn net_report(alloc: Global, form: Form, project: &Project) -> Result<Vec<u8>, ElabFault>
    ensures { Elaborates
        (OfNetList ElabFault.TooManyInstances (net_text form) project.now.contents)
        (seen_text result) }
{
    let groups = local_groups(alloc, project)?;
    net_report_by(alloc, form, project, groups)
}

/// The text of the net list of a board's project in a form, by the groups that the board has.
pub(crate) fn board_report(alloc: Global, form: Form, board: &Board) -> Result<Vec<u8>, ElabFault>
    ensures { Elaborates
        (OfNetList ElabFault.TooManyInstances (net_text form) board.now.project)
        (seen_text result) }
{
    let groups = board.local_groups(alloc)?;
    net_report_by(alloc, form, board.project(), groups)
}

/// The report of the check of a project with these groups, under a matrix, and the net list that
/// it is made by. Its objects in instances are made once, for the net list and for the findings.
fn check_and_nets_by(
    alloc: Global,
    matrix: &Matrix,
    project: &Project,
    groups: Vec<(Key, Key)>,
) -> Result<(Check, Nets), ElabFault>
    requires { AreGroups (sheet_conductors project.now.contents) groups.items }
    ensures { Elaborates
        (OfNetList ElabFault.TooManyInstances
        (λ nets. (checked project.now.contents matrix.now nets, nets))
        project.now.contents) result }
{
    let hierarchy = elaborate(alloc, project)?;
    let objects = InstanceObjects::of(alloc, project, hierarchy.instances.as_slice())?;
    let nets = join_objects(alloc, &objects, groups)?;
    let found = findings_on(alloc, &objects, hierarchy.lost.as_slice(), &nets, matrix)?;
    Ok((reported(alloc, &found)?, nets))
}

/// The report of the check of a project with these groups, under a matrix.
fn check_by(
    alloc: Global,
    matrix: &Matrix,
    project: &Project,
    groups: Vec<(Key, Key)>,
) -> Result<Check, ElabFault>
    requires { AreGroups (sheet_conductors project.now.contents) groups.items }
    ensures { Elaborates
        (OfNetList ElabFault.TooManyInstances (checked project.now.contents matrix.now)
        project.now.contents) result }
{
    let (check, _) = check_and_nets_by(alloc, matrix, project, groups)?;
    Ok(check)
}

/// The report of the check of a project under a matrix, and the net list that it is made by, for
/// who leaves its memory to the system (docs/RULES.md, "Findings").
///
/// `TooManyInstances` exactly where the limits of a hierarchy are exceeded.
pub fn check_and_nets(
    alloc: Global,
    matrix: &Matrix,
    project: &Project,
) -> Result<(Check, Nets), ElabFault>
    ensures { Elaborates
        (OfNetList ElabFault.TooManyInstances
        (λ nets. (checked project.now.contents matrix.now nets, nets))
        project.now.contents) result }
{
    let groups = local_groups(alloc, project)?;
    check_and_nets_by(alloc, matrix, project, groups)
}

/// The report of the check of a project under a matrix (docs/RULES.md, "Findings").
///
/// `TooManyInstances` exactly where the limits of a hierarchy are exceeded.
pub fn check(alloc: Global, matrix: &Matrix, project: &Project) -> Result<Check, ElabFault>
    ensures { Elaborates
        (OfNetList ElabFault.TooManyInstances (checked project.now.contents matrix.now)
        project.now.contents) result }
{
    let groups = local_groups(alloc, project)?;
    check_by(alloc, matrix, project, groups)
}

/// The report of the check of a board's project under a matrix, by the groups that the board has.
pub(crate) fn board_check(alloc: Global, matrix: &Matrix, board: &Board) -> Result<Check, ElabFault>
    ensures { Elaborates
        (OfNetList ElabFault.TooManyInstances (checked board.now.project matrix.now)
        board.now.project) result }
{
    let groups = board.local_groups(alloc)?;
    check_by(alloc, matrix, board.project(), groups)
}
