// The net list of a sheet of a table.
use crate::hierarchies::case_fault;
use case_projects::project_in;
use case_tables::{CaseFault, TableFiles};
use hierarchy::elaborate;
use net_list::Nets;
use net_names::join;
use project_model::Project;
use sheet_groups::local_groups;
use std::alloc::Global;

fn net_list(alloc: Global, project: &Project) -> Result<Nets, CaseFault> {
    let hierarchy = elaborate(alloc, project).map_err(case_fault)?;
    let groups = local_groups(alloc, project)?;
    Ok(join(alloc, project, &hierarchy, groups)?)
}

/// The net list of the project of a sheet.
pub fn nets_in(alloc: Global, sheet: &str, files: &TableFiles) -> Result<Nets, CaseFault> {
    let project = project_in(alloc, sheet, files)?;
    let nets = net_list(alloc, &project);
    drop(project);
    nets
}
