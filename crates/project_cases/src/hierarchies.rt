// Hierarchies of the sheets of a table.
use case_projects::project_in;
use case_tables::{CaseFault, TableFiles};
use hierarchy::{ElabFault, Hierarchy, Lost, elaborate};
use std::alloc::{AllocError, Global};

/// Why a case whose sheets have no hierarchy comes to no answer.
pub fn case_fault(fault: ElabFault) -> CaseFault {
    match fault {
        ElabFault::TooManyInstances => CaseFault::BadCase,
        ElabFault::NoMemory => CaseFault::NoMemory,
    }
}

fn put_lost(out: &mut String, lost: &Lost) -> Result<(), AllocError> {
    match lost {
        Lost::MissingSource { sheet, value } => {
            writeln!(out, "> missing {} {}", sheet.as_str(), value.as_str())
        }
        Lost::SourceLoop { refdes, sheet } => {
            writeln!(out, "> loop {} {}", refdes.as_str(), sheet.as_str())
        }
        Lost::Unreached { sheet } => writeln!(out, "> unreached {}", sheet.as_str()),
    }
}

fn instances_text(alloc: Global, hierarchy: &Hierarchy) -> Result<String, AllocError> {
    let mut out = String::new(alloc);
    for instance in hierarchy.instances.as_slice() {
        let route = instance.route.as_slice();
        let path = instance.path.as_str();
        let sheet = instance.sheet.as_str();
        writeln!(out, "> {sheet} [{path}] {route:?}")?;
    }
    for lost in hierarchy.lost.as_slice() {
        put_lost(&mut out, lost)?;
    }
    Ok(out)
}

/// The instances of the sheets that words name, and what is left out.
pub fn instances(alloc: Global, words: &str, files: &TableFiles) -> Result<String, CaseFault> {
    let project = project_in(alloc, words, files)?;
    let hierarchy = elaborate(alloc, &project).map_err(case_fault);
    drop(project);
    Ok(instances_text(alloc, &hierarchy?)?)
}
