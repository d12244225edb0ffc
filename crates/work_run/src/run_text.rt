// What is told of a run.
ghost use Rattle.std.specs.Prelude.{◌≡◌, ◌<◌, ◌≤◌, ◌^◌, ◌++◌, ◌∷◌, IfOk, OnOk, length, count_by};
ghost use Rattle.std.specs.FinMap.{entries};
ghost use Rattle.std.specs.Fmt.{decimal};
ghost use Rattle.std.specs.String.{string_bytes};
ghost use Rattle.sheet_groups.specs.Conductors.{sheet_conductors};
ghost use Rattle.sheet_groups.specs.Groups.{AreGroups};
ghost use Rattle.hierarchy.specs.Instances.{IsCrowded};
ghost use Rattle.net_names.specs.NetLists.{IsNetListOf};
ghost use Rattle.work_run.specs.RunText.{WorkComesTo, is_first, named_number, run_text};
ghost use Rattle.work_run.specs.steps.SoundRuns.{run_of};

use crate::steps::{Run, run_from};
use geda_geom::Key;
use hierarchy::ElabFault;
use net_list::Nets;
use project_model::Project;
use reports::net_list;
use std::alloc::{AllocError, Global};

fn live(alloc: Global, project: &Project) -> Result<usize, AllocError>
    ensures { IfOk result (λ count. count ≡ length (entries project.now.contents.objects)) }
{
    Ok(project.objects_by_id(alloc)?.len())
}

fn group_count(groups: &[(Key, Key)]) -> usize
    ensures { result ≡ count_by is_first groups.now }
{
    groups.iter().filter(|row| row.0 == row.1).count()
}

fn put_number(text: &mut String, name: &str, number: u64) -> Result<(), AllocError>
    ensures { OnOk result
        (string_bytes text.new ≡ string_bytes text.old ++ named_number name.now number) }
{
    writeln!(text, "{name} {number}")?;
    Ok(())
}

/// The seven lines.
fn told(
    alloc: Global,
    asked: (u32, u32),
    run: &Run,
    groups: &[(Key, Key)],
    nets: &Nets,
) -> Result<Vec<u8>, AllocError>
    requires { AreGroups (sheet_conductors run.now.board.project) groups.now }
    ensures text { IfOk result (λ text. text.items ≡ run_text asked.0 asked.1 (run_of run.now)
        groups.now run.now.board.asked nets.now) }
    ensures calls { OnOk result (run.now.board.asked < 2 ^ 64) }
{
    let mut text = String::new(alloc);
    writeln!(text, "work {} {}", asked.0, asked.1)?;
    put_number(&mut text, "live", live(alloc, run.board.project())? as u64)?;
    put_number(&mut text, "conductors", groups.len() as u64)?;
    put_number(&mut text, "groups", group_count(groups) as u64)?;
    put_number(&mut text, "nets", nets.nets.as_slice().len() as u64)?;
    put_number(&mut text, "bound", run.bound)?;
    put_number(&mut text, "calls", run.board.asked())?;
    Ok(text.into_bytes())
}

/// The net list of a project within the limits of a hierarchy.
fn nets_of(alloc: Global, project: &Project) -> Result<Nets, AllocError>
    requires { ¬ (IsCrowded project.now.contents) }
    ensures { IfOk result (IsNetListOf project.now.contents) }
{
    match net_list(alloc, project) {
        Ok(nets) => Ok(nets),
        Err(ElabFault::NoMemory) => Err(AllocError),
        Err(ElabFault::TooManyInstances) => unreachable!(),
    }
}

/// Makes so many steps of the work from a start on one board (docs/RULES.md, "Work"), and tells
/// what they come to (docs/FORMATS.md, "Work text").
pub fn work_text(alloc: Global, start: u32, count: u32) -> Result<Vec<u8>, AllocError>
    requires few { count ≤ 100000 }
    ensures { IfOk result (λ text. WorkComesTo start count text.items) }
{
    let run = run_from(alloc, start, count)?;
    let groups = run.board.local_groups(alloc)?;
    let nets = nets_of(alloc, run.board.project())?;
    Ok(told(alloc, (start, count), &run, &groups, &nets)?)
}
