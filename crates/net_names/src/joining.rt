// The net list of a project.
ghost use Rattle.std.specs.Prelude.{◌≡◌, IfOk};
ghost use Rattle.std.specs.List.Sorted.{IsStrictlySortedBy};
ghost use Rattle.std.specs.Map.{keys_of};
ghost use Rattle.geda_geom.specs.Keys.{by_key};
ghost use Rattle.hierarchy.specs.Instances.{instances_of};
ghost use Rattle.sheet_groups.specs.Conductors.{sheet_conductors};
ghost use Rattle.sheet_groups.specs.Groups.{AreGroups};
ghost use Rattle.link_classes.specs.InstanceGroups.{AreInstanceGroups, groups_by};
ghost use Rattle.flat_sheets.specs.Conductors.{conductors_of};
ghost use Rattle.flat_sheets.specs.ListedParts.{listed_parts};
ghost use Rattle.net_names.specs.NetLists.{AreCountable, AreNetsOf, IsNetListOf};
ghost use Rattle.net_names.specs.Packages.{packages_by};

use crate::listing::nets_by;
use crate::packages::{packages_of, part_ranks};
use flat_rows::FlatRows;
use flat_sheets::flatten;
use geda_geom::Key;
use hierarchy::Hierarchy;
use instance_objects::InstanceObjects;
use link_classes::class_labels;
use net_list::Nets;
use project_model::Project;
use std::alloc::{AllocError, Global};

/// The net list of what joins in a project, with these groups of touching conductors.
fn joined(alloc: Global, flat: FlatRows, groups: Vec<(Key, Key)>) -> Result<Nets, AllocError>
    requires groups { AreInstanceGroups flat.conductors (groups_by groups.items) }
    requires rising { IsStrictlySortedBy by_key (keys_of groups.items) }
    ensures packages { IfOk result (λ list. list.packages ≡ packages_by flat.parts) }
    ensures nets { IfOk result (λ list. AreNetsOf flat.conductors list.nets) }
    ensures countable { IfOk result (λ _. AreCountable flat.conductors) }
{
    let labels = class_labels(alloc, &flat, &groups)?;
    drop(groups);
    let ranks = part_ranks(alloc, flat.refdeses())?;
    let nets = nets_by(alloc, &flat, &ranks, labels)?;
    let packages = packages_of(alloc, flat.into_parts(), &ranks)?;
    Ok(Nets { packages, nets })
}

/// The net list of a project by its objects in the instances of its sheets, with these groups of
/// touching conductors, which go once it is known what joins (docs/RULES.md, "Nets", "Packages",
/// "Names of nets").
pub fn join_objects(
    alloc: Global,
    objects: &InstanceObjects<'_>,
    groups: Vec<(Key, Key)>,
) -> Result<Nets, AllocError>
    requires groups { AreGroups (sheet_conductors objects.now) groups.items }
    ensures { IfOk result (IsNetListOf objects.now) }
{
    let flat = flatten(alloc, objects)?;
    joined(alloc, flat, groups)
}

/// What joins in a project with this hierarchy. The list of its objects in the instances of its
/// sheets is gone when it ends.
fn flat_project(
    alloc: Global,
    project: &Project,
    hierarchy: &Hierarchy,
) -> Result<FlatRows, AllocError>
    requires hierarchy { hierarchy.now.instances ≡ instances_of project.now.contents }
    ensures conductors { IfOk result
        (λ flat. flat.conductors ≡ conductors_of project.now.contents) }
    ensures parts { IfOk result (λ flat. flat.parts ≡ listed_parts project.now.contents) }
{
    let objects = InstanceObjects::of(alloc, project, hierarchy.instances.as_slice())?;
    flatten(alloc, &objects)
}

/// The net list of a project with this hierarchy and these groups of touching conductors
/// (docs/RULES.md, "Nets", "Packages", "Names of nets"). The groups go once it is known what joins.
pub fn join(
    alloc: Global,
    project: &Project,
    hierarchy: &Hierarchy,
    groups: Vec<(Key, Key)>,
) -> Result<Nets, AllocError>
    requires hierarchy { hierarchy.now.instances ≡ instances_of project.now.contents }
    requires groups { AreGroups (sheet_conductors project.now.contents) groups.items }
    ensures { IfOk result (IsNetListOf project.now.contents) }
{
    let flat = flat_project(alloc, project, hierarchy)?;
    joined(alloc, flat, groups)
}
