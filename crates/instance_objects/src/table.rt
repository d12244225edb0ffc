// The objects of a project in the instances of its sheets.
ghost use Rattle.std.specs.Prelude.{◌≡◌, IfOk, IfSome, MatchOption, None, Some};
ghost use Rattle.hierarchy.specs.Instances.{instances_of};
ghost use Rattle.instance_objects.specs.Occurrences.{object_at, occurrences};

use crate::object::InstanceObject;
use crate::occurrence::Occurrence;
use crate::order::occurrences;
use crate::ports::InstancePorts;
use hierarchy::Instance;
use project_model::Project;
use std::alloc::{AllocError, Global};
use std::marker::Model;

/// The objects of a project in the instances of its sheets, by route and then by id, with what
/// tells the ports of each instance.
#[derive(Drop)]
pub struct InstanceObjects<'a> {
    ports: InstancePorts<'a>,
    ordered: Vec<Occurrence<'a>>,
}

impl<'a> Model for InstanceObjects<'a> {
    ghost use Rattle.std.specs.Coded.{codes};
    ghost use Rattle.std.specs.FinMap as map;
    ghost use Rattle.std.specs.Prelude.{◌≡◌};
    ghost use Rattle.project_model.specs.Projects.{ProjectData};
    ghost use Rattle.hierarchy.specs.Instances.{instances_of};
    ghost use Rattle.instance_objects.specs.Occurrences.{occurrences};

    ghost Value = { ProjectData };

    ghost coded = { Prim.hlevel (codes, map.code) };

    ghost view = { λ t. t.ports.project };

    ghost invariant = { λ t. (t.ports.instances ≡ instances_of t.ports.project)
        × (t.ordered.items ≡ occurrences t.ports.project) };
}

impl<'a> InstanceObjects<'a> {
    /// The objects of a project in these instances, in time n log n in their count. Nothing of the
    /// project is copied but the labels of the components above an instance, once each.
    pub fn of(
        alloc: Global,
        project: &'a Project,
        instances: &'a [Instance],
    ) -> Result<InstanceObjects<'a>, AllocError>
        requires { instances.now ≡ instances_of project.now.contents }
        ensures { IfOk result (λ objects. objects ≡ project.now.contents) }
    {
        let ordered = occurrences(alloc, project, instances)?;
        let ports = InstancePorts::of(alloc, project, instances)?;
        Ok(InstanceObjects { ports, ordered })
    }

    /// The project. It takes no memory.
    pub fn project(&self) -> &'a Project
        ensures { result.now.contents ≡ self.now }
    {
        self.ports.project()
    }

    /// All objects in all instances, by route and then by id. It takes no memory.
    pub fn occurrences(&self) -> &[Occurrence<'a>]
        ensures { result.now ≡ occurrences self.now }
    {
        self.ordered.as_slice()
    }

    /// What stands there.
    ///
    /// `None` exactly where no instance has the place, or no object has the id. It takes no memory.
    pub fn object(&self, occurrence: &Occurrence<'_>) -> Option<InstanceObject<'_>>
        ensures object { MatchOption result (object_at self.now occurrence.now ≡ None)
            (λ found. object_at self.now occurrence.now ≡ Some found.flat) }
        ensures project { IfSome result (λ found. found.project ≡ self.now) }
    {
        let ports = self.ports.at(occurrence.instance)?;
        let placed = ports.project().object(occurrence.id)?;
        Some(InstanceObject {
            ports,
            place: occurrence.instance,
            id: occurrence.id,
            object: &placed.object,
        })
    }
}
