// Ports: components of an instance that stand for pins of the component above it.
ghost use Rattle.std.specs.Prelude.{◌≡◌, IfOk, IfSome, MatchOption, None, Some, option_copied};
ghost use Rattle.std.specs.List.{slice_get};
ghost use Rattle.instance_objects.specs.Ports.{component_above, is_port};
ghost use Rattle.instance_objects.specs.steps.LabelSets.{set_above};

use crate::labels::{LabelSets, component_above, labels_above};
use hierarchy::Instance;
use project_model::Project;
use std::alloc::{AllocError, Global};
use std::collections::HashSet;
use std::marker::Model;

/// An instance of a sheet, with the labels that tell its ports.
#[derive(Drop)]
pub(crate) struct Ports<'a> {
    project: &'a Project,
    instance: &'a Instance,
    labels: Option<&'a HashSet<String>>,
}

impl<'a> Model for Ports<'a> {
    ghost use Rattle.std.specs.Coded.{codes};
    ghost use Rattle.std.specs.FinMap as map;
    ghost use Rattle.std.specs.Prelude.{option_copied};
    ghost use Rattle.instance_objects.specs.steps.LabelSets.{PortsData, ArePortsBy};

    ghost Value = { PortsData };

    ghost coded = { Prim.hlevel (codes, map.code) };

    ghost view = { λ p. record { project = p.project.now.contents; instance = p.instance.now } };

    ghost invariant = { λ p.
        ArePortsBy p.project.now.contents p.instance.now (option_copied p.labels) };
}

impl<'a> Ports<'a> {
    pub(crate) fn project(&self) -> &'a Project
        ensures { result.now.contents ≡ self.now.project }
    {
        self.project
    }

    pub(crate) fn instance(&self) -> &'a Instance
        ensures { result.now ≡ self.now.instance }
    {
        self.instance
    }

    /// Whether a component with this refdes is a port of the instance.
    pub(crate) fn is_port(&self, refdes: &str) -> bool
        ensures { result ≡ is_port self.now.project self.now.instance refdes.now }
    {
        match self.labels {
            None => false,
            Some(labels) => labels.contains(refdes),
        }
    }
}

/// Instances of a project, with the labels that tell the ports of each.
#[derive(Drop)]
pub(crate) struct InstancePorts<'a> {
    project: &'a Project,
    instances: &'a [Instance],
    sets: LabelSets,
}

impl<'a> Model for InstancePorts<'a> {
    ghost use Rattle.std.specs.Coded.{codes};
    ghost use Rattle.std.specs.FinMap as map;
    ghost use Rattle.instance_objects.specs.steps.LabelSets.{InstancesData, TellPorts};

    ghost Value = { InstancesData };

    ghost coded = { Prim.hlevel (codes, map.code) };

    ghost view = { λ p. record { project = p.project.now.contents; instances = p.instances.now } };

    ghost invariant = { λ p. TellPorts p.project.now.contents p.instances.now p.sets };
}

fn set_above<'a>(sets: &'a LabelSets, instance: &Instance) -> Option<&'a HashSet<String>>
    ensures { option_copied result ≡ set_above sets.now (component_above instance.now) }
{
    let id = component_above(instance)?;
    sets.get(&id)
}

impl<'a> InstancePorts<'a> {
    pub(crate) fn of(
        alloc: Global,
        project: &'a Project,
        instances: &'a [Instance],
    ) -> Result<InstancePorts<'a>, AllocError>
        ensures project { IfOk result (λ ports. ports.project ≡ project.now.contents) }
        ensures instances { IfOk result (λ ports. ports.instances ≡ instances.now) }
    {
        let sets = labels_above(alloc, project, instances)?;
        Ok(InstancePorts {
            project,
            instances,
            sets,
        })
    }

    pub(crate) fn project(&self) -> &'a Project
        ensures { result.now.contents ≡ self.now.project }
    {
        self.project
    }

    /// The instance at a place. It takes no memory.
    pub(crate) fn at(&self, place: usize) -> Option<Ports<'_>>
        ensures instance { MatchOption result (slice_get self.now.instances place ≡ None)
            (λ ports. slice_get self.now.instances place ≡ Some ports.instance) }
        ensures project { IfSome result (λ ports. ports.project ≡ self.now.project) }
    {
        let instance = self.instances.get(place)?;
        Some(Ports {
            project: self.project,
            instance,
            labels: set_above(&self.sets, instance),
        })
    }
}
