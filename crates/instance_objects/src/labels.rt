// The labels of the components above instances.
ghost use Rattle.std.specs.Prelude.{◌≡◌, IfOk, OnOk, Some};
ghost use Rattle.std.specs.List.{filter_map};
ghost use Rattle.instance_objects.specs.Ports.{component_above, labels_of};
ghost use Rattle.instance_objects.specs.steps.LabelSets.{AddsLabel, AreLabelSets, AreTold};
ghost use Rattle.instance_objects.specs.steps.LabelSets.{HasLabels, KeepsTold, TellPorts};

use attr_rules::library_of;
use geda_model::Block;
use hierarchy::Instance;
use pin_place::{PlacedPin, pins_of};
use project_model::Project;
use std::alloc::{AllocError, Global};
use std::collections::{HashMap, HashSet};

/// The labels of the pins of components, by the id of the component.
pub(crate) type LabelSets = HashMap<u32, HashSet<String>>;

/// The id of the component directly above an instance; `None` for a root. It takes no memory.
pub fn component_above(instance: &Instance) -> Option<u32>
    ensures { result ≡ component_above instance.now }
{
    instance.route.as_slice().last().copied()
}

fn add_label(
    alloc: Global,
    labels: &mut HashSet<String>,
    label: Option<Block>,
) -> Result<(), AllocError>
    ensures { OnOk result (AddsLabel label labels.old labels.new) }
{
    if let Some(label) = label {
        let text = String::from_str(alloc, label.as_str())?;
        labels.insert(text)?;
    }
    Ok(())
}

fn labels_on(alloc: Global, pins: Vec<PlacedPin>) -> Result<HashSet<String>, AllocError>
    ensures { IfOk result (HasLabels (filter_map (λ pin. pin.label) pins.items)) }
{
    let mut labels = HashSet::new(alloc);
    for pin in pins {
        add_label(alloc, &mut labels, pin.label)?;
    }
    Ok(labels)
}

fn labels_of(alloc: Global, project: &Project, id: u32) -> Result<HashSet<String>, AllocError>
    ensures { IfOk result (HasLabels (labels_of project.now.contents (Some id))) }
{
    match project.object(id) {
        None => Ok(HashSet::new(alloc)),
        Some(placed) => {
            let library = library_of(alloc, project, &placed.object)?;
            let pins = pins_of(alloc, &placed.object, library)?;
            labels_on(alloc, pins.into_vec())
        }
    }
}

/// Finds the labels of a component, unless they are known.
fn add_labels_of(
    alloc: Global,
    project: &Project,
    sets: &mut LabelSets,
    id: u32,
) -> Result<(), AllocError>
    requires { AreLabelSets project.now.contents sets.old }
    ensures sets { OnOk result (AreLabelSets project.now.contents sets.new) }
    ensures told { OnOk result (AreTold project.now.contents sets.new (Some id)) }
    ensures kept { OnOk result (KeepsTold project.now.contents sets.old sets.new) }
{
    if sets.get(&id).is_some() {
        return Ok(());
    }
    let labels = labels_of(alloc, project, id)?;
    sets.insert(id, labels)?;
    Ok(())
}

fn add_labels_above(
    alloc: Global,
    project: &Project,
    sets: &mut LabelSets,
    instance: &Instance,
) -> Result<(), AllocError>
    requires { AreLabelSets project.now.contents sets.old }
    ensures sets { OnOk result (AreLabelSets project.now.contents sets.new) }
    ensures told { OnOk result
        (AreTold project.now.contents sets.new (component_above instance.now)) }
    ensures kept { OnOk result (KeepsTold project.now.contents sets.old sets.new) }
{
    match component_above(instance) {
        None => Ok(()),
        Some(id) => add_labels_of(alloc, project, sets, id),
    }
}

/// The labels of the components above these instances, each set found once.
pub(crate) fn labels_above(
    alloc: Global,
    project: &Project,
    instances: &[Instance],
) -> Result<LabelSets, AllocError>
    ensures { IfOk result (TellPorts project.now.contents instances.now) }
{
    let mut sets = HashMap::new(alloc);
    for instance in instances {
        add_labels_above(alloc, project, &mut sets, instance)?;
    }
    Ok(sets)
}
