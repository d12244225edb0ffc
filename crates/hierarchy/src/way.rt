// Ways down from the roots.
ghost use Rattle.std.specs.Prelude.{◌≡◌, ◌==◌, ◌++◌, IfOk, OnOk, filter_map};
ghost use Rattle.std.specs.List.{list_any};
ghost use Rattle.std.specs.Option.{option_to_list};
ghost use Rattle.hierarchy.specs.SheetTable.{sheet_at};
ghost use Rattle.hierarchy.specs.Ways.{component_steps, extended, is_on, last_sheet, children, next_steps, step_to};

use crate::table::{HierarchicalComponent, Source, TableSheet};
use geda_model::Line;
use std::alloc::{AllocError, Global};
use std::marker::Model;

/// A step down: a hierarchical component, and the place of a sheet that it names.
#[derive(Drop)]
pub struct Step {
    /// The id of the component.
    pub id: u32,
    /// Its refdes.
    pub refdes: Line,
    /// The place of the child sheet.
    pub sheet: usize,
}

/// A root, and the steps down from it.
#[derive(Drop)]
pub struct Way {
    /// The place of the root.
    pub root: usize,
    /// The steps.
    pub steps: Vec<Step>,
}

impl Model for Way {
    ghost use Rattle.hierarchy.specs.Ways.{WayData};

    ghost Value = { WayData };

    ghost view = { λ w. record { root = w.root; steps = w.steps.items } };
}

impl Step {
    /// An equal step.
    pub fn copy(&self) -> Result<Step, AllocError>
        ensures { IfOk result (λ step. step ≡ self.now) }
    {
        let refdes = self.refdes.clone()?;
        Ok(Step {
            id: self.id,
            refdes,
            sheet: self.sheet,
        })
    }
}

/// The components on the sheet at a place.
pub fn components_at(sheets: &[TableSheet], place: usize) -> &[HierarchicalComponent]
    ensures { result.now ≡ (sheet_at sheets.now place).components }
{
    match sheets.get(place) {
        None => &[],
        Some(sheet) => sheet.components.as_slice(),
    }
}

fn copied(alloc: Global, steps: &[Step]) -> Result<Vec<Step>, AllocError>
    ensures { IfOk result (λ copied. copied.items ≡ steps.now) }
{
    let mut copied = Vec::new(alloc);
    for step in steps {
        copied.push(step.copy()?)?;
    }
    Ok(copied)
}

fn lead_to(steps: &[Step], place: usize) -> bool
    ensures { result ≡ list_any (λ s. s.sheet == place) steps.now }
{
    steps.iter().any(|step| step.sheet == place)
}

impl Way {
    /// Whether the sheet stands on the way. It takes no memory.
    pub fn is_on(&self, place: usize) -> bool
        ensures { result ≡ is_on self.now place }
    {
        self.root == place || lead_to(self.steps.as_slice(), place)
    }

    /// The place of the sheet on which the way ends. It takes no memory.
    pub fn last_sheet(&self) -> usize
        ensures { result ≡ last_sheet self.now }
    {
        match self.steps.last() {
            None => self.root,
            Some(step) => step.sheet,
        }
    }

    /// The way and one more step.
    pub fn extended(&self, alloc: Global, step: Step) -> Result<Way, AllocError>
        ensures { IfOk result (λ way. way ≡ extended self.now step) }
    {
        let mut steps = copied(alloc, self.steps.as_slice())?;
        steps.push(step)?;
        Ok(Way {
            root: self.root,
            steps,
        })
    }

    fn push_step(
        &self,
        steps: &mut Vec<Step>,
        id: u32,
        refdes: &Line,
        source: &Source,
    ) -> Result<(), AllocError>
        ensures { OnOk result (steps.new.items ≡ steps.old.items
            ++ option_to_list (step_to self.now id refdes.now source.now.sheet)) }
    {
        if let Some(sheet) = source.sheet {
            if !self.is_on(sheet) {
                let refdes = refdes.clone()?;
                steps.push(Step { id, refdes, sheet })?;
            }
        }
        Ok(())
    }

    fn push_sources(
        &self,
        steps: &mut Vec<Step>,
        id: u32,
        refdes: &Line,
        sources: &[Source],
    ) -> Result<(), AllocError>
        ensures { OnOk result (steps.new.items ≡ steps.old.items
            ++ filter_map (λ s. step_to self.now id refdes.now s.sheet) sources.now) }
    {
        for source in sources {
            self.push_step(steps, id, refdes, source)?;
        }
        Ok(())
    }

    fn push_component(
        &self,
        steps: &mut Vec<Step>,
        component: &HierarchicalComponent,
    ) -> Result<(), AllocError>
        ensures { OnOk result
            (steps.new.items ≡ steps.old.items ++ component_steps self.now component.now) }
    {
        match &component.refdes {
            None => Ok(()),
            Some(refdes) => {
                self.push_sources(steps, component.id, refdes, component.sources.as_slice())
            }
        }
    }

    /// The steps with which the way goes on, by component id and then source order.
    pub fn next_steps(&self, alloc: Global, sheets: &[TableSheet]) -> Result<Vec<Step>, AllocError>
        ensures { IfOk result (λ steps. steps.items ≡ next_steps sheets.now self.now) }
    {
        let mut steps = Vec::new(alloc);
        for component in components_at(sheets, self.last_sheet()) {
            self.push_component(&mut steps, component)?;
        }
        Ok(steps)
    }

    /// The ways directly below.
    pub fn children(&self, alloc: Global, sheets: &[TableSheet]) -> Result<Vec<Way>, AllocError>
        ensures { IfOk result (λ ways. ways.items ≡ children sheets.now self.now) }
    {
        let steps = self.next_steps(alloc, sheets)?;
        let mut ways = Vec::new(alloc);
        for step in steps {
            ways.push(self.extended(alloc, step)?)?;
        }
        Ok(ways)
    }
}
