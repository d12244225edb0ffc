// The first values of components, by the tables of their library symbols.
ghost use Rattle.std.specs.Prelude.{◌≡◌, IfOk, None};
ghost use Rattle.geda_model.specs.declared.object.Body.TheVariants as bodies;
ghost use Rattle.attr_rules.specs.FirstValues.{values_of};
ghost use Rattle.attr_rules.specs.Libraries.{library_of};

use crate::tables::SymbolTables;
use attr_rules::{FirstValues, parts_of};
use geda_model::{Body, Component, Object};
use pin_place::SymbolTable;
use std::alloc::{AllocError, Global};

fn values_by_table<'a>(
    object: &'a Object,
    component: &Component,
    table: &SymbolTable<'a>,
) -> FirstValues<'a>
    requires body { object.now.body ≡ bodies.Component component.now }
    requires alone { component.now.embedded ≡ None }
    ensures { result ≡ values_of object.now table.now }
{
    FirstValues::of_object(object, table.library(), table.values())
}

impl<'a> SymbolTables<'a> {
    fn values_of_component(
        &mut self,
        alloc: Global,
        object: &'a Object,
        component: &Component,
    ) -> Result<FirstValues<'a>, AllocError>
        requires body { object.now.body ≡ bodies.Component component.now }
        requires alone { component.now.embedded ≡ None }
        ensures values { IfOk result
            (λ values. values ≡ values_of object.now (library_of self.old object.now)) }
        ensures kept { self.new ≡ self.old }
    {
        let basename = component.basename.as_str();
        if let Some(table) = self.get(basename) {
            return Ok(values_by_table(object, component, table));
        }
        let table = self.table_of(alloc, object)?;
        let values = values_by_table(object, component, &table);
        self.put(alloc, basename, table)?;
        Ok(values)
    }

    /// The first values of an object of the project, attached or inherited (docs/RULES.md,
    /// "Attributes"). Those of a library symbol are found once.
    pub fn values_of(
        &mut self,
        alloc: Global,
        object: &'a Object,
    ) -> Result<FirstValues<'a>, AllocError>
        ensures values { IfOk result
            (λ values. values ≡ values_of object.now (library_of self.old object.now)) }
        ensures kept { self.new ≡ self.old }
    {
        if let Body::Component(component) = &object.body {
            if component.embedded.is_none() {
                return self.values_of_component(alloc, object, component);
            }
        }
        let library = self.library_of(alloc, object)?;
        let inherited = FirstValues::of_parts(parts_of(object, library));
        Ok(FirstValues::of_object(object, library, &inherited))
    }
}
