// The library symbols of the components of a project, each found once.
ghost use Rattle.std.specs.Prelude.{List, ℕ, ◌≡◌, codes, cond, false, is_some, None, Some};
ghost use Rattle.std.specs.Prelude.{option_copied, IfOk, IfSome, IsTrue, OnErr, OnOk};
ghost use Rattle.std.specs.HashMap.{get_by_text};
ghost use Rattle.std.specs.Str.{bytes_eq};
ghost use Rattle.geda_model.specs.declared.object.Body.TheVariants as bodies;
ghost use Rattle.attr_rules.specs.Components.{has_sources};
ghost use Rattle.attr_rules.specs.FirstValues.{first_named};
ghost use Rattle.attr_rules.specs.Libraries.{library_of, symbol_named};
ghost use Rattle.hierarchy.specs.steps.MetSymbols.{MeetsSymbol, source_in};

use attr_rules::{FirstValues, first_value, library_of};
use geda_model::{Body, Component, Object, Symbol};
use project_model::Project;
use std::alloc::{AllocError, Global};
use std::collections::HashMap;
use std::marker::Model;

fn has_source(values: &FirstValues<'_>) -> bool
    ensures { result ≡ is_some values.now.source }
{
    values.source.is_some()
}

/// Whether a `source` stands free in a symbol, if there is one.
fn has_free_source(symbol: Option<&Symbol>) -> bool
    ensures { result ≡ is_some (source_in (option_copied symbol.entry)) }
{
    match symbol {
        None => false,
        Some(symbol) => has_source(&FirstValues::of_parts(symbol.parts.as_slice())),
    }
}

/// Whether a `source` is attached to an object.
fn has_attached_source(object: &Object) -> bool
    ensures { result ≡ is_some (first_named object.now.attrs (codes "source")) }
{
    first_value(object.attrs.as_slice(), "source").is_some()
}

/// Whether a component has no embedded symbol.
fn is_alone(component: &Component) -> bool
    ensures { IsTrue result → component.now.embedded ≡ None }
{
    component.embedded.is_none()
}

/// The symbol of a name, lent, or none where there is none, and whether a `source` stands free in
/// it.
#[derive(Drop)]
pub struct MetSymbol<'a> {
    symbol: Option<&'a Symbol>,
    has_source: bool,
}

impl<'a> Model for MetSymbol<'a> {
    ghost use Rattle.std.specs.Prelude.{◌≡◌, Option, is_some, option_copied};
    ghost use Rattle.geda_model.specs.Sheets.{SymbolData};
    ghost use Rattle.hierarchy.specs.steps.MetSymbols.{source_in};

    ghost Value = { Option SymbolData };

    ghost view = { λ m. option_copied m.symbol };

    ghost invariant = { λ m. m.has_source ≡ is_some (source_in (option_copied m.symbol)) };
}

impl<'a> MetSymbol<'a> {
    fn of(symbol: Option<&'a Symbol>) -> MetSymbol<'a>
        ensures { result ≡ option_copied symbol.entry }
    {
        let has_source = has_free_source(symbol);
        MetSymbol { symbol, has_source }
    }

    fn copy(&self) -> MetSymbol<'a>
        ensures { result ≡ self.now }
    {
        MetSymbol {
            symbol: self.symbol,
            has_source: self.has_source,
        }
    }

    /// The symbol.
    pub fn symbol(&self) -> Option<&'a Symbol>
        ensures { option_copied result ≡ self.now }
    {
        self.symbol
    }

    /// Whether a `source` stands free in it.
    fn has_free(&self) -> bool
        ensures { result ≡ is_some (source_in self.now) }
    {
        self.has_source
    }

    fn tells_component(&self, object: &Object, component: &Component) -> bool
        requires { object.now.body ≡ bodies.Component component.now }
        ensures { IsTrue result → has_sources object.now self.now ≡ false }
    {
        if !is_alone(component) {
            return false;
        }
        if self.has_free() {
            return false;
        }
        !has_attached_source(object)
    }

    /// Whether an object with this library symbol surely has no sheets below, since it has no
    /// `source`: only the attached texts are looked at. Of an object with an embedded symbol it
    /// tells nothing.
    pub fn tells_no_source(&self, object: &Object) -> bool
        ensures { IsTrue result → has_sources object.now self.now ≡ false }
    {
        match &object.body {
            Body::Shape(_) => true,
            Body::Component(component) => self.tells_component(object, component),
        }
    }
}

fn put_row<'a>(
    alloc: Global,
    rows: &mut HashMap<String, MetSymbol<'a>>,
    basename: &str,
    met: MetSymbol<'a>,
) -> Result<(), AllocError>
    ensures put { OnOk result
        (MeetsSymbol basename.now met.entry (get_by_text rows.old) (get_by_text rows.new)) }
    ensures kept { OnErr result ((q : List ℕ) →
        get_by_text rows.new q ≡ get_by_text rows.old q) }
{
    let basename = String::from_str(alloc, basename)?;
    rows.insert(basename, met)?;
    Ok(())
}

/// A project, with the symbols that were met, by their names.
#[derive(Drop)]
pub struct MetSymbols<'a> {
    owner: &'a Project,
    rows: HashMap<String, MetSymbol<'a>>,
}

impl<'a> Model for MetSymbols<'a> {
    ghost use Rattle.std.specs.Coded.{codes};
    ghost use Rattle.std.specs.FinMap as map;
    ghost use Rattle.std.specs.HashMap.{get_by_text};
    ghost use Rattle.project_model.specs.Projects.{ProjectData};
    ghost use Rattle.hierarchy.specs.steps.MetSymbols.{AreMet};

    ghost Value = { ProjectData };

    ghost coded = { Prim.hlevel (codes, map.code) };

    ghost view = { λ m. m.owner.now.contents };

    ghost invariant = { λ m. AreMet m.owner.now.contents (get_by_text m.rows) };
}

impl<'a> MetSymbols<'a> {
    /// No symbol is met yet. It takes no memory.
    pub fn new(alloc: Global, project: &'a Project) -> MetSymbols<'a>
        ensures { result ≡ project.now.contents }
    {
        MetSymbols {
            owner: project,
            rows: HashMap::new(alloc),
        }
    }

    fn get(&self, basename: &str) -> Option<&MetSymbol<'a>>
        ensures { IfSome result (λ met. met.now ≡ symbol_named self.now basename.now) }
    {
        self.rows.get(basename)
    }

    fn put(&mut self, alloc: Global, basename: &str, met: MetSymbol<'a>) -> Result<(), AllocError>
        requires { met ≡ symbol_named self.old basename.now }
        ensures { self.new ≡ self.old }
    {
        put_row(alloc, &mut self.rows, basename, met)
    }

    fn found(&self, alloc: Global, object: &Object) -> Result<MetSymbol<'a>, AllocError>
        ensures { IfOk result (λ met. met ≡ library_of self.now object.now) }
    {
        let symbol = library_of(alloc, self.owner, object)?;
        Ok(MetSymbol::of(symbol))
    }

    /// The library symbol of a component, as `attr_rules::library_of` gives it (docs/RULES.md,
    /// "Library symbols"). It is looked for once under each name.
    pub fn library_of(
        &mut self,
        alloc: Global,
        object: &Object,
    ) -> Result<MetSymbol<'a>, AllocError>
        ensures symbol { IfOk result (λ met. met ≡ library_of self.old object.now) }
        ensures kept { self.new ≡ self.old }
    {
        match &object.body {
            Body::Shape(_) => Ok(MetSymbol::of(None)),
            Body::Component(component) => {
                let basename = component.basename.as_str();
                if let Some(met) = self.get(basename) {
                    return Ok(met.copy());
                }
                let met = self.found(alloc, object)?;
                let copy = met.copy();
                self.put(alloc, basename, met)?;
                Ok(copy)
            }
        }
    }
}
