// An object in an instance of its sheet.
ghost use Rattle.std.specs.Prelude.{◌≡◌, IfOk, option_copied};
ghost use Rattle.attr_rules.specs.Libraries.{library_of};
ghost use Rattle.instance_objects.specs.Ports.{is_port};

use crate::ports::Ports;
use attr_rules::library_of;
use geda_model::{Body, Object, Symbol};
use hierarchy::Instance;
use project_model::Project;
use std::alloc::{AllocError, Global};
use std::marker::Model;

/// An object of a project in an instance of its sheet, lent.
#[derive(Drop)]
pub struct InstanceObject<'a> {
    pub(crate) ports: Ports<'a>,
    pub(crate) place: usize,
    pub(crate) id: u32,
    pub(crate) object: &'a Object,
}

impl<'a> Model for InstanceObject<'a> {
    ghost use Rattle.std.specs.Coded.{codes};
    ghost use Rattle.std.specs.FinMap as map;
    ghost use Rattle.instance_objects.specs.InstanceObjects.{InstanceObjectData};

    ghost Value = { InstanceObjectData };

    ghost coded = { Prim.hlevel (codes, map.code) };

    ghost view = { λ o. record {
      project = o.ports.project;
      flat = record {
        place = o.place;
        instance = o.ports.instance;
        id = o.id;
        object = o.object.now;
      };
    } };
}

impl<'a> InstanceObject<'a> {
    /// The place of its instance among all instances, counted from 0.
    pub fn place(&self) -> usize
        ensures { result ≡ self.now.flat.place }
    {
        self.place
    }

    /// Its instance.
    pub fn instance(&self) -> &'a Instance
        ensures { result.now ≡ self.now.flat.instance }
    {
        self.ports.instance()
    }

    /// Its id.
    pub fn id(&self) -> u32
        ensures { result ≡ self.now.flat.id }
    {
        self.id
    }

    /// The object itself.
    pub fn object(&self) -> &'a Object
        ensures { result.now ≡ self.now.flat.object }
    {
        self.object
    }

    /// What it is: a shape, or a component.
    pub fn body(&self) -> &'a Body
        ensures { result.now ≡ self.now.flat.object.body }
    {
        let object = self.object;
        &object.body
    }

    /// Its library symbol, if it is a component that has one (docs/RULES.md, "Library symbols").
    pub fn library(&self, alloc: Global) -> Result<Option<&'a Symbol>, AllocError>
        ensures { IfOk result
            (λ symbol. option_copied symbol ≡ library_of self.now.project self.now.flat.object) }
    {
        library_of(alloc, self.ports.project(), self.object)
    }

    /// Whether a component with this refdes is a port of the instance (docs/RULES.md, "Ports"). It
    /// takes no memory.
    pub fn is_port(&self, refdes: &str) -> bool
        ensures { result ≡ is_port self.now.project self.now.flat.instance refdes.now }
    {
        self.ports.is_port(refdes)
    }
}
