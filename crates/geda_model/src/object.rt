// Objects of a sheet, sheets and symbols.
use crate::shape::{Parts, Shape};
use crate::text::{Text, Texts};
use crate::word::Word;
use std::alloc::{AllocError, Global};
use std::marker::Model;

/// A placed symbol.
#[derive(Debug, Drop)]
pub struct Component {
    /// Where it stands, in mils, -200,000 to 200,000.
    pub x: i32,
    /// Where it stands, in mils, -200,000 to 200,000.
    pub y: i32,
    /// Whether it can be selected.
    pub selectable: bool,
    /// In degrees: 0, 90, 180 or 270.
    pub angle: u16,
    /// Whether it is mirrored.
    pub mirror: bool,
    /// The file of its symbol; without `EMBEDDED` where the symbol is embedded.
    pub basename: Word,
    /// The parts of its embedded symbol, which stand in sheet coordinates.
    pub embedded: Option<Parts>,
}

impl Model for Component {
    ghost use Rattle.geda_model.specs.Shapes.{ComponentData, ComponentIsInRange};

    ghost Value = { ComponentData };

    ghost view = { λ c. record { x = c.x; y = c.y; selectable = c.selectable; angle = c.angle; mirror = c.mirror; basename = c.basename; embedded = c.embedded } };

    ghost invariant = { λ c. ComponentIsInRange (record { x = c.x; y = c.y; selectable = c.selectable; angle = c.angle; mirror = c.mirror; basename = c.basename; embedded = c.embedded }) };
}

impl Clone for Component {
    ghost use Rattle.std.specs.Prelude.{◌≡◌};

    ghost is_clone = { λ x y. y ≡ x };

    fn clone(&self) -> Result<Component, AllocError> {
        Ok(Component {
            x: self.x,
            y: self.y,
            selectable: self.selectable,
            angle: self.angle,
            mirror: self.mirror,
            basename: self.basename.clone()?,
            embedded: self.embedded.clone()?,
        })
    }
}

/// What an object is.
#[derive(Debug, Drop)]
pub enum Body {
    /// A shape.
    Shape(Shape),
    /// A placed symbol, letter `C`.
    Component(Component),
}

impl Clone for Body {
    ghost use Rattle.std.specs.Prelude.{◌≡◌};

    ghost is_clone = { λ x y. y ≡ x };

    fn clone(&self) -> Result<Body, AllocError> {
        match self {
            Body::Shape(shape) => Ok(Body::Shape(shape.copy()?)),
            Body::Component(component) => Ok(Body::Component(component.clone()?)),
        }
    }
}

/// An object of a sheet, with its attached texts.
#[derive(Debug, Drop)]
pub struct Object {
    /// What it is.
    pub body: Body,
    /// The texts attached to it.
    pub attrs: Texts,
}

impl Model for Object {
    ghost use Rattle.geda_model.specs.Sheets.{ObjectData, ObjectIsInRange};

    ghost Value = { ObjectData };

    ghost view = { λ o. record { body = o.body; attrs = o.attrs } };

    ghost invariant = { λ o. ObjectIsInRange (record { body = o.body; attrs = o.attrs }) };
}

impl Clone for Object {
    ghost use Rattle.std.specs.Prelude.{◌≡◌};

    ghost is_clone = { λ x y. y ≡ x };

    fn clone(&self) -> Result<Object, AllocError> {
        let body = self.body.clone()?;
        let attrs = self.attrs.clone()?;
        Ok(Object { body, attrs })
    }
}

impl Object {
    ghost use Rattle.std.specs.Prelude.{◌≡◌, IfOk, OnErr, OnOk};
    ghost use Rattle.geda_model.specs.Sheets.{ObjectIsInRange, object_with};

    /// An equal object.
    pub fn copy(&self, alloc: Global) -> Result<Object, AllocError>
        ensures { IfOk result (λ object. object ≡ self.now) }
    {
        self.clone()
    }

    fn attach(&mut self, text: Text) -> Result<(), AllocError>
        ensures ok { OnOk result (self.new ≡ object_with text self.old) }
        ensures err { OnErr result (self.new ≡ self.old) }
        ensures range { ObjectIsInRange self.new }
    {
        self.attrs.push(text)
    }
}

/// The objects of a sheet in order, each in its ranges, at most 4,294,967,295.
#[derive(Debug, Drop)]
pub struct Objects {
    list: Vec<Object>,
}

impl Model for Objects {
    ghost use Rattle.std.specs.Prelude.{List};
    ghost use Rattle.geda_model.specs.Sheets.{AreObjectsInRange, ObjectData};

    ghost Value = { List ObjectData };

    ghost view = { λ p. p.list.items };

    ghost invariant = { λ p. AreObjectsInRange p.list.items };
}

impl Objects {
    ghost use Rattle.std.specs.Prelude.{◌≡◌, ◌<◌, ◌++◌, ◌∷◌, [], OnErr, OnOk, length};
    ghost use Rattle.geda_model.specs.Sheets.{AreObjectsInRange, object_with};
    ghost use Rattle.geda_model.specs.Shapes.{with_last};

    /// No object. It takes no memory.
    pub fn new(alloc: Global) -> Objects
        ensures { result ≡ [] }
    {
        Objects {
            list: Vec::new(alloc),
        }
    }

    /// Puts an object behind the others, which are fewer than 4,294,967,295. On want of memory they
    /// stay as they are.
    pub fn push(&mut self, object: Object) -> Result<(), AllocError>
        requires { length self.old < 4294967295 }
        ensures ok { OnOk result (self.new ≡ self.old ++ object ∷ []) }
        ensures err { OnErr result (self.new ≡ self.old) }
    {
        self.list.push(object)?;
        Ok(())
    }

    /// Puts a text behind those that are attached to the last object; where there is no object
    /// nothing changes. On want of memory all stay as they are.
    pub fn attach(&mut self, text: Text) -> Result<(), AllocError>
        ensures ok { OnOk result (self.new ≡ with_last (object_with text) self.old) }
        ensures err { OnErr result (self.new ≡ self.old) }
    {
        match self.list.last_mut() {
            Some(object) => object.attach(text),
            None => Ok(()),
        }
    }

    /// The objects, in order. It takes no memory.
    pub fn as_slice(&self) -> &[Object]
        ensures objects { result.now ≡ self.now }
        ensures in_range { AreObjectsInRange self.now }
    {
        self.list.as_slice()
    }

    /// The objects themselves, in order. It takes no memory.
    pub fn into_vec(self) -> Vec<Object>
        ensures objects { result.items ≡ self }
        ensures in_range { AreObjectsInRange self }
    {
        self.list
    }
}

impl Clone for Objects {
    ghost use Rattle.std.specs.Prelude.{◌≡◌};

    ghost is_clone = { λ x y. y ≡ x };

    fn clone(&self) -> Result<Objects, AllocError> {
        let list = self.list.clone()?;
        Ok(Objects { list })
    }
}

/// The version line of a file.
#[derive(Clone, Copy, Debug, PartialEq, Eq)]
pub struct Head {
    /// The date of the program that wrote the file, as eight digits `YYYYMMDD`.
    pub date: u32,
    /// The format, 1 or 2.
    pub format: u8,
}

impl Model for Head {
    ghost use Rattle.geda_model.specs.Sheets.{HeadData, IsHead};

    ghost Value = { HeadData };

    ghost view = { λ h. record { date = h.date; format = h.format } };

    ghost invariant = { λ h. IsHead (record { date = h.date; format = h.format }) };

    ghost inverse = { λ d. record { date = d.date; format = d.format } };
}

/// A schematic sheet.
#[derive(Debug, Drop)]
pub struct Sheet {
    /// Its version line.
    pub head: Head,
    /// Its objects, in file order.
    pub objects: Objects,
}

impl Model for Sheet {
    ghost use Rattle.geda_model.specs.Sheets.{SheetData, SheetIsInRange};

    ghost Value = { SheetData };

    ghost view = { λ s. record { head = s.head; objects = s.objects } };

    ghost invariant = { λ s. SheetIsInRange (record { head = s.head; objects = s.objects }) };
}

/// A symbol of a library.
#[derive(Debug, Drop)]
pub struct Symbol {
    /// Its version line.
    pub head: Head,
    /// Its parts, in file order.
    pub parts: Parts,
}

impl Model for Symbol {
    ghost use Rattle.geda_model.specs.Sheets.{SymbolData, SymbolIsInRange};

    ghost Value = { SymbolData };

    ghost view = { λ s. record { head = s.head; parts = s.parts } };

    ghost invariant = { λ s. SymbolIsInRange (record { head = s.head; parts = s.parts }) };
}

impl Clone for Symbol {
    ghost use Rattle.std.specs.Prelude.{◌≡◌};

    ghost is_clone = { λ x y. y ≡ x };

    fn clone(&self) -> Result<Symbol, AllocError> {
        let parts = self.parts.clone()?;
        Ok(Symbol {
            head: self.head,
            parts,
        })
    }
}

impl Symbol {
    ghost use Rattle.std.specs.Prelude.{◌≡◌, IfOk};

    /// An equal symbol.
    pub fn copy(&self, alloc: Global) -> Result<Symbol, AllocError>
        ensures { IfOk result (λ symbol. symbol ≡ self.now) }
    {
        self.clone()
    }
}
