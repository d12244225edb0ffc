// Cells: which count, which can't be set, and what they set.
ghost use Rattle.std.specs.Prelude.{◌≡◌, ◌+◌, ◌≤◌, ◌&&◌, ◌++◌, ◌∷◌, [], None, false, true, IfOk, OnOk};
ghost use Rattle.std.specs.Prelude.{◌<◌, get_or, is_some, length, nat_lt, not};
ghost use Rattle.std.specs.List.{filter, fold, list_all, list_any};
ghost use Rattle.std.specs.Str.{is_utf8};
ghost use Rattle.csv.specs.Records.{fields_of};
ghost use Rattle.geda_geom.specs.Placing.{IsOnSheet};
ghost use Rattle.geda_model.specs.Limits.{most_lines};
ghost use Rattle.geda_model.specs.Ranges.{line_feeds};
ghost use Rattle.attr_rules.specs.Attributes.{value_if};
ghost use Rattle.attr_rules.specs.Splits.{split_of, starts_well};
ghost use Rattle.edit_attr.specs.Attributes.{attr_line, attr_place};
ghost use Rattle.edit_attr.specs.FirstPoints.{first_point};
ghost use Rattle.attr_table.specs.Cells.{can_be_set, cells_of, cell_counts, is_bad_cell, is_cr};
ghost use Rattle.attr_table.specs.Cells.{set_cell};
ghost use Rattle.attr_table.specs.Filling.{AnswersTable};
ghost use Rattle.attr_table.specs.steps.LentTexts.{texts};
ghost use Rattle.attr_table.specs.steps.Places.{ArePlaces, text_set, texts_set};
ghost use Rattle.attr_table.specs.steps.Rows.{bad_value_of};

use crate::fault::TableFault;
use crate::fields::text_at;
use crate::names::is_misspelled;
use crate::places::value_of;
use csv::ByteRecord;
use edit_attr::{first_point, put_attr};
use geda_geom::Point;
use geda_model::{MOST_LINES, Object, Text, Texts, line_feeds};
use std::alloc::{AllocError, Global};
use std::collections::BTreeMap;
use std::marker::Model;

/// A field of a record, and the name of its column.
#[derive(Debug, Drop)]
pub struct Cell<'a> {
    name: &'a str,
    value: &'a str,
}

impl<'a> Model for Cell<'a> {
    ghost use Rattle.attr_table.specs.Cells.{Cell};

    ghost Value = { Cell };

    ghost view = { λ c. (c.name.now, c.value.now) };
}

/// Whether a cell counts: it is not empty, and differs from the present value of its name. It takes
/// no memory.
fn counts(object: &Object, firsts: &BTreeMap<&str, usize>, cell: &Cell<'_>) -> bool
    requires { ArePlaces object.now.attrs firsts.now }
    ensures { result ≡ cell_counts object.now cell.now }
{
    if cell.value.is_empty() {
        return false;
    }
    value_of(object.attrs.as_slice(), firsts, cell.name) != Some(cell.value)
}

fn starts_well(value: &str) -> bool
    ensures { result ≡ starts_well value.now }
{
    match value.as_bytes() {
        [] => false,
        [first, ..] => *first != b' ',
    }
}

/// Whether `name=value` is an attribute of this name. It takes no memory.
fn is_attr(name: &str, value: &str) -> bool
    ensures { result
        ≡ is_some (value_if name.now (split_of (attr_line name.now value.now))) }
{
    if is_misspelled(name) {
        return false;
    }
    starts_well(value)
}

fn has_cr(text: &str) -> bool
    ensures { result ≡ list_any is_cr text.now }
{
    text.as_bytes().iter().any(|byte| *byte == b'\r')
}

fn line_has_cr(name: &str, value: &str) -> bool
    ensures { result ≡ list_any is_cr (attr_line name.now value.now) }
{
    if has_cr(name) {
        return true;
    }
    has_cr(value)
}

/// Whether `name=value` has at most 10,000 lines. It takes no memory.
#[tactic(auto, using(crate::proofs::LineLemmas::few_lines))]
fn has_few_lines(name: &str, value: &str) -> bool
    ensures { result ≡ nat_lt (line_feeds (attr_line name.now value.now)) most_lines }
{
    line_feeds(name).saturating_add(line_feeds(value)) < MOST_LINES
}

/// Whether a cell can be set. It takes no memory.
fn can_be_set(cell: &Cell<'_>) -> bool
    ensures { result ≡ can_be_set cell.now }
{
    is_attr(cell.name, cell.value)
        && !line_has_cr(cell.name, cell.value)
        && has_few_lines(cell.name, cell.value)
}

/// The cell of a record of texts in the column of a name.
fn cell_at<'a>(names: &[&'a str], source: &'a ByteRecord, place: usize) -> Cell<'a>
    requires place { place < length names.now }
    requires texts { list_all is_utf8 (fields_of source.now) ≡ true }
    ensures { result
        ≡ (get_or (texts names.now) place [], get_or (fields_of source.now) (place + 1) []) }
{
    Cell {
        name: names[place],
        value: text_at(source, place + 1),
    }
}

/// Puts a cell behind others, if it counts. Gives whether it doesn't, or can be set.
fn put_counting<'a>(
    object: &Object,
    firsts: &BTreeMap<&str, usize>,
    counting: &mut Vec<Cell<'a>>,
    cell: Cell<'a>,
) -> Result<bool, AllocError>
    requires places { ArePlaces object.now.attrs firsts.now }
    ensures good { IfOk result (λ good. good ≡ not (is_bad_cell object.now cell.entry)) }
    ensures cells { IfOk result (λ good. good ≡ true → counting.new.items
        ≡ counting.old.items ++ filter (cell_counts object.now) (cell.entry ∷ [])) }
{
    if !counts(object, firsts, &cell) {
        return Ok(true);
    }
    if !can_be_set(&cell) {
        return Ok(false);
    }
    counting.push(cell)?;
    Ok(true)
}

/// The cells of a record that count, where the places of the object's names are known. `BadValue`
/// exactly where one that counts can't be set, with the least such column.
pub fn counting<'a>(
    alloc: Global,
    object: &Object,
    firsts: &BTreeMap<&str, usize>,
    names: &[&'a str],
    source: &'a ByteRecord,
    row: u32,
) -> Result<Vec<Cell<'a>>, TableFault>
    requires places { ArePlaces object.now.attrs firsts.now }
    requires few { length names.now + 1 ≤ 4294967295 }
    requires texts { list_all is_utf8 (fields_of source.now) ≡ true }
    requires width { length (fields_of source.now) ≡ length names.now + 1 }
    ensures { AnswersTable (λ v. v.items) result
        (bad_value_of row object.now (cells_of (texts names.now) (fields_of source.now)))
        (filter (cell_counts object.now) (cells_of (texts names.now) (fields_of source.now))) }
{
    let mut counting = Vec::new(alloc);
    for place in 0..names.len() {
        let cell = cell_at(names, source, place);
        if !put_counting(object, firsts, &mut counting, cell)? {
            let column = place as u32 + 2;
            return Err(TableFault::BadValue { row, column });
        }
    }
    Ok(counting)
}

/// Puts a value that can be set into the text at the place of its name, or behind the others.
fn put_value(
    alloc: Global,
    texts: &mut Vec<Text>,
    place: Option<usize>,
    name: &str,
    value: &str,
    at: Point,
) -> Result<(), AllocError>
    requires good { can_be_set (name.now, value.now) ≡ true }
    requires at { IsOnSheet at }
    requires place { place ≡ attr_place name.now texts.old.items }
    ensures { OnOk result
        (texts.new.items ≡ text_set at texts.old.items (name.now, value.now)) }
{
    put_attr(alloc, texts, place, name, value, at)
}

/// Sets a cell among the texts of an object with this first point.
fn set_cell<'a>(
    alloc: Global,
    texts: &mut Vec<Text>,
    firsts: &mut BTreeMap<&'a str, usize>,
    cell: &Cell<'a>,
    at: Point,
) -> Result<(), AllocError>
    requires good { can_be_set cell.now ≡ true }
    requires at { IsOnSheet at }
    requires places { ArePlaces texts.old.items firsts.old }
    ensures texts { OnOk result (texts.new.items ≡ text_set at texts.old.items cell.now) }
    ensures places { OnOk result (ArePlaces texts.new.items firsts.new) }
{
    match firsts.get(cell.name).copied() {
        Some(place) => {
            put_value(alloc, texts, Some(place), cell.name, cell.value, at)?;
            Ok(())
        }
        None => {
            firsts.insert(cell.name, texts.len())?;
            put_value(alloc, texts, None, cell.name, cell.value, at)?;
            Ok(())
        }
    }
}

fn copied(alloc: Global, texts: &[Text]) -> Result<Vec<Text>, AllocError>
    ensures { IfOk result (λ v. v.items ≡ texts.now) }
{
    let mut copies = Vec::with_capacity(alloc, texts.len())?;
    for text in texts {
        copies.push(text.clone()?)?;
    }
    Ok(copies)
}

fn attached(alloc: Global, texts: Vec<Text>) -> Result<Texts, AllocError>
    ensures { IfOk result (λ v. v ≡ texts.items) }
{
    let mut attrs = Texts::new(alloc);
    for text in texts {
        attrs.push(text)?;
    }
    Ok(attrs)
}

/// The texts of an object after these cells are set, from left to right, where the places of its
/// names are known.
fn texts_set<'a>(
    alloc: Global,
    object: &Object,
    firsts: BTreeMap<&'a str, usize>,
    cells: &[Cell<'a>],
) -> Result<Vec<Text>, AllocError>
    requires places { ArePlaces object.now.attrs firsts }
    requires good { list_all can_be_set cells.now ≡ true }
    ensures { IfOk result (λ texts.
        texts.items ≡ texts_set (first_point object.now.body) object.now.attrs cells.now) }
{
    let at = first_point(object);
    let mut texts = copied(alloc, object.attrs.as_slice())?;
    let mut firsts = firsts;
    for cell in cells {
        set_cell(alloc, &mut texts, &mut firsts, cell, at)?;
    }
    Ok(texts)
}

/// The object after these cells are set.
pub fn set_cells<'a>(
    alloc: Global,
    object: &Object,
    firsts: BTreeMap<&'a str, usize>,
    cells: &[Cell<'a>],
) -> Result<Object, AllocError>
    requires places { ArePlaces object.now.attrs firsts }
    requires good { list_all can_be_set cells.now ≡ true }
    ensures { IfOk result (λ made. made ≡ fold set_cell object.now cells.now) }
{
    let texts = texts_set(alloc, object, firsts, cells)?;
    let body = object.body.clone()?;
    let attrs = attached(alloc, texts)?;
    Ok(Object { body, attrs })
}
