// The bill of materials of a net list.
ghost use Rattle.std.specs.Prelude.{◌≡◌, ◌++◌, ◌∷◌, IfOk, OnOk, map};
ghost use Rattle.std.specs.List.{flat_map};
ghost use Rattle.geda_defs.specs.Lines.{spaced};
ghost use Rattle.printed_texts.specs.PrintedTexts.{flat, word};
ghost use Rattle.backends.specs.BillText.{bill_text, head_fields};
ghost use Rattle.backends.specs.CsvRecords.{record_text};
ghost use Rattle.backends.specs.steps.CsvWriters.{IsReady, written};
ghost use Rattle.backends.specs.steps.Groups.{group_record, group_seen};

use crate::articles::{Group, groups_of};
use crate::csv_records::{put_record, record_writer, written};
use csv::Writer;
use net_list::{Nets, Package};
use printed_texts::{put_flat, put_word};
use std::alloc::{AllocError, Global};

fn flat_text(alloc: Global, text: &str) -> Result<Vec<u8>, AllocError>
    ensures { IfOk result (λ made. made.items ≡ flat text.now) }
{
    let mut made = Vec::new(alloc);
    put_flat(&mut made, text.as_bytes())?;
    Ok(made)
}

fn put_others(out: &mut Vec<u8>, members: &[&Package]) -> Result<(), AllocError>
    ensures { OnOk result (out.new.items ≡ out.old.items
        ++ flat_map (λ p. 32 ∷ word p.refdes) (map (λ m. m.now) members.now)) }
{
    for member in members {
        out.push(b' ')?;
        put_word(out, member.refdes.as_str().as_bytes())?;
    }
    Ok(())
}

fn put_refdes(out: &mut Vec<u8>, members: &[&Package]) -> Result<(), AllocError>
    ensures { OnOk result (out.new.items ≡ out.old.items
        ++ spaced (map (λ p. word p.refdes) (map (λ m. m.now) members.now))) }
{
    if let Some((first, others)) = members.split_first() {
        put_word(out, first.refdes.as_str().as_bytes())?;
        put_others(out, others)?;
    }
    Ok(())
}

fn refdes_text(alloc: Global, members: &[&Package]) -> Result<Vec<u8>, AllocError>
    ensures { IfOk result (λ made. made.items
        ≡ spaced (map (λ p. word p.refdes) (map (λ m. m.now) members.now))) }
{
    let mut made = Vec::new(alloc);
    put_refdes(&mut made, members)?;
    Ok(made)
}

fn put_group(alloc: Global, writer: &mut Writer<Vec<u8>>, group: &Group) -> Result<(), AllocError>
    requires ready { IsReady writer.old }
    ensures text { OnOk result (written writer.new
        ≡ written writer.old ++ group_record (group_seen group.now)) }
    ensures ready { OnOk result (IsReady writer.new) }
{
    let device = flat_text(alloc, group.article.device)?;
    let value = flat_text(alloc, group.article.value)?;
    let footprint = flat_text(alloc, group.article.footprint)?;
    let refdes = refdes_text(alloc, group.members.as_slice())?;
    let count = format!(in alloc; "{}", group.members.len())?;
    let fields = [
        device.as_slice(),
        value.as_slice(),
        footprint.as_slice(),
        refdes.as_slice(),
        count.as_bytes(),
    ];
    put_record(writer, fields.as_slice())
}

fn put_head(writer: &mut Writer<Vec<u8>>) -> Result<(), AllocError>
    requires ready { IsReady writer.old }
    ensures text { OnOk result (written writer.new
        ≡ written writer.old ++ record_text head_fields) }
    ensures ready { OnOk result (IsReady writer.new) }
{
    let fields: [&[u8]; 5] = [b"device", b"value", b"footprint", b"refdes", b"count"];
    put_record(writer, fields.as_slice())
}

fn put_groups(
    alloc: Global,
    writer: &mut Writer<Vec<u8>>,
    groups: &[Group],
) -> Result<(), AllocError>
    requires ready { IsReady writer.old }
    ensures text { OnOk result (written writer.new
        ≡ written writer.old ++ flat_map (λ g. group_record (group_seen g)) groups.now) }
{
    for group in groups {
        put_group(alloc, writer, group)?;
    }
    Ok(())
}

/// The bill of materials of a net list (docs/FORMATS.md, "Bill of materials").
pub fn bill_text(alloc: Global, nets: &Nets) -> Result<Vec<u8>, AllocError>
    ensures { IfOk result (λ text. text.items ≡ bill_text nets.now) }
{
    let groups = groups_of(alloc, nets.packages.as_slice())?;
    let mut writer = record_writer(alloc);
    put_head(&mut writer)?;
    put_groups(alloc, &mut writer, groups.as_slice())?;
    written(writer)
}
