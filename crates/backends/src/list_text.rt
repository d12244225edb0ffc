// The list text of a net list.
ghost use Rattle.std.specs.Prelude.{◌≡◌, ◌++◌, ◌∷◌, IfOk, OnOk};
ghost use Rattle.std.specs.List.{flat_map};
ghost use Rattle.std.specs.Fmt.{decimal};
ghost use Rattle.geda_defs.specs.Lines.{ended};
ghost use Rattle.backends.specs.ListText.{field, list_text, net_line_text, package_text};

use crate::net_lines::put_net_line;
use geda_model::Block;
use net_list::{Net, Nets, Package};
use printed_texts::{put_flat, put_word};
use std::alloc::{AllocError, Global};

fn put_field(out: &mut Vec<u8>, value: &Option<Block>) -> Result<(), AllocError>
    ensures { OnOk result (out.new.items ≡ out.old.items ++ field value.now) }
{
    match value {
        Some(value) => put_flat(out, value.as_str().as_bytes()),
        None => {
            out.push(b'-')?;
            Ok(())
        }
    }
}

fn put_next_field(out: &mut Vec<u8>, value: &Option<Block>) -> Result<(), AllocError>
    ensures { OnOk result (out.new.items ≡ out.old.items ++ 9 ∷ field value.now) }
{
    out.push(b'\t')?;
    put_field(out, value)
}

fn put_package(out: &mut Vec<u8>, part: &Package) -> Result<(), AllocError>
    ensures { OnOk result (out.new.items ≡ out.old.items ++ package_text part.now) }
{
    put_word(out, part.refdes.as_str().as_bytes())?;
    put_next_field(out, &part.device)?;
    put_next_field(out, &part.value)?;
    put_next_field(out, &part.footprint)?;
    out.push(b'\n')?;
    Ok(())
}

fn put_packages(out: &mut Vec<u8>, packages: &[Package]) -> Result<(), AllocError>
    ensures { OnOk result (out.new.items ≡ out.old.items ++ flat_map package_text packages.now) }
{
    for package in packages {
        put_package(out, package)?;
    }
    Ok(())
}

fn put_nets(out: &mut Vec<u8>, nets: &[Net]) -> Result<(), AllocError>
    ensures { OnOk result (out.new.items ≡ out.old.items ++ flat_map net_line_text nets.now) }
{
    for net in nets {
        put_net_line(out, net)?;
    }
    Ok(())
}

fn put_count(alloc: Global, out: &mut Vec<u8>, what: &str, count: usize) -> Result<(), AllocError>
    ensures { OnOk result (out.new.items ≡ out.old.items ++ ended (what.now ++ decimal count)) }
{
    let line = format!(in alloc; "{what}{count}\n")?;
    out.extend_from_slice(line.as_bytes())
}

/// How many bytes most lists with so many packages and nets have at most.
fn text_room(packages: usize, nets: usize) -> usize {
    let lines = packages.saturating_add(nets);
    lines.saturating_mul(32)
}

/// The list text of a net list (docs/FORMATS.md, "List text").
pub fn list_text(alloc: Global, nets: &Nets) -> Result<Vec<u8>, AllocError>
    ensures { IfOk result (λ text. text.items ≡ list_text nets.now) }
{
    let packages = nets.packages.as_slice();
    let list = nets.nets.as_slice();
    let mut out = Vec::with_capacity(alloc, text_room(packages.len(), list.len()))?;
    put_count(alloc, &mut out, "parts ", packages.len())?;
    put_packages(&mut out, packages)?;
    put_count(alloc, &mut out, "nets ", list.len())?;
    put_nets(&mut out, list)?;
    Ok(out)
}
