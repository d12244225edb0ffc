// The Tango text of a net list.
ghost use Rattle.std.specs.Prelude.{◌≡◌, ◌++◌, ◌∷◌, [], if◌then◌else◌, IfOk, OnOk, map};
ghost use Rattle.std.specs.List.{flat_map};
ghost use Rattle.geda_defs.specs.Lines.{ended};
ghost use Rattle.printed_texts.specs.PrintedTexts.{word};
ghost use Rattle.backends.specs.Joined.{is_joined, joined_nets};
ghost use Rattle.backends.specs.ListText.{member_text};
ghost use Rattle.backends.specs.TangoText.{ended_lines, known, net_block, package_block};
ghost use Rattle.backends.specs.TangoText.{tango_text};

use crate::joined::is_joined;
use crate::net_lines::put_member;
use geda_model::Block;
use net_list::{Member, Net, Nets, Package};
use printed_texts::{put_flat, put_word};
use std::alloc::{AllocError, Global};

fn put_mark_line(out: &mut Vec<u8>, mark: u8) -> Result<(), AllocError>
    ensures { OnOk result (out.new.items ≡ out.old.items ++ mark ∷ 10 ∷ []) }
{
    out.push(mark)?;
    out.push(b'\n')?;
    Ok(())
}

fn put_word_line(out: &mut Vec<u8>, text: &[u8]) -> Result<(), AllocError>
    ensures { OnOk result (out.new.items ≡ out.old.items ++ ended (word text.now)) }
{
    put_word(out, text)?;
    out.push(b'\n')?;
    Ok(())
}

fn put_known(out: &mut Vec<u8>, value: &Option<Block>) -> Result<(), AllocError>
    ensures { OnOk result (out.new.items ≡ out.old.items ++ known value.now) }
{
    match value {
        Some(value) => put_flat(out, value.as_str().as_bytes()),
        None => out.extend_from_slice(b"unknown"),
    }
}

fn put_known_line(out: &mut Vec<u8>, value: &Option<Block>) -> Result<(), AllocError>
    ensures { OnOk result (out.new.items ≡ out.old.items ++ ended (known value.now)) }
{
    put_known(out, value)?;
    out.push(b'\n')?;
    Ok(())
}

fn put_package_block(out: &mut Vec<u8>, part: &Package) -> Result<(), AllocError>
    ensures { OnOk result (out.new.items ≡ out.old.items ++ package_block part.now) }
{
    put_mark_line(out, b'[')?;
    put_word_line(out, part.refdes.as_str().as_bytes())?;
    put_known_line(out, &part.footprint)?;
    put_known_line(out, &part.device)?;
    put_known_line(out, &part.value)?;
    put_mark_line(out, b']')
}

fn put_packages(out: &mut Vec<u8>, packages: &[Package]) -> Result<(), AllocError>
    ensures { OnOk result (out.new.items ≡ out.old.items ++ flat_map package_block packages.now) }
{
    for package in packages {
        put_package_block(out, package)?;
    }
    Ok(())
}

fn put_member_line(out: &mut Vec<u8>, member: &Member) -> Result<(), AllocError>
    ensures { OnOk result (out.new.items ≡ out.old.items ++ ended (member_text member.now)) }
{
    put_member(out, member)?;
    out.push(b'\n')?;
    Ok(())
}

fn put_member_lines(out: &mut Vec<u8>, members: &[Member]) -> Result<(), AllocError>
    ensures { OnOk result (out.new.items ≡ out.old.items
        ++ ended_lines (map member_text members.now)) }
{
    for member in members {
        put_member_line(out, member)?;
    }
    Ok(())
}

fn put_net_block(out: &mut Vec<u8>, net: &Net) -> Result<(), AllocError>
    ensures { OnOk result (out.new.items ≡ out.old.items ++ net_block net.now) }
{
    put_mark_line(out, b'(')?;
    put_word_line(out, net.name.as_str().as_bytes())?;
    put_member_lines(out, net.members.as_slice())?;
    put_mark_line(out, b')')
}

fn put_joined(out: &mut Vec<u8>, net: &Net) -> Result<(), AllocError>
    ensures { OnOk result (out.new.items ≡ out.old.items
        ++ (if is_joined net.now then net_block net.now else [])) }
{
    if is_joined(net) {
        put_net_block(out, net)?;
    }
    Ok(())
}

#[tactic(auto, using(crate::proofs::JoinedNets::with_first_net))]
fn put_nets(out: &mut Vec<u8>, nets: &[Net]) -> Result<(), AllocError>
    ensures { OnOk result (out.new.items ≡ out.old.items
        ++ flat_map net_block (joined_nets nets.now)) }
{
    for net in nets {
        put_joined(out, net)?;
    }
    Ok(())
}

/// The Tango text of a net list (docs/FORMATS.md, "Tango text").
pub fn tango_text(alloc: Global, nets: &Nets) -> Result<Vec<u8>, AllocError>
    ensures { IfOk result (λ text. text.items ≡ tango_text nets.now) }
{
    let mut out = Vec::new(alloc);
    put_packages(&mut out, nets.packages.as_slice())?;
    put_nets(&mut out, nets.nets.as_slice())?;
    Ok(out)
}
