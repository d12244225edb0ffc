// Members and nets, as the list text, the Tango text and the PCB text share them.
ghost use Rattle.std.specs.Prelude.{◌≡◌, ◌++◌, ◌∷◌, OnOk, map};
ghost use Rattle.std.specs.List.{flat_map};
ghost use Rattle.geda_defs.specs.Lines.{spaced};
ghost use Rattle.backends.specs.ListText.{member_text, net_line_text};

use net_list::{Member, Net};
use printed_texts::put_word;
use std::alloc::AllocError;

/// Writes a member: refdes, `-`, pin number.
pub fn put_member(out: &mut Vec<u8>, member: &Member) -> Result<(), AllocError>
    ensures { OnOk result (out.new.items ≡ out.old.items ++ member_text member.now) }
{
    put_word(out, member.refdes.as_str().as_bytes())?;
    out.push(b'-')?;
    put_word(out, member.pin.as_str().as_bytes())
}

fn put_members(out: &mut Vec<u8>, members: &[Member]) -> Result<(), AllocError>
    ensures { OnOk result (out.new.items ≡ out.old.items ++ spaced (map member_text members.now)) }
{
    if let Some((first, others)) = members.split_first() {
        put_member(out, first)?;
        put_others(out, others)?;
    }
    Ok(())
}

fn put_others(out: &mut Vec<u8>, members: &[Member]) -> Result<(), AllocError>
    ensures { OnOk result (out.new.items ≡ out.old.items ++ flat_map (λ m. 32 ∷ member_text m)
        members.now) }
{
    for member in members {
        out.push(b' ')?;
        put_member(out, member)?;
    }
    Ok(())
}

/// Writes the line of a net: its name, a tab, and its members parted by one space.
pub fn put_net_line(out: &mut Vec<u8>, net: &Net) -> Result<(), AllocError>
    ensures { OnOk result (out.new.items ≡ out.old.items ++ net_line_text net.now) }
{
    put_word(out, net.name.as_str().as_bytes())?;
    out.push(b'\t')?;
    put_members(out, net.members.as_slice())?;
    out.push(b'\n')?;
    Ok(())
}
