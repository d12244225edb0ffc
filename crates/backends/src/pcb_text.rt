// The text of a net list for PCB.
ghost use Rattle.std.specs.Prelude.{◌≡◌, ◌++◌, [], if◌then◌else◌, IfOk, OnOk};
ghost use Rattle.std.specs.List.{flat_map};
ghost use Rattle.backends.specs.Joined.{is_joined, joined_nets};
ghost use Rattle.backends.specs.ListText.{net_line_text};
ghost use Rattle.backends.specs.PcbText.{pcb_text};

use crate::joined::is_joined;
use crate::net_lines::put_net_line;
use net_list::{Net, Nets};
use std::alloc::{AllocError, Global};

fn put_joined(out: &mut Vec<u8>, net: &Net) -> Result<(), AllocError>
    ensures { OnOk result (out.new.items ≡ out.old.items
        ++ (if is_joined net.now then net_line_text net.now else [])) }
{
    if is_joined(net) {
        put_net_line(out, net)?;
    }
    Ok(())
}

#[tactic(auto, using(crate::proofs::JoinedNets::with_first_net))]
fn put_nets(out: &mut Vec<u8>, nets: &[Net]) -> Result<(), AllocError>
    ensures { OnOk result (out.new.items ≡ out.old.items
        ++ flat_map net_line_text (joined_nets nets.now)) }
{
    for net in nets {
        put_joined(out, net)?;
    }
    Ok(())
}

/// The text of a net list for PCB (docs/FORMATS.md, "PCB text").
pub fn pcb_text(alloc: Global, nets: &Nets) -> Result<Vec<u8>, AllocError>
    ensures { IfOk result (λ text. text.items ≡ pcb_text nets.now) }
{
    let mut out = Vec::new(alloc);
    put_nets(&mut out, nets.nets.as_slice())?;
    Ok(out)
}
