// The labels of classes, in order of their least members.
ghost use Rattle.std.specs.Prelude.{◌≡◌, ◌<◌, All, IfOk, OnOk, false, length, replicate};
ghost use Rattle.rank_order.specs.Classes.{Meets, met};

use std::alloc::{AllocError, Global};

fn flags(alloc: Global, count: usize) -> Result<Vec<bool>, AllocError>
    ensures { IfOk result (λ flags. flags.items ≡ replicate count false) }
{
    let mut flags = Vec::with_capacity(alloc, count)?;
    for _place in 0..count {
        flags.push(false)?;
    }
    Ok(flags)
}

/// Takes in a label that is met.
fn meet(is_met: &mut Vec<bool>, heads: &mut Vec<usize>, label: usize) -> Result<(), AllocError>
    requires { label < length is_met.old.items }
    ensures { OnOk result
        (Meets label is_met.old.items heads.old.items is_met.new.items heads.new.items) }
{
    if is_met[label] {
        return Ok(());
    }
    is_met[label] = true;
    heads.push(label)?;
    Ok(())
}

/// The labels of members, each once, where it is met first. All labels are below a count.
pub fn labels_met(alloc: Global, count: usize, labels: &[usize]) -> Result<Vec<usize>, AllocError>
    requires { All (λ label. label < count) labels.now }
    ensures { IfOk result (λ labels_met. labels_met.items ≡ met (λ label. label) labels.now) }
{
    let mut is_met = flags(alloc, count)?;
    let mut heads = Vec::with_capacity(alloc, labels.len())?;
    for at in 0..labels.len() {
        let label = labels[at];
        meet(&mut is_met, &mut heads, label)?;
    }
    Ok(heads)
}
