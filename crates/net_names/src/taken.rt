// Names of conductors that look like those of nets without names.
ghost use Rattle.std.specs.Prelude.{◌≡◌, ◌++◌, IfOk, OnOk, map};
ghost use Rattle.std.specs.List.{fold};
ghost use Rattle.net_names.specs.steps.Numbering.{taken_names, with_taken};

use crate::names::NetName;
use attr_rules::begins_with;
use geda_model::Block;
use std::alloc::{AllocError, Global};
use std::collections::BTreeSet;

fn take_names(
    taken: &mut BTreeSet<NetName>,
    prefix: &str,
    names: &[(Block, usize)],
) -> Result<(), AllocError>
    ensures { OnOk result (taken.new.keys
        ≡ fold (with_taken prefix.now) taken.old.keys (map (λ n. n.0) names.now)) }
{
    for at in 0..names.len() {
        let name = &names[at].0;
        if begins_with(name.as_str(), prefix) {
            let text = name.clone()?;
            taken.insert(NetName { text })?;
        }
    }
    Ok(())
}

/// Those of two lists of names that begin with a prefix, each once.
pub fn taken_names(
    alloc: Global,
    prefix: &str,
    first: &[(Block, usize)],
    second: &[(Block, usize)],
) -> Result<BTreeSet<NetName>, AllocError>
    ensures { IfOk result (λ taken. taken.keys
        ≡ taken_names prefix.now (map (λ n. n.0) first.now ++ map (λ n. n.0) second.now)) }
{
    let mut taken = BTreeSet::new(alloc);
    take_names(&mut taken, prefix, first)?;
    take_names(&mut taken, prefix, second)?;
    Ok(taken)
}
