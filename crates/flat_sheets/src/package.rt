// What a component says of its package.
ghost use Rattle.std.specs.Prelude.{◌≡◌, ◌++◌, IfOk, OnOk, Some, length, option_copied, option_map};
ghost use Rattle.std.specs.Option.{option_to_list};
ghost use Rattle.flat_rows.specs.Rows.{refdes_at};
ghost use Rattle.flat_sheets.specs.steps.PartRoles.{IsPlaceOf, role_in};
ghost use Rattle.flat_sheets.specs.steps.RoleValues.{package_by};

use crate::conductors::PartRole;
use crate::roles::Role;
use attr_rules::FirstValues;
use flat_rows::GrowingRows;
use geda_model::{Block, Line};
use net_list::Package;
use std::alloc::{AllocError, Global};

fn copy_of(alloc: Global, value: Option<&str>) -> Result<Option<Block>, AllocError>
    ensures { IfOk result (λ copy. copy ≡ option_copied value.entry) }
{
    match value {
        Some(value) => Ok(Some(Block::new(alloc, value)?)),
        None => Ok(None),
    }
}

fn package_of(alloc: Global, values: &FirstValues<'_>, refdes: Line) -> Result<Package, AllocError>
    ensures made { IfOk result (λ made. Some made ≡ package_by values.now (Some refdes)) }
    ensures refdes { IfOk result (λ made. made.refdes ≡ refdes) }
{
    Ok(Package {
        refdes,
        device: copy_of(alloc, values.device)?,
        value: copy_of(alloc, values.value)?,
        footprint: copy_of(alloc, values.footprint)?,
    })
}

/// Adds what a component with these first values says of its package, if it is listed under a
/// printed refdes (docs/RULES.md, "Packages"), and gives the place of that part.
fn add_package(
    rows: &mut GrowingRows,
    alloc: Global,
    values: &FirstValues<'_>,
    refdes: Option<Line>,
) -> Result<Option<usize>, AllocError>
    ensures parts { OnOk result
        (rows.new.parts ≡ rows.old.parts ++ option_to_list (package_by values.now refdes)) }
    ensures drawn { OnOk result (rows.new.drawn ≡ rows.old.drawn) }
    ensures hidden { OnOk result (rows.new.hidden ≡ rows.old.hidden) }
    ensures refdes { IfOk result (λ part. option_map (refdes_at rows.new.parts) part ≡ refdes) }
    ensures place { IfOk result (λ part. IsPlaceOf (length rows.new.parts) part) }
{
    match refdes {
        None => Ok(None),
        Some(refdes) => {
            let package = package_of(alloc, values, refdes)?;
            let place = rows.add_part(package)?;
            Ok(Some(place))
        }
    }
}

/// Adds the package of a component with these first values in this role, if it is a listed part.
#[inline(always)]
pub fn listed_role(
    rows: &mut GrowingRows,
    alloc: Global,
    values: &FirstValues<'_>,
    role: Role,
) -> Result<PartRole, AllocError>
    ensures parts { OnOk result
        (rows.new.parts ≡ rows.old.parts ++ option_to_list (package_by values.now role.refdes)) }
    ensures drawn { OnOk result (rows.new.drawn ≡ rows.old.drawn) }
    ensures hidden { OnOk result (rows.new.hidden ≡ rows.old.hidden) }
    ensures role { IfOk result (λ listed. role_in rows.new.parts listed ≡ role) }
    ensures place { IfOk result (λ listed. IsPlaceOf (length rows.new.parts) listed.part) }
{
    let Role {
        refdes,
        leads_down,
        leads_up,
        directive,
    } = role;
    let part = add_package(rows, alloc, values, refdes)?;
    Ok(PartRole {
        part,
        leads_down,
        leads_up,
        directive,
    })
}
