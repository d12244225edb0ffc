// The columns along which segments lie: only there do conductors touch that touch in no row.
ghost use Rattle.std.specs.Prelude.{◌≡◌, ℕ, IfOk, false, length, replicate, slice_index_or, true};
ghost use Rattle.geda_geom.specs.declared.conductor.Point.{Point};
ghost use Rattle.sheet_groups.specs.steps.Rows.{AreNear, ArePoints, AreRowsOf, IsAlong, row_counts};

use crate::drawn::DrawnConductor;
use crate::sweeps::{seen, up};
use geda_geom::Conductor;
use std::alloc::{AllocError, Global};

fn flags(alloc: Global, count: usize) -> Result<Vec<bool>, AllocError>
    ensures { IfOk result (λ flags. flags.items ≡ replicate count false) }
{
    let mut flags = Vec::with_capacity(alloc, count)?;
    for _place in 0..count {
        flags.push(false)?;
    }
    Ok(flags)
}

fn mark_row(rows: &mut Vec<bool>, row: usize)
    ensures marked { slice_index_or rows.new.items row true ≡ true }
    ensures kept { (i : ℕ) → slice_index_or rows.old.items i true ≡ true
        → slice_index_or rows.new.items i true ≡ true }
{
    if row >= rows.len() {
        return;
    }
    rows[row] = true;
}

/// Marks the row of a conductor that lies along one.
fn mark(rows: &mut Vec<bool>, shape: Conductor)
    requires { ArePoints shape }
    ensures marked { (p : Point) → IsAlong shape p → row_counts rows.new.items p ≡ true }
    ensures kept { (p : Point) → row_counts rows.old.items p ≡ true
        → row_counts rows.new.items p ≡ true }
{
    let Conductor::Segment { a, b } = shape else {
        return;
    };
    if up(a) != up(b) {
        return;
    }
    mark_row(rows, up(a) as usize % 4096);
}

/// Flags of columns, of which those count along which a segment lies. Each column shares its flag
/// with those that stand 4,096 mils apart. Of few conductors no column has a flag, so each counts.
pub(crate) fn marked_columns(
    alloc: Global,
    conductors: &[DrawnConductor],
) -> Result<Vec<bool>, AllocError>
    requires { AreNear conductors.now }
    ensures { IfOk result
        (λ rows. AreRowsOf true conductors.now (length conductors.now) rows.items) }
{
    let count = if conductors.len() < 1024 { 0 } else { 4096 };
    let mut rows = flags(alloc, count)?;
    for place in 0..conductors.len() {
        let drawn = conductors[place];
        let shape = seen(true, drawn.shape);
        mark(&mut rows, shape);
    }
    Ok(rows)
}
