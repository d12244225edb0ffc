// The fields of a row, each behind a space.
ghost use Rattle.std.specs.Prelude.{◌≤◌, length};
ghost use Rattle.geda_grammar.specs.Rows.{fill_fields, stroke_fields};
ghost use Rattle.geda_write.specs.steps.Output.{Adds};
ghost use Rattle.geda_write.specs.steps.Texts.{fields_text, numbers_text};

use crate::numbers::write_numbers;
use crate::output::Output;
use geda_model::{Fill, Stroke};

// So many numbers are written at once: those of a text, which has the most. Each takes at most 12
// bytes: a space, a minus sign and ten digits.
const MOST_NUMBERS: usize = 9;

const MOST_BYTES: usize = 108;

pub(crate) fn put_numbers<O: Output>(out: &mut O, numbers: &[i32]) -> Result<(), O::Fault>
    requires { length numbers.now ≤ MOST_NUMBERS }
    ensures { Adds result (O.got out.old) (O.got out.new) (numbers_text numbers.now) }
{
    let mut bytes = [0; MOST_BYTES];
    let start = write_numbers(numbers, &mut bytes, MOST_BYTES);
    out.piece(&bytes[start..])
}

pub(crate) fn put_stroke<O: Output>(out: &mut O, stroke: &Stroke) -> Result<(), O::Fault>
    ensures { Adds result (O.got out.old) (O.got out.new) (fields_text (stroke_fields stroke.now)) }
{
    put_numbers(
        out,
        &[
            stroke.width,
            stroke.cap,
            stroke.dash,
            stroke.dash_length,
            stroke.dash_space,
        ],
    )
}

pub(crate) fn put_fill<O: Output>(out: &mut O, fill: &Fill) -> Result<(), O::Fault>
    ensures { Adds result (O.got out.old) (O.got out.new) (fields_text (fill_fields fill.now)) }
{
    put_numbers(
        out,
        &[
            fill.sort,
            fill.width,
            fill.angle1,
            fill.pitch1,
            fill.angle2,
            fill.pitch2,
        ],
    )
}
