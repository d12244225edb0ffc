ghost use Rattle.std.specs.Prelude.{◌≡◌, ◌+◌, ◌≤◌, length};
ghost use Rattle.geda_text.specs.Lines.{fields_of};

use crate::pieces::Fields;

/// The fields of a line, in order: the pieces between runs of spaces and tabs. A CR is a byte as
/// any other. It takes no memory.
pub fn fields(line: &[u8]) -> Fields<'_>
    ensures given { result ≡ fields_of line.now }
    ensures few { length result ≤ length line.now + 1 }
{
    Fields::of(line)
}
