// The forms of a net list.
ghost use Rattle.std.specs.Prelude.{◌≡◌, IfOk};
ghost use Rattle.backends.specs.Forms.{net_text};

use crate::bill_text::bill_text;
use crate::list_text::list_text;
use crate::pcb_text::pcb_text;
use crate::tango_text::tango_text;
use net_list::{Form, Nets};
use std::alloc::{AllocError, Global};

/// The text of a net list in a form (docs/FORMATS.md, "List text", "Tango text", "PCB text" and
/// "Bill of materials").
pub fn net_text(alloc: Global, form: Form, nets: &Nets) -> Result<Vec<u8>, AllocError>
    ensures { IfOk result (λ text. text.items ≡ net_text form nets.now) }
{
    match form {
        Form::List => list_text(alloc, nets),
        Form::Tango => tango_text(alloc, nets),
        Form::Pcb => pcb_text(alloc, nets),
        Form::Bom => bill_text(alloc, nets),
    }
}
