// Writing the files of an answer, and its text.
ghost use Rattle.std.specs.Prelude.{OnErr, OnOk};
ghost use Rattle.geda_defs.specs.Causes.{HasCause};
ghost use Rattle.outside.specs.Counts.{counts};
ghost use Rattle.sinks.specs.Streams.{stream};
ghost use Rattle.gafd_run.specs.Writing.{WroteFiles, WroteSome, folder_run};
ghost use Rattle.gafd_run.specs.steps.Passing.{Delivers};

use crate::answer::Answer;
use crate::fault::RunFault;
use project_files::{Folder, FolderFault};
use renum_files::FileText;
use sinks::Sink;
use std::alloc::Global;

/// Writes files, one after the other. After a fault nothing is said of the one that was to be
/// written; those before it are written, and all others stay.
fn write_files<F: Folder>(
    alloc: Global,
    files: &[FileText],
    folder: &mut F,
) -> Result<(), FolderFault>
    ensures all { OnOk result (WroteFiles (folder_run (F.files folder.old) (F.files folder.new)
        (counts (F.faults folder.old) (F.faults folder.new))) files.now) }
    ensures some { OnErr result (WroteSome (folder_run (F.files folder.old) (F.files folder.new)
        (counts (F.faults folder.old) (F.faults folder.new))) files.now) }
    ensures cause { HasCause (F.faults folder.old) (F.faults folder.new) result FolderFault.Failed }
{
    for file in files {
        folder.write(alloc, file.name.as_str(), &file.text)?;
    }
    Ok(())
}

/// Writes the files of an answer, then its text. Nothing goes out before all files are written.
#[tactic(auto, using(crate::proofs::DeliveryLemmas::stopped, crate::proofs::Passing::failed_write))]
pub(crate) fn deliver<F: Folder, O: Sink>(
    alloc: Global,
    answer: &Answer,
    folder: &mut F,
    out: &mut O,
) -> Result<(), RunFault>
    ensures { Delivers (folder_run (F.files folder.old) (F.files folder.new)
        (counts (F.faults folder.old) (F.faults folder.new)))
        (stream (O.written out.old) (O.written out.new)
        (counts (O.faults out.old) (O.faults out.new)))
        answer.now result }
{
    write_files(alloc, &answer.files, folder)?;
    out.write(&answer.text)?;
    Ok(())
}
