// A file that is to be written.
use geda_model::Name;
use std::marker::Model;

/// The whole bytes of a file, under its name. Contracts see the two.
#[derive(Debug, Drop)]
pub struct FileText {
    /// The name of the file.
    pub name: Name,
    /// Its bytes.
    pub text: Vec<u8>,
}

impl Model for FileText {
    ghost use Rattle.renum_files.specs.RenumberedFiles.{File};

    ghost Value = { File };

    ghost view = { λ f. (f.name, f.text.items) };
}
