// The bounds of files and of their fields, as specs/Limits.antt has them.

/// How far a coordinate may stand from 0, in mils.
pub const GREATEST_COORDINATE: u32 = 200000;

/// How far any other number may stand from 0.
pub const GREATEST_NUMBER: u32 = 1000000;

/// The lines of a text or of a path.
pub const MOST_LINES: usize = 10000;

/// The objects of a sheet, and the parts of a symbol.
pub const MOST_OBJECTS: usize = 100000;

/// The bytes of a file.
pub const MOST_FILE_BYTES: usize = 4194304;

/// The bytes of the texts of all sheets and symbols of a project.
pub const MOST_PROJECT_TEXT: usize = 67108864;

/// The sheets of a project.
pub const MOST_SHEETS: usize = 1024;

/// The symbols of a project's library.
pub const MOST_SYMBOLS: usize = 8192;

/// The bytes of a name.
pub const MOST_NAME_BYTES: usize = 100;

/// The bytes of a word.
pub const MOST_WORD_BYTES: usize = 200;

/// The bytes of a basename that stands behind `EMBEDDED`.
pub const MOST_EMBEDDED_BYTES: usize = 192;
