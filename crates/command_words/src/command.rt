// The commands, and which of them the arguments ask for.
ghost use Rattle.std.specs.Prelude.{◌≡◌, ⊤, None, Some, IfOk, MatchOption, codes, map, option_and_then};
ghost use Rattle.std.specs.Prelude.{option_copied, option_map, string_bytes};
ghost use Rattle.option_words.specs.Reads.{Gives, parts_seen};
ghost use Rattle.option_words.specs.Words.{parts_of};
ghost use Rattle.command_words.specs.Commands.{IsAskable, command_of, drc_of, export_of, fill_of};
ghost use Rattle.command_words.specs.Commands.{filling, form_of, table_of};
ghost use Rattle.command_words.specs.Commands.{is_spice, list_of, matrix_of, netlist_of};
ghost use Rattle.command_words.specs.Commands.{renumber_of, serve_of, serve_with, serving_of, spice_of};
ghost use Rattle.command_words.specs.Commands.{symcheck_of};
ghost use Rattle.command_words.specs.Commands.{store_of, work_of};

use crate::argument::Argument;
use crate::files::{file_of, sheets_of};
use crate::host_words::hosts_apart;
use crate::numbers::{MOST_STEPS, number_of};
use geda_model::{Items, Name};
use net_list::Form;
use option_words::{Parts, WordFault, read_parts};
use std::alloc::{AllocError, Global};
use web_heads::Access;

/// What the program can do (docs/FORMATS.md, "Command lines").
#[derive(Debug, Drop)]
pub enum Command {
    /// Prints the net list of sheets in a form.
    Netlist {
        /// The form.
        form: Form,
        /// The sheets, at least one. Their names differ.
        sheets: Items<Name>,
    },
    /// Prints the net list of sheets as a circuit for SPICE.
    Spice {
        /// The sheets, at least one. Their names differ.
        sheets: Items<Name>,
    },
    /// Prints what the check finds on sheets.
    Drc {
        /// The file of the matrix; `None` for the usual matrix.
        matrix: Option<Name>,
        /// The sheets, at least one. Their names differ.
        sheets: Items<Name>,
    },
    /// Prints the canonical text of a sheet, or of a symbol where the name ends in `.sym`.
    Export {
        /// The file of the sheet or symbol.
        file: Name,
    },
    /// Prints what is wrong with symbols.
    Symcheck {
        /// The files of the symbols, at least one. Their names differ.
        symbols: Items<Name>,
    },
    /// Gives numbers to the components of sheets that have none, and writes the sheets that change.
    Renumber {
        /// The sheets, at least one. Their names differ.
        sheets: Items<Name>,
    },
    /// Prints the attributes of the components of a sheet as a table.
    Table {
        /// The sheet.
        sheet: Name,
    },
    /// Fills a table into the components of a sheet, and writes the sheet if one of them changes.
    Fill {
        /// The sheet.
        sheet: Name,
        /// The file of the table, which has another name.
        table: Name,
    },
    /// Makes steps of the work on a board, and tells what they come to.
    Work {
        /// What the numbers that are drawn begin with.
        start: u32,
        /// How many steps, at most 100,000.
        count: u32,
    },
    /// Serves the history that a store keeps to connections at an address.
    Serve {
        /// The address.
        address: Argument,
        /// The name of the store.
        store: Argument,
        /// Which heads are let in, and as whom a message speaks.
        access: Access,
    },
    /// Copies the history that a store keeps into a database.
    Store {
        /// The name of the store.
        store: Argument,
        /// The name of the database.
        database: Argument,
    },
}

/// The form that the value of `--form` names, and `list` where there is none.
fn form_of(value: Option<&str>) -> Option<Form>
    ensures { result ≡ form_of (option_copied value.entry) }
{
    match value {
        None | Some("list") => Some(Form::List),
        Some("tango") => Some(Form::Tango),
        Some("pcb") => Some(Form::Pcb),
        Some("bom") => Some(Form::Bom),
        Some(_) => None,
    }
}

/// The file that the value of `--matrix` names, where there is one.
fn matrix_of(alloc: Global, value: Option<&str>) -> Result<Option<Name>, WordFault>
    ensures { Gives (λ matrix. matrix) result (matrix_of (option_copied value.entry)) }
{
    match value {
        Some(word) => Ok(Some(file_of(alloc, word)?)),
        None => Ok(None),
    }
}

/// Whether the value of `--form` asks for the SPICE text.
fn is_spice(value: Option<&str>) -> bool
    ensures { result ≡ is_spice (option_copied value.entry) }
{
    match value {
        None => false,
        Some(word) => word == "spice",
    }
}

/// The SPICE text of the sheets that the words name.
fn spice_of(alloc: Global, words: &[&str]) -> Result<Command, WordFault>
    ensures asked { Gives (λ command. command) result (spice_of (map (λ w. w.now) words.now)) }
    ensures apart { IfOk result IsAskable }
{
    let sheets = sheets_of(alloc, words)?;
    Ok(Command::Spice {
        sheets: Items::from_vec(sheets),
    })
}

/// The net list in the form and of the sheets that these parts name.
fn list_of(alloc: Global, parts: Parts<'_>) -> Result<Command, WordFault>
    ensures asked { Gives (λ command. command) result (list_of (parts_seen parts.entry)) }
    ensures apart { IfOk result IsAskable }
{
    let form = form_of(parts.value).ok_or(WordFault::Usage)?;
    let sheets = sheets_of(alloc, parts.words.as_slice())?;
    Ok(Command::Netlist {
        form,
        sheets: Items::from_vec(sheets),
    })
}

/// The net list that these parts ask for, as the SPICE text or in one of its forms.
fn netlist_of(alloc: Global, parts: Parts<'_>) -> Result<Command, WordFault>
    ensures asked { Gives (λ command. command) result (netlist_of (parts_seen parts.entry)) }
    ensures apart { IfOk result IsAskable }
{
    if is_spice(parts.value) {
        spice_of(alloc, parts.words.as_slice())
    } else {
        list_of(alloc, parts)
    }
}

/// The check by the matrix and of the sheets that these parts name.
fn drc_of(alloc: Global, parts: Parts<'_>) -> Result<Command, WordFault>
    ensures asked { Gives (λ command. command) result (drc_of (parts_seen parts.entry)) }
    ensures apart { IfOk result IsAskable }
{
    let matrix = matrix_of(alloc, parts.value)?;
    let sheets = sheets_of(alloc, parts.words.as_slice())?;
    Ok(Command::Drc {
        matrix,
        sheets: Items::from_vec(sheets),
    })
}

/// The export of the one file that the words name.
fn export_of(alloc: Global, words: &[&str]) -> Result<Command, WordFault>
    ensures asked { Gives (λ command. command) result (export_of (map (λ w. w.now) words.now)) }
    ensures apart { IfOk result IsAskable }
{
    let [word] = words else {
        return Err(WordFault::Usage);
    };
    let file = file_of(alloc, *word)?;
    Ok(Command::Export { file })
}

/// The check of the symbols that the words name.
fn symcheck_of(alloc: Global, words: &[&str]) -> Result<Command, WordFault>
    ensures asked { Gives (λ command. command) result (symcheck_of (map (λ w. w.now) words.now)) }
    ensures apart { IfOk result IsAskable }
{
    let symbols = sheets_of(alloc, words)?;
    Ok(Command::Symcheck {
        symbols: Items::from_vec(symbols),
    })
}

/// The numbering of the sheets that the words name.
fn renumber_of(alloc: Global, words: &[&str]) -> Result<Command, WordFault>
    ensures asked { Gives (λ command. command) result (renumber_of (map (λ w. w.now) words.now)) }
    ensures apart { IfOk result IsAskable }
{
    let sheets = sheets_of(alloc, words)?;
    Ok(Command::Renumber {
        sheets: Items::from_vec(sheets),
    })
}

/// The table of the one sheet that the words name.
fn table_of(alloc: Global, words: &[&str]) -> Result<Command, WordFault>
    ensures asked { Gives (λ command. command) result (table_of (map (λ w. w.now) words.now)) }
    ensures any { IfOk result IsAskable }
{
    let [word] = words else {
        return Err(WordFault::Usage);
    };
    let sheet = file_of(alloc, *word)?;
    Ok(Command::Table { sheet })
}

/// A table that is filled into a sheet, whose files differ.
fn filling(sheet: Name, table: Name) -> Option<Command>
    ensures asked { result ≡ filling sheet table }
    ensures any { MatchOption result ⊤ IsAskable }
{
    if sheet == table {
        return None;
    }
    Some(Command::Fill { sheet, table })
}

/// The filling of a sheet by a table that the words name.
fn fill_of(alloc: Global, words: &[&str]) -> Result<Command, WordFault>
    ensures asked { Gives (λ command. command) result (fill_of (map (λ w. w.now) words.now)) }
    ensures any { IfOk result IsAskable }
{
    let [sheet, table] = words else {
        return Err(WordFault::Usage);
    };
    let sheet = file_of(alloc, *sheet)?;
    let table = file_of(alloc, *table)?;
    filling(sheet, table).ok_or(WordFault::Usage)
}

/// The work that the words name: from a start, and so many steps.
fn work_of(words: &[&str]) -> Option<Command>
    ensures asked { result ≡ work_of (map (λ w. w.now) words.now) }
    ensures few { MatchOption result ⊤ IsAskable }
{
    let [start, count] = words else {
        return None;
    };
    let start = number_of(u32::MAX, *start)?;
    let count = number_of(MOST_STEPS, *count)?;
    Some(Command::Work { start, count })
}

/// The serving that the words name by some options: at an address, of what a store keeps.
fn serving_of(alloc: Global, access: Access, words: &[&str]) -> Result<Command, WordFault>
    ensures asked { Gives (λ command. command) result
        (serving_of access (map (λ w. w.now) words.now)) }
    ensures any { IfOk result IsAskable }
{
    let [address, store] = words else {
        return Err(WordFault::Usage);
    };
    let address = Argument::new(alloc, *address)?;
    let store = Argument::new(alloc, *store)?;
    Ok(Command::Serve {
        address,
        store,
        access,
    })
}

/// The name of the header that the value of `--who` is, where there is one.
fn user_of(alloc: Global, value: Option<&str>) -> Result<Option<String>, AllocError>
    ensures { IfOk result (λ user. option_map string_bytes user ≡ option_copied value.entry) }
{
    match value {
        Some(name) => Ok(Some(String::from_str(alloc, name)?)),
        None => Ok(None),
    }
}

/// The serving that these parts ask for, where these hosts are answered.
fn serve_of(alloc: Global, hosts: Vec<String>, parts: Parts<'_>) -> Result<Command, WordFault>
    ensures asked { Gives (λ command. command) result
        (serve_of (map string_bytes hosts.items) (parts_seen parts.entry)) }
    ensures any { IfOk result IsAskable }
{
    let user = user_of(alloc, parts.value)?;
    let access = Access::new(hosts, user).ok_or(WordFault::Usage)?;
    serving_of(alloc, access, parts.words.as_slice())
}

/// The copying that the words name: of what a store keeps, into a database.
fn store_of(alloc: Global, words: &[&str]) -> Result<Command, WordFault>
    ensures asked { Gives (λ command. command) result (store_of (map (λ w. w.now) words.now)) }
    ensures any { IfOk result IsAskable }
{
    let [store, database] = words else {
        return Err(WordFault::Usage);
    };
    let store = Argument::new(alloc, *store)?;
    let database = Argument::new(alloc, *database)?;
    Ok(Command::Store { store, database })
}

/// The net list that the words behind `netlist` ask for.
fn netlist(alloc: Global, words: &[String]) -> Result<Command, WordFault>
    ensures asked { Gives (λ command. command) result (option_and_then netlist_of
        (parts_of (Some (codes "form")) (map string_bytes words.now))) }
    ensures apart { IfOk result IsAskable }
{
    let parts = read_parts(alloc, Some("form"), words)?;
    netlist_of(alloc, parts)
}

/// The check that the words behind `drc` ask for.
fn drc(alloc: Global, words: &[String]) -> Result<Command, WordFault>
    ensures asked { Gives (λ command. command) result (option_and_then drc_of
        (parts_of (Some (codes "matrix")) (map string_bytes words.now))) }
    ensures apart { IfOk result IsAskable }
{
    let parts = read_parts(alloc, Some("matrix"), words)?;
    drc_of(alloc, parts)
}

/// The export that the words behind `export` ask for.
fn export(alloc: Global, words: &[String]) -> Result<Command, WordFault>
    ensures asked { Gives (λ command. command) result
        (option_and_then (λ parts. export_of parts.words)
        (parts_of None (map string_bytes words.now))) }
    ensures apart { IfOk result IsAskable }
{
    let parts = read_parts(alloc, None, words)?;
    export_of(alloc, parts.words.as_slice())
}

/// The check that the words behind `symcheck` ask for.
fn symcheck(alloc: Global, words: &[String]) -> Result<Command, WordFault>
    ensures asked { Gives (λ command. command) result
        (option_and_then (λ parts. symcheck_of parts.words)
        (parts_of None (map string_bytes words.now))) }
    ensures apart { IfOk result IsAskable }
{
    let parts = read_parts(alloc, None, words)?;
    symcheck_of(alloc, parts.words.as_slice())
}

/// The numbering that the words behind `renumber` ask for.
fn renumber(alloc: Global, words: &[String]) -> Result<Command, WordFault>
    ensures asked { Gives (λ command. command) result
        (option_and_then (λ parts. renumber_of parts.words)
        (parts_of None (map string_bytes words.now))) }
    ensures apart { IfOk result IsAskable }
{
    let parts = read_parts(alloc, None, words)?;
    renumber_of(alloc, parts.words.as_slice())
}

/// The table that the words behind `table` ask for.
fn table(alloc: Global, words: &[String]) -> Result<Command, WordFault>
    ensures asked { Gives (λ command. command) result
        (option_and_then (λ parts. table_of parts.words)
        (parts_of None (map string_bytes words.now))) }
    ensures any { IfOk result IsAskable }
{
    let parts = read_parts(alloc, None, words)?;
    table_of(alloc, parts.words.as_slice())
}

/// The filling that the words behind `fill` ask for.
fn fill(alloc: Global, words: &[String]) -> Result<Command, WordFault>
    ensures asked { Gives (λ command. command) result
        (option_and_then (λ parts. fill_of parts.words)
        (parts_of None (map string_bytes words.now))) }
    ensures any { IfOk result IsAskable }
{
    let parts = read_parts(alloc, None, words)?;
    fill_of(alloc, parts.words.as_slice())
}

/// The work that the words behind `work` ask for.
fn work(alloc: Global, words: &[String]) -> Result<Command, WordFault>
    ensures asked { Gives (λ command. command) result
        (option_and_then (λ parts. work_of parts.words)
        (parts_of None (map string_bytes words.now))) }
    ensures few { IfOk result IsAskable }
{
    let parts = read_parts(alloc, None, words)?;
    work_of(parts.words.as_slice()).ok_or(WordFault::Usage)
}

/// The serving that the words behind `serve` ask for.
fn serve(alloc: Global, words: &[String]) -> Result<Command, WordFault>
    ensures asked { Gives (λ command. command) result (serve_with (map string_bytes words.now)) }
    ensures any { IfOk result IsAskable }
{
    let (hosts, others) = hosts_apart(alloc, words)?.into_parts();
    let parts = read_parts(alloc, Some("who"), &others)?;
    serve_of(alloc, hosts, parts)
}

/// The copying that the words behind `store` ask for.
fn store(alloc: Global, words: &[String]) -> Result<Command, WordFault>
    ensures asked { Gives (λ command. command) result
        (option_and_then (λ parts. store_of parts.words)
        (parts_of None (map string_bytes words.now))) }
    ensures any { IfOk result IsAskable }
{
    let parts = read_parts(alloc, None, words)?;
    store_of(alloc, parts.words.as_slice())
}

/// The command that the arguments of a command line ask for.
///
/// `Usage` exactly where they ask for none (docs/FORMATS.md, "Command lines").
pub fn command_of(alloc: Global, arguments: &[String]) -> Result<Command, WordFault>
    ensures asked { Gives (λ command. command) result (command_of arguments.now) }
    ensures apart { IfOk result IsAskable }
{
    let Some((command, words)) = arguments.split_first() else {
        return Err(WordFault::Usage);
    };
    match command.as_str() {
        "netlist" => netlist(alloc, words),
        "drc" => drc(alloc, words),
        "export" => export(alloc, words),
        "symcheck" => symcheck(alloc, words),
        "renumber" => renumber(alloc, words),
        "table" => table(alloc, words),
        "fill" => fill(alloc, words),
        "work" => work(alloc, words),
        "serve" => serve(alloc, words),
        "store" => store(alloc, words),
        _ => Err(WordFault::Usage),
    }
}
