// A table of cases, a line at a time.
use crate::case_fault::CaseFault;
use crate::cells::{bytes_of, number_of, numbered, text_of};
use crate::table_files::TableFiles;
use std::alloc::{AllocError, Global};
use std::mem;

/// What a case asks.
#[derive(Clone, Copy)]
pub enum Asked<'a> {
    /// The cells of a row, which come to a text.
    Row(&'a [&'a str]),
    /// The words of a question, which come to lines.
    Question(&'a str),
}

/// A case of a table.
#[derive(Clone, Copy)]
pub struct Case<'a> {
    /// The kind, which the heading above names.
    pub kind: &'a str,
    /// What is asked.
    pub asked: Asked<'a>,
    /// The files that it may name.
    pub files: &'a TableFiles,
}

/// A question whose lines are being read.
#[derive(Drop)]
struct Question {
    words: String,
    line: u32,
    wanted: String,
}

/// What is known of a table so far.
#[derive(Drop)]
struct Table {
    name: String,
    kind: String,
    files: TableFiles,
    question: Option<Question>,
    line: u32,
    cases: u32,
    wrong: u32,
    out: String,
}

const VERSION: &[u8] = b"v 20130925 2\n";

fn is_wanted(line: &str) -> bool {
    line.starts_with("> ") || line.starts_with("! ") || line.starts_with("status ")
}

/// The cells of a row.
fn cells_of<'a>(alloc: Global, row: &'a str) -> Result<Vec<&'a str>, AllocError> {
    let mut cells = Vec::new(alloc);
    for cell in row.split(" | ") {
        cells.push(cell.trim())?;
    }
    Ok(cells)
}

fn put_indented(out: &mut String, text: &str) -> Result<(), AllocError> {
    for line in text.lines() {
        writeln!(out, "    {line}")?;
    }
    Ok(())
}

impl Table {
    fn new(alloc: Global, name: &str) -> Result<Table, AllocError> {
        Ok(Table {
            name: String::from_str(alloc, name)?,
            kind: String::new(alloc),
            files: TableFiles::new(alloc),
            question: None,
            line: 0,
            cases: 0,
            wrong: 0,
            out: String::new(alloc),
        })
    }

    /// Tells that something is wrong at a line.
    fn complain(&mut self, line: u32) -> Result<(), AllocError> {
        self.wrong = self.wrong.saturating_add(1);
        write!(self.out, "{}:{line}: ", self.name.as_str())
    }

    fn compare(&mut self, line: u32, found: &str, wanted: &str) -> Result<(), AllocError> {
        self.cases = self.cases.saturating_add(1);
        if found == wanted {
            return Ok(());
        }
        self.complain(line)?;
        writeln!(self.out, "{}", self.kind.as_str())?;
        put_indented(&mut self.out, found)
    }

    /// Asks the question that was read.
    fn settle<F: Fn(Global, &Case<'_>) -> Result<String, CaseFault>>(
        &mut self,
        alloc: Global,
        answer: &F,
    ) -> Result<(), CaseFault>
        requires { F.IsAlwaysCallable answer.now }
    {
        let Some(question) = self.question.take() else {
            return Ok(());
        };
        let case = Case {
            kind: self.kind.as_str(),
            asked: Asked::Question(question.words.as_str()),
            files: &self.files,
        };
        let found = answer(alloc, &case)?;
        self.files.use_up();
        Ok(self.compare(question.line, found.as_str(), question.wanted.as_str())?)
    }

    fn ask(&mut self, alloc: Global, words: &str) -> Result<(), CaseFault> {
        self.files.close()?;
        self.question = Some(Question {
            words: String::from_str(alloc, words)?,
            line: self.line,
            wanted: String::new(alloc),
        });
        Ok(())
    }

    /// Takes a row: the cells, `=>`, and what they come to.
    fn row<F: Fn(Global, &Case<'_>) -> Result<String, CaseFault>>(
        &mut self,
        alloc: Global,
        answer: &F,
        line: &str,
    ) -> Result<(), CaseFault>
        requires { F.IsAlwaysCallable answer.now }
    {
        let (left, right) = line.split_once("=>").ok_or(CaseFault::BadCase)?;
        let cells = cells_of(alloc, left)?;
        self.files.close()?;
        let case = Case {
            kind: self.kind.as_str(),
            asked: Asked::Row(cells.as_slice()),
            files: &self.files,
        };
        let found = answer(alloc, &case)?;
        self.compare_row(alloc, found.as_str(), right)
    }

    fn compare_row(&mut self, alloc: Global, found: &str, right: &str) -> Result<(), CaseFault> {
        self.files.use_up();
        let wanted = text_of(alloc, right.trim())?;
        Ok(self.compare(self.line, found, wanted.as_str())?)
    }

    fn head(&mut self, alloc: Global, rest: &str) -> Result<(), CaseFault> {
        let (_, kind) = rest.split_once(": ").ok_or(CaseFault::BadCase)?;
        self.kind = String::from_str(alloc, kind)?;
        Ok(self.files.begin(alloc)?)
    }

    fn open_bytes(&mut self, alloc: Global, rest: &str) -> Result<(), CaseFault> {
        let (name, bytes) = rest.split_once(' ').unwrap_or((rest, ""));
        let bytes = bytes_of(alloc, bytes)?;
        Ok(self.files.open(alloc, name, bytes)?)
    }

    fn open_files(&mut self, alloc: Global, rest: &str) -> Result<(), CaseFault> {
        let (count, name) = rest.split_once(' ').ok_or(CaseFault::BadCase)?;
        for number in 0..number_of(count)? {
            let name = numbered(alloc, name, number)?;
            self.files
                .open(alloc, name.as_str(), VERSION.to_vec(alloc)?)?;
        }
        Ok(())
    }

    fn put_times(&mut self, alloc: Global, rest: &str) -> Result<(), CaseFault> {
        let (count, line) = rest.split_once(' ').ok_or(CaseFault::BadCase)?;
        self.files.put_times(alloc, number_of(count)?, line)
    }

    /// Takes a line that says something of a file, or is none of those.
    fn put_file(&mut self, alloc: Global, word: &str, rest: &str) -> Result<(), CaseFault> {
        match word {
            "|" => self.files.put(rest),
            "times" => self.put_times(alloc, rest),
            "file" => Ok(self.files.open(alloc, rest, VERSION.to_vec(alloc)?)?),
            "text" => Ok(self.files.open(alloc, rest, Vec::new(alloc))?),
            "bytes" => self.open_bytes(alloc, rest),
            "more" => self.files.open_again(alloc, rest),
            _ => self.open_files(alloc, rest),
        }
    }

    /// Takes a line that begins something.
    fn begin<F: Fn(Global, &Case<'_>) -> Result<String, CaseFault>>(
        &mut self,
        alloc: Global,
        answer: &F,
        line: &str,
    ) -> Result<(), CaseFault>
        requires { F.IsAlwaysCallable answer.now }
    {
        let (word, rest) = line.split_once(' ').unwrap_or((line, ""));
        match word {
            "" | "#" => Ok(()),
            "==" => self.head(alloc, rest),
            "$" => self.ask(alloc, rest),
            "|" | "times" | "file" | "text" | "bytes" | "more" | "files" => {
                self.put_file(alloc, word, rest)
            }
            _ => self.row(alloc, answer, line),
        }
    }

    fn take<F: Fn(Global, &Case<'_>) -> Result<String, CaseFault>>(
        &mut self,
        alloc: Global,
        answer: &F,
        line: &str,
    ) -> Result<(), CaseFault>
        requires { F.IsAlwaysCallable answer.now }
    {
        if let Some(question) = &mut self.question {
            if is_wanted(line) {
                return Ok(writeln!(question.wanted, "{line}")?);
            }
        }
        self.settle(alloc, answer)?;
        self.begin(alloc, answer, line)
    }

    /// Tells of a line that is no case.
    fn pass(&mut self, done: Result<(), CaseFault>) -> Result<(), AllocError> {
        match done {
            Ok(()) => Ok(()),
            Err(CaseFault::BadCase) => {
                self.complain(self.line)?;
                self.out.push_str("bad case\n")
            }
            Err(CaseFault::NoMemory) => Err(AllocError),
        }
    }

    fn take_all<F: Fn(Global, &Case<'_>) -> Result<String, CaseFault>>(
        &mut self,
        alloc: Global,
        answer: &F,
        text: &str,
    ) -> Result<(), AllocError>
        requires { F.IsAlwaysCallable answer.now }
    {
        for line in text.lines() {
            self.line = self.line.saturating_add(1);
            let done = self.take(alloc, answer, line);
            self.pass(done)?;
        }
        let done = self.settle(alloc, answer);
        self.pass(done)
    }

    /// Takes all lines, those of `shared` before the table's own, and hands out what there is to
    /// tell.
    fn tell<F: Fn(Global, &Case<'_>) -> Result<String, CaseFault>>(
        &mut self,
        alloc: Global,
        answer: &F,
        shared: &str,
        text: &str,
    ) -> Result<String, AllocError>
        requires { F.IsAlwaysCallable answer.now }
    {
        self.take_all(alloc, answer, shared)?;
        self.line = 0;
        self.take_all(alloc, answer, text)?;
        let (cases, wrong) = (self.cases, self.wrong);
        writeln!(
            self.out,
            "{}: {cases} cases, {wrong} wrong",
            self.name.as_str()
        )?;
        Ok(mem::replace(&mut self.out, String::new(alloc)))
    }
}

/// The wrong cases of a table, a line each and what was found, and the numbers of all and of wrong
/// ones. `answer` tells what a case comes to. `shared` has the files that the table shares with
/// others, and no cases.
pub fn report<F: Fn(Global, &Case<'_>) -> Result<String, CaseFault>>(
    alloc: Global,
    answer: F,
    shared: &str,
    name: &str,
    text: &str,
) -> Result<String, AllocError>
    requires { F.IsAlwaysCallable answer }
{
    let mut table = Table::new(alloc, name)?;
    table.tell(alloc, &answer, shared, text)
}
