// How grave it is that two kinds of pins meet.
ghost use Rattle.std.specs.Prelude.{◌≡◌, ◌<◌, nat_le};
ghost use Rattle.pin_matrix.specs.MatrixFiles.{ReadsMatrix, toml_document};
ghost use Rattle.pin_matrix.specs.Matrices.{entry, is_correct, kind_rank, pair_place, same_kind, usual};

use crate::fault::MatrixFault;
use crate::level::Level;
use crate::reading::{document_of, filled, matrix_in};
use attr_rules::PinKind;
use std::alloc::Global;
use std::marker::Model;

/// How grave it is that two kinds of pins meet in a net, one level a pair of kinds: rows in order
/// of the kinds, each from `Unknown` on to its own kind, one behind the other.
#[derive(Debug, Drop)]
pub struct Matrix {
    levels: [Level; 78],
}

impl Model for Matrix {
    ghost use Rattle.std.specs.Prelude.{List};
    ghost use Rattle.pin_matrix.specs.declared.level.Level.{Level};

    ghost Value = { List Level };

    ghost view = { λ m. m.levels };
}

fn kind_rank(kind: PinKind) -> usize
    ensures rank { result ≡ kind_rank kind }
    ensures few { result < 12 }
{
    match kind {
        PinKind::Unknown => 0,
        PinKind::In => 1,
        PinKind::Out => 2,
        PinKind::Io => 3,
        PinKind::Oc => 4,
        PinKind::Oe => 5,
        PinKind::Pas => 6,
        PinKind::Tp => 7,
        PinKind::Tri => 8,
        PinKind::Clk => 9,
        PinKind::Pwr => 10,
        PinKind::Unconnected => 11,
    }
}

/// Whether two kinds stand in matrix order. It takes no memory.
pub fn are_in_order(first: PinKind, second: PinKind) -> bool
    ensures { result ≡ nat_le (kind_rank first) (kind_rank second) }
{
    kind_rank(first) <= kind_rank(second)
}

/// Whether there is no finding at a level. It takes no memory.
pub fn is_correct(level: Level) -> bool
    ensures { result ≡ is_correct level }
{
    match level {
        Level::Correct => true,
        Level::Warning | Level::Error => false,
    }
}

/// Whether two kinds are one. It takes no memory.
pub fn same_kind(first: PinKind, second: PinKind) -> bool
    ensures { result ≡ same_kind first second }
{
    kind_rank(first) == kind_rank(second)
}

fn pair_place(first: usize, second: usize) -> usize
    requires first { first < 12 }
    requires second { second < 12 }
    ensures place { result ≡ pair_place first second }
    ensures inside { result < 78 }
{
    if first < second {
        second * (second + 1) / 2 + first
    } else {
        first * (first + 1) / 2 + second
    }
}

impl Matrix {
    /// The usual matrix (docs/RULES.md, "The usual matrix"). It takes no memory.
    #[tactic(auto, unfolding(crate::specs::Matrices::usual))]
    pub fn usual() -> Matrix
        ensures { result ≡ usual }
    {
        let (c, w, e) = (Level::Correct, Level::Warning, Level::Error);
        let levels = [
            c, // unknown
            c, c, // in
            c, c, e, // out
            c, c, w, c, // io
            c, c, e, w, e, // oc
            c, c, e, w, c, e, // oe
            c, c, c, c, c, c, c, // pas
            c, c, e, w, e, e, c, e, // tp
            c, c, e, c, c, c, c, e, c, // tri
            c, c, c, c, c, e, c, e, e, c, // clk
            c, c, e, w, e, e, c, e, e, e, c, // pwr
            e, e, e, e, e, e, e, e, e, e, e, e, // unconnected
        ];
        Matrix { levels }
    }

    /// How grave it is that two kinds meet, in either order. It takes no memory.
    pub fn entry(&self, first: PinKind, second: PinKind) -> Level
        ensures entry { result ≡ entry self.now first second }
        ensures either { entry self.now second first ≡ result }
    {
        self.levels[pair_place(kind_rank(first), kind_rank(second))]
    }

    /// The matrix of a file.
    ///
    /// `BadToml` exactly where the text is longer than 4 MiB or no TOML document, and `BadRows`
    /// exactly where it is a document of another form.
    pub fn read(alloc: Global, text: &[u8]) -> Result<Matrix, MatrixFault>
        ensures { ReadsMatrix (λ m. m) (toml_document text.now) result }
    {
        let document = document_of(alloc, text)?;
        let levels = matrix_in(alloc, &document)?;
        Ok(Matrix {
            levels: filled(&levels),
        })
    }
}
