// The symbol of two pins.
ghost use Rattle.std.specs.Prelude.{◌≡◌, ◌∷◌, [], IfOk, codes, map};
ghost use Rattle.gaf_work.specs.Opening.{device_part, head, hidden_text, pin_part, two_pins};
ghost use Rattle.gaf_work.specs.steps.PlainTexts.{IsPlain};

use geda_model::{Block, Head, Part, Parts, Shape, Symbol, Text, Texts};
use std::alloc::{AllocError, Global};

/// The version line of the symbol and of the sheet. It takes no memory.
pub fn head() -> Head
    ensures { result ≡ head }
{
    Head {
        date: 20_130_925,
        format: 2,
    }
}

/// A text that is not shown, at the height of 50 mils.
fn hidden_text(alloc: Global, x: u16, content: &str) -> Result<Text, AllocError>
    requires { IsPlain content.now }
    ensures { IfOk result (λ text. text ≡ hidden_text x content.now) }
{
    let content = Block::new(alloc, content)?;
    Ok(Text {
        x: i32::from(x),
        y: 50,
        color: 5,
        size: 8,
        visible: 0,
        show: 1,
        angle: 0,
        align: 0,
        content,
    })
}

/// The texts of a pin: its number, its place and its type.
fn pin_texts(alloc: Global, x: u16, number: &str, place: &str) -> Result<Texts, AllocError>
    requires number { IsPlain number.now }
    requires place { IsPlain place.now }
    ensures { IfOk result (λ texts. texts
        ≡ map (hidden_text x) (number.now ∷ place.now ∷ codes "pintype=pas" ∷ [])) }
{
    let mut texts = Texts::new(alloc);
    texts.push(hidden_text(alloc, x, number)?)?;
    texts.push(hidden_text(alloc, x, place)?)?;
    texts.push(hidden_text(alloc, x, "pintype=pas")?)?;
    Ok(texts)
}

/// A pin along the x axis, from its active end to the other, with its texts.
fn pin_part(
    alloc: Global,
    x: u16,
    inner: u16,
    number: &str,
    place: &str,
) -> Result<Part, AllocError>
    requires number { IsPlain number.now }
    requires place { IsPlain place.now }
    ensures { IfOk result (λ part. part
        ≡ pin_part x inner (number.now ∷ place.now ∷ codes "pintype=pas" ∷ [])) }
{
    let attrs = pin_texts(alloc, x, number, place)?;
    Ok(Part {
        shape: Shape::Pin {
            x1: i32::from(x),
            y1: 0,
            x2: i32::from(inner),
            y2: 0,
            color: 1,
            bus: false,
            whichend: 0,
        },
        attrs,
    })
}

/// The text that names the device.
#[tactic(auto, using(crate::proofs::TextLemmas::plain_is_content))]
fn device_part(alloc: Global) -> Result<Part, AllocError>
    ensures { IfOk result (λ part. part ≡ device_part) }
{
    let content = Block::new(alloc, "device=TWO")?;
    let text = Text {
        x: 0,
        y: 200,
        color: 8,
        size: 10,
        visible: 0,
        show: 0,
        angle: 0,
        align: 0,
        content,
    };
    Ok(Part {
        shape: Shape::Text(text),
        attrs: Texts::new(alloc),
    })
}

/// The symbol of two pins, numbered 1 and 2, which stand 300 mils apart.
pub fn two_pins(alloc: Global) -> Result<Symbol, AllocError>
    ensures { IfOk result (λ symbol. symbol ≡ two_pins) }
{
    let mut parts = Parts::new(alloc);
    parts.push(pin_part(alloc, 0, 100, "pinnumber=1", "pinseq=1")?)?;
    parts.push(pin_part(alloc, 300, 200, "pinnumber=2", "pinseq=2")?)?;
    parts.push(device_part(alloc)?)?;
    Ok(Symbol {
        head: head(),
        parts,
    })
}
