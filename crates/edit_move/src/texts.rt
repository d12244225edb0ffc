// Texts under a motion.
ghost use Rattle.edit_move.specs.Motions.{IsMotion};
ghost use Rattle.edit_move.specs.Objects.{text_after, texts_after};
ghost use Rattle.edit_move.specs.steps.Walks.{Comes};

use crate::fault::MoveFault;
use crate::motion::{Motion, point_after, text_angle};
use geda_geom::Point;
use geda_model::{Text, Texts};
use std::alloc::Global;

/// A text afterwards.
#[tactic(auto, unfolding(crate::specs::Objects::text_after))]
pub(crate) fn text_after(motion: Motion, text: &Text) -> Result<Text, MoveFault>
    requires motion { IsMotion motion }
    ensures comes { Comes result (text_after motion text.now) }
{
    let point = Point {
        x: text.x,
        y: text.y,
    };
    let point = point_after(motion, point)?;
    Ok(Text {
        x: point.x,
        y: point.y,
        color: text.color,
        size: text.size,
        visible: text.visible,
        show: text.show,
        angle: text_angle(motion, text.angle),
        align: text.align,
        content: text.content.clone()?,
    })
}

/// The texts afterwards.
#[tactic(auto, unfolding(crate::specs::Objects::texts_after))]
pub(crate) fn texts_after(alloc: Global, motion: Motion, texts: &[Text]) -> Result<Texts, MoveFault>
    requires motion { IsMotion motion }
    ensures comes { Comes result (texts_after motion texts.now) }
{
    let mut after = Texts::new(alloc);
    for text in texts {
        after.push(text_after(motion, text)?)?;
    }
    Ok(after)
}
