// What holds of touching, as laws that callers can cite.
ghost use Rattle.geda_geom.specs.declared.conductor.Conductor.{Conductor};
ghost use Rattle.geda_geom.specs.declared.conductor.Conductor.TheVariants.{Segment};
ghost use Rattle.geda_geom.specs.declared.conductor.Point.{Point};
ghost use Rattle.geda_geom.specs.Touch.{AreCrossing, Touch};

/// The law that touching goes both ways.
pub fn touching_turns()
    ensures { (a b : Conductor) → Touch a b → Touch b a }
{}

/// The law that a crossing is no touch: a vertical and a horizontal segment do not touch where each
/// strictly passes the other.
pub fn crossing_is_no_touch()
    ensures { (a b c d : Point) → AreCrossing a b c d → Touch (Segment a b) (Segment c d) → ⊥ }
{}
