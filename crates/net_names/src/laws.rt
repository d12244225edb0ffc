// Laws of net lists.
ghost use Rattle.std.specs.Prelude.{◌≡◌, ℕ, List};
ghost use Rattle.project_model.specs.Projects.{ProjectData};
ghost use Rattle.flat_sheets.specs.Conductors.{conductors_of};
ghost use Rattle.net_list.specs.declared.nets.Nets.{Nets};
ghost use Rattle.net_names.specs.NetClasses.{ClassPinData, NetClassData, by_member};
ghost use Rattle.net_names.specs.NetLaws.{EachPinHasOneNet, EachPinStands, NamesDiffer};
ghost use Rattle.net_names.specs.NetLists.{IsNetListOf, by_least_pin, by_name};
ghost use Rattle.geda_defs.specs.Order.{IsOnceInOrder, by_bytes, once_in_order};

/// The law that a project has one net list.
pub fn one_net_list()
    ensures { (p : ProjectData) (a b : Nets) → IsNetListOf p a → IsNetListOf p b → a ≡ b }
{}

/// The law of lists in which each member stands once, for each order that a net list uses: members
/// rise, each one given equals one that is listed, and each one listed is the first of its equals.
///
/// So the pin of a net that is listed for a refdes and a number is the first one of these.
pub fn each_stands_once()
    ensures members { (pins : List ClassPinData)
        → IsOnceInOrder by_member pins (once_in_order by_member pins) }
    ensures classes { (classes : List NetClassData)
        → IsOnceInOrder by_least_pin classes (once_in_order by_least_pin classes) }
    ensures refdeses { (texts : List (List ℕ))
        → IsOnceInOrder by_bytes texts (once_in_order by_bytes texts) }
    ensures names { (names : List (List ℕ))
        → IsOnceInOrder by_name names (once_in_order by_name names) }
{}

/// The law that no two nets of a net list have one name: a named net has a name of its class alone,
/// and numbers skip the names that are there.
pub fn names_differ()
    ensures { (p : ProjectData) (list : Nets) → IsNetListOf p list → NamesDiffer list.nets }
{}

/// The law that each drawn or hidden pin of a listed part, in each instance, has exactly one net,
/// that of its class: it is listed, a member of it prints as the pin, and it is the net of exactly
/// those pins to which a chain of links leads. No net has other members.
///
/// Two pins that print as one pair of refdes and number may so have two nets. Each pin of each
/// listed part stands among the conductors of which this is said.
pub fn each_pin_has_one_net()
    ensures nets { (p : ProjectData) (list : Nets)
        → IsNetListOf p list → EachPinHasOneNet (conductors_of p) list.nets }
    ensures pins { (p : ProjectData) → EachPinStands p }
{}
