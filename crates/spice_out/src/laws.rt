// Laws of SPICE texts.
ghost use Rattle.std.specs.Prelude.{◌≡◌, ◌↔◌, ◌<◌, ◌^◌, ℕ, true, List, None, map};
ghost use Rattle.project_model.specs.Projects.{ProjectData};
ghost use Rattle.flat_sheets.specs.Conductors.{conductors_of};
ghost use Rattle.net_list.specs.declared.nets.Nets.{Nets};
ghost use Rattle.net_names.specs.NetLists.{IsNetListOf};
ghost use Rattle.spice_out.specs.Faults.{spice_fault};
ghost use Rattle.spice_out.specs.SpiceLaws.{AreFew, CardsDiffer, NodesAreChains, NodesAreNets};
ghost use Rattle.spice_out.specs.SpiceLaws.{AreDigitsTo, card_fields, carded, cut_cards};
ghost use Rattle.spice_out.specs.Pins.{PinData, has_numbered_pins};
ghost use Rattle.spice_out.specs.SpiceText.{spice_text};

/// The law that a text tells its cards: its lines that begin with neither `*` nor `.`, each cut at
/// single spaces, are those of the packages with a card in their order, and give the name, then the
/// node of each pin from the first on, then what the value gives.
pub fn text_tells_cards()
    ensures { (list : Nets) → AreFew list
        → cut_cards (spice_text list) ≡ map (card_fields list) (carded list.packages) }
{}

/// The law that two pins of cards have one node exactly where they are members of one net of the
/// project, in a net list without fault; and so exactly where a chain of links leads from one to
/// the other, at whichever places of the project they stand.
pub fn nodes_are_nets()
    ensures nets { (p : ProjectData) (list : Nets) → IsNetListOf p list → AreFew list
        → spice_fault list ≡ None → NodesAreNets list }
    ensures chains { (p : ProjectData) (list : Nets) → IsNetListOf p list → AreFew list
        → spice_fault list ≡ None → NodesAreChains (conductors_of p) list }
{}

/// The law that no two cards of a net list without fault have one name, without regard to ASCII
/// case.
pub fn card_names_differ()
    ensures { (list : Nets) → spice_fault list ≡ None → CardsDiffer list }
{}

/// The law that a package has the pins of its card exactly where its pin numbers are the digits of
/// 1 to their count, and no others.
pub fn pin_sets_are_exact()
    ensures { (n : ℕ) (pins : List PinData) → n < 2 ^ 64
        → (has_numbered_pins n pins ≡ true) ↔ AreDigitsTo n pins }
{}
