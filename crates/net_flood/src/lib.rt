//! The groups of the conductors of one sheet that touch, kept while conductors come and go.
//!
//! It learns what touches from touch_index alone. Each group stands under one of its keys, its
//! head. A conductor that comes is joined with the groups of its neighbours, the smaller one moving
//! into the larger. Where one goes, searches from its neighbours go on in turn, two at a time, and
//! note what they find beside the groups: where two meet, they are one; where one ends, what it
//! found is a group of its own. When all neighbours are found, what is parted moves out of the
//! group, and the rest stays as it is. So a removal costs about what it parts, or the way round,
//! and never more steps than the group has conductors. Of many neighbours that lie on one another,
//! or meet in one point, a few stand for all. Where memory runs out the groups are given up, and
//! the conductors stay.
//!
//! Rules: docs/RULES.md, "Touching" and "Groups". Definitions: specs/Grouping.antt.
#![tactic(auto)]

mod groups;
mod partition;
mod search;

pub use groups::Groups;
