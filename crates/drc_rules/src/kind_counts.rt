// How many members of a net are of each kind.
ghost use Rattle.std.specs.Prelude.{◌≡◌};
ghost use Rattle.drc_rules.specs.OnNets.{is_member_of_kind};
ghost use Rattle.drc_rules.specs.steps.Counts.{kind_count, kind_counts};

use attr_rules::PinKind;
use net_list::Member;
use pin_matrix::same_kind;

/// A kind, and how many members of a net are of it.
#[derive(Clone, Copy)]
pub struct KindCount {
    /// The kind.
    pub kind: PinKind,
    /// The number of members.
    pub count: usize,
}

/// Whether a member is of a kind. It takes no memory.
pub fn is_of_kind(member: &Member, kind: PinKind) -> bool
    ensures { result ≡ is_member_of_kind kind member.now }
{
    same_kind(member.kind, kind)
}

fn kind_count(members: &[Member], kind: PinKind) -> KindCount
    ensures { result ≡ kind_count members.now kind }
{
    let of_kind = members.iter().filter(|member| is_of_kind(member, kind));
    KindCount {
        kind,
        count: of_kind.count(),
    }
}

/// Each kind in matrix order, and how many members are of it. It takes no memory.
#[tactic(auto, using(crate::proofs::KindLemmas::kinds_counted))]
pub fn kind_counts(members: &[Member]) -> [KindCount; 12]
    ensures { result ≡ kind_counts members.now }
{
    [
        kind_count(members, PinKind::Unknown),
        kind_count(members, PinKind::In),
        kind_count(members, PinKind::Out),
        kind_count(members, PinKind::Io),
        kind_count(members, PinKind::Oc),
        kind_count(members, PinKind::Oe),
        kind_count(members, PinKind::Pas),
        kind_count(members, PinKind::Tp),
        kind_count(members, PinKind::Tri),
        kind_count(members, PinKind::Clk),
        kind_count(members, PinKind::Pwr),
        kind_count(members, PinKind::Unconnected),
    ]
}
