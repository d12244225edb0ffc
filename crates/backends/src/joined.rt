// The nets that join pins.
ghost use Rattle.std.specs.Prelude.{◌≡◌};
ghost use Rattle.backends.specs.Joined.{is_joined};

use net_list::{Net, NetSort};

/// Whether a net is no unconnected pin. It takes no memory.
pub fn is_joined(net: &Net) -> bool
    ensures { result ≡ is_joined net.now }
{
    match net.sort {
        NetSort::Named | NetSort::Unnamed => true,
        NetSort::Unconnected => false,
    }
}
