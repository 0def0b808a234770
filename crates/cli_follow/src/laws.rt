//! What holds of the line that names a node's members.

ghost use Rattle.std.specs.Prelude.{List};
ghost use Rattle.node_udp.specs.declared.address.Address.{Address};
ghost use Rattle.cli_follow.specs.Members.{AreRead};

use node_udp::shown_is_read;

/// The members of a line of shown addresses are those at these addresses.
pub fn members_are_read()
    ensures { (addresses : List Address) → AreRead addresses }
{
    shown_is_read();
}
