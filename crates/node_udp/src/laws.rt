//! Laws over the definitions.

ghost use Rattle.std.specs.Prelude.{◌≡◌, ◌≤◌, Some, true};
ghost use Rattle.std.specs.Char.{is_ascii_graphic};
ghost use Rattle.std.specs.List.{list_all};
ghost use Rattle.pf_addr.specs.Blocks.{FitsAddr};
ghost use Rattle.node_udp.specs.declared.address.Address.{Address};
ghost use Rattle.node_udp.specs.Addresses.{address_of, shown_address};

/// An address that is shown is read as itself, and neither a blank nor a control character is in it.
pub fn shown_is_read()
    ensures read { (a : Address) → FitsAddr a.ip → 1 ≤ a.port → a.port ≤ 65535 →
        address_of (shown_address a) ≡ Some a }
    ensures word { (a : Address) → FitsAddr a.ip → a.port ≤ 65535 →
        list_all is_ascii_graphic (shown_address a) ≡ true }
{}
