//! What holds of arguments that are sent as lines.

ghost use Rattle.std.specs.Prelude.{◌≡◌, ℕ, List, true, false};
ghost use Rattle.std.specs.List.{list_all, list_any};
ghost use Rattle.std.specs.Str.{is_utf8};
ghost use Rattle.std.specs.Str.Lines.{lines};
ghost use Rattle.cli_ask.specs.Sending.{has_control, lines_of};

/// A node reads the lines of addresses and of packets as the arguments that they were made of: no argument reaches into
/// another.
pub fn lines_are_read_so()
    ensures words { (ws : List (List ℕ)) → list_all is_utf8 ws ≡ true → list_any has_control ws ≡ false →
        lines (lines_of ws) ≡ ws }
{}
