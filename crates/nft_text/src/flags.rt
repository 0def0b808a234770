//! Flags of TCP as the byte that holds them.

ghost use Rattle.std.specs.Prelude.{◌≡◌, ◌≤◌, Some, decimal};
ghost use Rattle.nft_text.specs.Texts.{weight, flags_byte};

use pf_rules::TcpFlags;
use std::fmt;

fn weight(set: bool, number: u8) -> u8
    ensures value { result ≡ weight set number }
    ensures small { result ≤ number }
{
    if set { number } else { 0 }
}

/// The flags as a byte (RFC 9293, 3.1).
fn flags_byte(flags: TcpFlags) -> u8
    ensures { result ≡ flags_byte flags }
{
    let low = weight(flags.fin, 1) + weight(flags.syn, 2) + weight(flags.rst, 4);
    let middle = low + weight(flags.psh, 8) + weight(flags.ack, 16) + weight(flags.urg, 32);
    middle + weight(flags.ece, 64) + weight(flags.cwr, 128)
}

/// The flags as that byte's number.
#[derive(Clone, Copy)]
pub(crate) struct FlagsByte(pub(crate) TcpFlags);

impl fmt::Display for FlagsByte {
    ghost output = { λ x. Some (decimal (flags_byte x.0)) };

    fn fmt<W: fmt::Write>(&self, f: &mut fmt::Formatter<W>) -> fmt::Result {
        f.write(flags_byte(self.0))
    }
}
