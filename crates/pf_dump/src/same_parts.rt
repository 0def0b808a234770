//! Whether parts of rules are the same.

ghost use Rattle.std.specs.Prelude.{◌≡◌, true};

use pf_rules::{Addresses, FlagTest, Host, Interface, TcpFlags};

/// Whether the same of the first four flags are set.
fn same_first_flags(a: TcpFlags, b: TcpFlags) -> bool
    ensures fin { result ≡ true → a.fin ≡ b.fin }
    ensures syn { result ≡ true → a.syn ≡ b.syn }
    ensures rst { result ≡ true → a.rst ≡ b.rst }
    ensures psh { result ≡ true → a.psh ≡ b.psh }
    ensures back { a ≡ b → result ≡ true }
{
    a.fin == b.fin && a.syn == b.syn && a.rst == b.rst && a.psh == b.psh
}

/// Whether the same of the last four flags are set.
fn same_last_flags(a: TcpFlags, b: TcpFlags) -> bool
    ensures ack { result ≡ true → a.ack ≡ b.ack }
    ensures urg { result ≡ true → a.urg ≡ b.urg }
    ensures ece { result ≡ true → a.ece ≡ b.ece }
    ensures cwr { result ≡ true → a.cwr ≡ b.cwr }
    ensures back { a ≡ b → result ≡ true }
{
    a.ack == b.ack && a.urg == b.urg && a.ece == b.ece && a.cwr == b.cwr
}

/// Whether the same flags are set.
fn same_flags(a: TcpFlags, b: TcpFlags) -> bool
    ensures same { result ≡ true → a ≡ b }
    ensures back { a ≡ b → result ≡ true }
{
    same_first_flags(a, b) && same_last_flags(a, b)
}

/// Whether the same is asked of flags.
pub(crate) fn same_flag_test(a: FlagTest, b: FlagTest) -> bool
    ensures same { result ≡ true → a ≡ b }
    ensures back { a ≡ b → result ≡ true }
{
    match (a, b) {
        (FlagTest::Any, FlagTest::Any) => true,
        (FlagTest::Just { set: a, of: c }, FlagTest::Just { set: b, of: d }) => {
            same_flags(a, b) && same_flags(c, d)
        }
        _ => false,
    }
}

/// Whether two sets of addresses are written in the same way.
#[tactic(auto, using(pf_config::proofs::Treed::bytes_same))]
fn same_addresses(a: &Addresses, b: &Addresses) -> bool
    ensures same { result ≡ true → a.now ≡ b.now }
    ensures back { a.now ≡ b.now → result ≡ true }
{
    match (a, b) {
        (Addresses::Prefix(a), Addresses::Prefix(b)) => *a == *b,
        (Addresses::Range(a), Addresses::Range(b)) => *a == *b,
        (Addresses::Table(a), Addresses::Table(b)) => a.as_bytes() == b.as_bytes(),
        _ => false,
    }
}

/// The same of which addresses are meant.
pub(crate) fn same_host(a: &Host, b: &Host) -> bool
    ensures same { result ≡ true → a.now ≡ b.now }
    ensures back { a.now ≡ b.now → result ≡ true }
{
    match (a, b) {
        (Host::Any, Host::Any) => true,
        (Host::In(a), Host::In(b)) | (Host::NotIn(a), Host::NotIn(b)) => same_addresses(a, b),
        _ => false,
    }
}

/// The same where one may be asked for.
pub(crate) fn same_interface(a: &Option<Interface>, b: &Option<Interface>) -> bool
    ensures same { result ≡ true → a.now ≡ b.now }
    ensures back { a.now ≡ b.now → result ≡ true }
{
    match (a, b) {
        (None, None) => true,
        (Some(a), Some(b)) => a.negated == b.negated && a.name == b.name,
        _ => false,
    }
}
