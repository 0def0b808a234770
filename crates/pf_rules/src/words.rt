//! Tokens that stand for numbers, for flags and for names.

ghost use Rattle.std.specs.Prelude.{◌≡◌, ◌≤◌, bytes_eq, codes, length, map, true, IfSome};
ghost use Rattle.std.specs.List.{list_all};
ghost use Rattle.std.specs.Char.{is_ascii_digit};
ghost use Rattle.pf_rules.specs.Words.{number_of, decimal_value, named, protocol_of, port_of, icmp_type_of, is_letter};
ghost use Rattle.pf_rules.specs.Words.{are_letters, flags_of, is_among, is_reserved};
ghost use Rattle.pf_rules.specs.inner.Words.{begins_with_digit};
ghost use Rattle.pf_rules.specs.inner.Words.{ends_like_reserved};

use crate::flags::TcpFlags;
use crate::profile::Profile;

/// Protocols that have a name (protocols(5)).
const PROTOCOLS: [(&str, u8); 11] = [
    ("icmp", 1),
    ("igmp", 2),
    ("tcp", 6),
    ("udp", 17),
    ("gre", 47),
    ("esp", 50),
    ("ah", 51),
    ("icmp6", 58),
    ("ospf", 89),
    ("carp", 112),
    ("pfsync", 240),
];

/// Ports that have a name (services(5)).
const SERVICES: [(&str, u16); 15] = [
    ("ftp", 21),
    ("ssh", 22),
    ("telnet", 23),
    ("smtp", 25),
    ("domain", 53),
    ("www", 80),
    ("http", 80),
    ("pop3", 110),
    ("ntp", 123),
    ("imap", 143),
    ("snmp", 161),
    ("bgp", 179),
    ("ldap", 389),
    ("https", 443),
    ("submission", 587),
];

/// Types of ICMP that have a name (RFC 792).
const ICMP_TYPES: [(&str, u8); 2] = [("echoreq", 8), ("echorep", 0)];

/// The reserved words of both profiles.
const RESERVED: [&str; 29] = [
    "pass",
    "block",
    "drop",
    "return",
    "in",
    "out",
    "log",
    "quick",
    "on",
    "inet",
    "inet6",
    "proto",
    "all",
    "any",
    "from",
    "to",
    "port",
    "flags",
    "no",
    "keep",
    "state",
    "set",
    "skip",
    "block-policy",
    "table",
    "persist",
    "const",
    "counters",
    "anchor",
];

/// The number with these digits, of which there are few.
fn decimal_value(text: &[u8]) -> u32
    requires few { length text.now ≤ 5 }
    requires digits { list_all is_ascii_digit text.now ≡ true }
    ensures { result ≡ decimal_value text.now }
{
    let mut value = 0u32;
    for digit in text {
        value = 10 * value + u32::from(*digit - b'0');
    }
    value
}

/// Whether each byte is a digit.
fn are_digits(text: &[u8]) -> bool
    ensures { result ≡ list_all is_ascii_digit text.now }
{
    text.iter().all(|b| b.is_ascii_digit())
}

/// A number of one to that many digits, at most this. Leading zeros may be among the digits.
#[tactic(auto, unfolding(crate::specs::Words::number_of))]
pub fn parse_decimal(text: &[u8], digits: usize, most: u16) -> Option<u16>
    requires { digits ≤ 5 }
    ensures value { result ≡ number_of digits most text.now }
    ensures small { IfSome result (λ n. n ≤ most) }
{
    if text.is_empty() || text.len() > digits || !are_digits(text) {
        return None;
    }
    let value = decimal_value(text);
    if value <= u32::from(most) {
        Some(value as u16)
    } else {
        None
    }
}

/// Whether the text is this keyword, byte for byte. Keywords are short: each byte is compared by itself, and where the
/// keyword is known at compile time, so is the number of bytes.
#[inline(always)]
pub fn is_same_word(text: &[u8], word: &[u8]) -> bool
    ensures { result ≡ bytes_eq text.now word.now }
{
    text.len() == word.len() && text.iter().eq(word)
}

/// The number of the name in the table.
fn named(table: &[(&str, u16)], text: &[u8]) -> Option<u16>
    ensures { result ≡ named (map (λ r. (r.0.now, r.1)) table.now) text.now }
{
    for (name, number) in table {
        if is_same_word(text, name.as_bytes()) {
            return Some(*number);
        }
    }
    None
}

/// The number of the name in the table.
fn named_octet(table: &[(&str, u8)], text: &[u8]) -> Option<u8>
    ensures { result ≡ named (map (λ r. (r.0.now, r.1)) table.now) text.now }
{
    for (name, number) in table {
        if is_same_word(text, name.as_bytes()) {
            return Some(*number);
        }
    }
    None
}

/// A number up to 255 in one to three digits.
fn octet(text: &[u8]) -> Option<u8>
    ensures { result ≡ number_of 3 255 text.now }
{
    match parse_decimal(text, 3, 255) {
        Some(number) => Some(number as u8),
        None => None,
    }
}

/// Whether the first byte is a digit. No name of a port, protocol or type begins so.
fn begins_with_digit(text: &[u8]) -> bool
    ensures { result ≡ begins_with_digit text.now }
{
    match text {
        [first, ..] => first.is_ascii_digit(),
        [] => false,
    }
}

/// A port: 0 to 65535 in one to five digits, or a name (pf.conf(5), `port`).
#[tactic(auto, using(crate::proofs::Digits::no_service))]
pub fn parse_port(text: &[u8]) -> Option<u16>
    ensures { result ≡ port_of text.now }
{
    if begins_with_digit(text) {
        return parse_decimal(text, 5, u16::MAX);
    }
    match named(&SERVICES, text) {
        Some(number) => Some(number),
        None => parse_decimal(text, 5, u16::MAX),
    }
}

/// A protocol: 0 to 255 in one to three digits, or a name (pf.conf(5), `proto`).
#[tactic(auto, using(crate::proofs::Digits::no_protocol))]
pub fn parse_protocol(text: &[u8]) -> Option<u8>
    ensures { result ≡ protocol_of text.now }
{
    if begins_with_digit(text) {
        return octet(text);
    }
    match named_octet(&PROTOCOLS, text) {
        Some(number) => Some(number),
        None => octet(text),
    }
}

/// A type of ICMP: 0 to 255 in one to three digits, or a name (pf.conf(5), `icmp-type`).
pub fn parse_icmp_type(text: &[u8]) -> Option<u8>
    ensures { result ≡ icmp_type_of text.now }
{
    match named_octet(&ICMP_TYPES, text) {
        Some(number) => Some(number),
        None => octet(text),
    }
}

/// Whether the byte is the letter of a flag.
#[tactic(auto, unfolding(crate::specs::Words::is_letter))]
fn is_letter(b: u8) -> bool
    ensures { result ≡ is_letter b }
{
    b"FSRPAUEW".contains(&b)
}

/// Whether each byte is the letter of a flag.
fn has_letters_alone(text: &[u8]) -> bool
    ensures { result ≡ list_all is_letter text.now }
{
    text.iter().all(|b| is_letter(*b))
}

/// Whether there is a letter, and each is one of a flag.
fn are_letters(text: &[u8]) -> bool
    ensures { result ≡ are_letters text.now }
{
    !text.is_empty() && has_letters_alone(text)
}

/// Flags of TCP by their letters, one or more of `FSRPAUEW` (pf.conf(5), `flags`).
#[tactic(auto, unfolding(crate::specs::Words::flags_of))]
pub fn parse_flags(text: &[u8]) -> Option<TcpFlags>
    ensures { result ≡ flags_of text.now }
{
    if !are_letters(text) {
        return None;
    }
    Some(TcpFlags {
        fin: text.contains(&b'F'),
        syn: text.contains(&b'S'),
        rst: text.contains(&b'R'),
        psh: text.contains(&b'P'),
        ack: text.contains(&b'A'),
        urg: text.contains(&b'U'),
        ece: text.contains(&b'E'),
        cwr: text.contains(&b'W'),
    })
}

/// Whether the text is one of these words.
fn is_among(words: &[&str], text: &[u8]) -> bool
    ensures { result ≡ is_among (map (λ w. w.now) words.now) text.now }
{
    for word in words {
        if is_same_word(text, word.as_bytes()) {
            return true;
        }
    }
    false
}

/// Whether the last byte is one that ends a reserved word. Most names of interfaces end with a digit.
fn ends_like_reserved(text: &[u8]) -> bool
    ensures { result ≡ ends_like_reserved text.now }
{
    match text {
        [.., last] => matches!(*last, b'6' | b'e' | b'g' | b'k'..=b'p' | b'r'..=b't' | b'y'),
        [] => false,
    }
}

/// Whether the profile reserves the word.
#[tactic(auto, using(crate::proofs::Reserved::unending), unfolding(crate::specs::Words::is_reserved))]
pub fn is_reserved(profile: Profile, text: &[u8]) -> bool
    ensures { result ≡ is_reserved profile text.now }
{
    if !ends_like_reserved(text) {
        return false;
    }
    match profile {
        Profile::One => is_among(&RESERVED, text),
        Profile::Two => is_among(&RESERVED, text) || is_same_word(text, b"icmp-type"),
    }
}
