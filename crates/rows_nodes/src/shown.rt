//! What a run gives, as lines.

use crate::member::{Counters, Seen, look};
use pf_node::{Datagram, Node};
use px_model::{Entry, Meta, Slot};
use px_records::Records;
use std::io;

/// Writes a message with its number, its addressee and its bytes.
fn write_datagram(rt: &HostRuntime, number: usize, datagram: &Datagram) -> io::Result<()> {
    let digits = hex::encode(rt.alloc(), datagram.bytes.as_slice())?;
    println!(rt; "{number} to {}: {digits}", datagram.to)
}

/// Writes the messages, in order.
pub fn write_sent(rt: &HostRuntime, sent: &[Datagram]) -> io::Result<()> {
    let mut number = 0usize;
    for datagram in sent {
        write_datagram(rt, number, datagram)?;
        number = number.saturating_add(1);
    }
    Ok(())
}

/// Writes what was refused, if anything was, and whether that was wrong.
pub fn write_counters(rt: &HostRuntime, counters: Counters) -> io::Result<()> {
    if counters.datagrams > 0 || counters.ticks > 0 || counters.commands > 0 || counters.late > 0 {
        println!(rt;
            "memory: receive {} tick {} ask {} encode 0 late {}",
            counters.datagrams, counters.ticks, counters.commands, counters.late
        )?;
    }
    if counters.is_wrong {
        println!(rt; "wrong")?;
    }
    Ok(())
}

/// Writes what a member shows.
pub fn write_seen(rt: &HostRuntime, seen: Seen) -> io::Result<()> {
    println!(rt;
        "round {} front {} applied {} learned {} entries {}",
        seen.round, seen.front, seen.applied, seen.learned, seen.entries
    )
}

/// Writes an entry's bytes, or that there is none.
fn write_entry(rt: &HostRuntime, what: &str, entry: Option<&Entry>) -> io::Result<()> {
    match entry {
        None => println!(rt; "{what} none"),
        Some(entry) => {
            let digits = hex::encode(rt.alloc(), entry.bytes())?;
            println!(rt; "{what} {digits}")
        }
    }
}

/// Writes what a slot has.
fn write_slot(rt: &HostRuntime, slot: &Slot) -> io::Result<()> {
    match &slot.accepted {
        None => println!(rt; "  promised {}", slot.promised),
        Some(proposal) => {
            print!(rt; "  promised {}, in {}", slot.promised, proposal.ballot)?;
            write_entry(rt, " accepted", Some(&proposal.entry))
        }
    }
}

/// Writes what a record has of all positions.
fn write_meta(rt: &HostRuntime, meta: &Meta, top: u32, end: u32) -> io::Result<()> {
    println!(rt;
        "  round {} number {} floor {} top {top} end {end}",
        meta.round, meta.number, meta.floor
    )
}

/// Writes what a record has at a position.
fn write_position<R: Records>(rt: &HostRuntime, records: &mut R, position: u32) -> io::Result<()> {
    let written = match records.read_slot(position) {
        Ok(slot) => write_slot(rt, &slot),
        Err(_) => println!(rt; "no memory"),
    };
    written?;
    match records.read_learned(position) {
        Ok(entry) => write_entry(rt, "  learned", entry.as_ref()),
        Err(_) => println!(rt; "no memory"),
    }
}

/// Writes what a record has.
fn write_record<R: Records>(rt: &HostRuntime, records: &mut R) -> io::Result<()> {
    match (
        records.read_meta(),
        records.read_top(),
        records.read_learned_end(),
    ) {
        (Ok(meta), Ok(top), Ok(end)) => write_meta(rt, &meta, top, end)?,
        _ => println!(rt; "no memory")?,
    }
    for position in 0..3u32 {
        write_position(rt, records, position)?;
    }
    Ok(())
}

/// Writes what a member shows, and what it leaves in this record.
fn write_left<R: Records>(rt: &HostRuntime, seen: Seen, records: &mut R) -> io::Result<()> {
    write_seen(rt, seen)?;
    write_record(rt, records)
}

/// Writes what the member shows, and what it leaves in its record.
pub fn write_member<R: Records + Drop>(rt: &HostRuntime, node: Node<R>) -> io::Result<()> {
    let seen = look(&node);
    let mut records = node.close();
    write_left(rt, seen, &mut records)
}
