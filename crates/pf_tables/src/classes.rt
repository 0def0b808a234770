//! Three lists of intervals, compiled.

ghost use Rattle.std.specs.Prelude.{◌≡◌, ◌≤◌, IfOk, length};
ghost use Rattle.pf_tables.specs.Classes.{IsClassesOf, IsRowOf};

use crate::column::Column;
use crate::interval::Interval;
use crate::row::Row;
use std::alloc::{AllocError, Global};

/// How many places there may be.
pub const PLACES_MAX: usize = 65536;

/// Places, each with an interval for the source, one for the destination and one for the port.
#[derive(Drop)]
pub struct Classes {
    source: Column,
    destination: Column,
    destination_port: Column,
}

impl Classes {
    /// Places with these intervals.
    pub fn of(
        alloc: Global,
        sources: &[Interval],
        destinations: &[Interval],
        ports: &[Interval],
    ) -> Result<Classes, AllocError>
        requires sources { length sources.now ≤ PLACES_MAX }
        requires destinations { length destinations.now ≤ PLACES_MAX }
        requires ports { length ports.now ≤ PLACES_MAX }
        ensures { IfOk result (λ c. IsClassesOf sources.now destinations.now ports.now c) }
    {
        let source = Column::of(alloc, sources)?;
        let destination = Column::of(alloc, destinations)?;
        let destination_port = Column::of(alloc, ports)?;
        Ok(Classes {
            source,
            destination,
            destination_port,
        })
    }

    /// The rows where these numbers are.
    pub fn row(&self, source: u32, destination: u32, port: u32) -> Row<'_>
        ensures { IsRowOf self.now source destination port result }
    {
        Row {
            source: self.source.row(source),
            destination: self.destination.row(destination),
            destination_port: self.destination_port.row(port),
        }
    }
}
