//! Candidates one after the other, and the search for those that may match a packet.

ghost use Rattle.std.specs.Prelude.{◌≡◌, IfOk, map};
ghost use Rattle.pf_config.specs.Searches.{source_of, destination_of, port_of, AreCompiled};

use crate::Made;
use crate::candidate::Candidate;
use pf_tables::{Classes, Interval, PLACES_MAX, Row};
use std::alloc::Global;
use std::marker::Model;

/// From how many candidates on their intervals are compiled: a walk over fewer costs less than the look-up.
const COMPILED_FROM: usize = 64;

/// Rules as an evaluation reads them, one after the other. Where they are many, their intervals are compiled.
#[derive(Drop)]
pub struct CandidateList {
    list: Vec<Candidate>,
    classes: Option<Classes>,
}

impl Model for CandidateList {
    ghost use Rattle.std.specs.Prelude.{List};
    ghost use Rattle.pf_config.specs.declared.candidate.Candidate.{Candidate};
    ghost use Rattle.pf_config.specs.Searches.{AreCompiled};

    ghost Value = { List Candidate };

    ghost view = { λ c. c.list.items };

    ghost invariant = { λ c. AreCompiled c.list.items c.classes };
}

/// Candidates, and the numbers of a packet that their intervals are asked for: the first 32 bits of its addresses, and
/// its destination port.
#[derive(Clone, Copy)]
pub struct Search<'c> {
    pub(crate) list: &'c [Candidate],
    pub(crate) row: Option<Row<'c>>,
    pub(crate) source: u32,
    pub(crate) destination: u32,
    pub(crate) destination_port: u32,
}

/// Where the candidates' sources are.
fn sources(alloc: Global, list: &[Candidate]) -> Made<Vec<Interval>>
    ensures { IfOk result (λ v. v.items ≡ map source_of list.now) }
{
    list.iter().map(|c| c.sieve.source).collect(alloc)
}

/// Where the candidates' destinations are.
fn destinations(alloc: Global, list: &[Candidate]) -> Made<Vec<Interval>>
    ensures { IfOk result (λ v. v.items ≡ map destination_of list.now) }
{
    list.iter().map(|c| c.sieve.destination).collect(alloc)
}

/// Where the candidates' destination ports are.
fn ports(alloc: Global, list: &[Candidate]) -> Made<Vec<Interval>>
    ensures { IfOk result (λ v. v.items ≡ map port_of list.now) }
{
    list.iter().map(|c| c.sieve.destination_port).collect(alloc)
}

/// The candidates' intervals, compiled where that pays.
fn compiled(alloc: Global, list: &[Candidate]) -> Made<Option<Classes>>
    ensures { IfOk result (λ c. AreCompiled list.now c) }
{
    if list.len() < COMPILED_FROM || list.len() > PLACES_MAX {
        return Ok(None);
    }
    let sources = sources(alloc, list)?;
    let destinations = destinations(alloc, list)?;
    let ports = ports(alloc, list)?;
    let classes = Classes::of(alloc, &sources, &destinations, &ports)?;
    Ok(Some(classes))
}

impl CandidateList {
    ghost use Rattle.std.specs.Prelude.{◌≡◌, IfOk};
    ghost use Rattle.pf_config.specs.Searching.{IsSearchOf};

    /// These candidates.
    pub(crate) fn of(alloc: Global, list: Vec<Candidate>) -> Made<CandidateList>
        ensures { IfOk result (λ c. c ≡ list.items) }
    {
        let classes = compiled(alloc, &list)?;
        Ok(CandidateList { list, classes })
    }

    /// The candidates themselves.
    pub fn list(&self) -> &[Candidate]
        ensures { result.now ≡ self.now }
    {
        &self.list
    }

    /// The search for those whose sieve may let these numbers pass.
    pub fn search(&self, source: u32, destination: u32, destination_port: u32) -> Search<'_>
        ensures { IsSearchOf self.now source destination destination_port result }
    {
        let row = match &self.classes {
            None => None,
            Some(classes) => Some(classes.row(source, destination, destination_port)),
        };
        Search {
            list: &self.list,
            row,
            source,
            destination,
            destination_port,
        }
    }
}

impl<'c> Search<'c> {
    ghost use Rattle.std.specs.Prelude.{MatchOption};
    ghost use Rattle.pf_config.specs.Searching.{FindsNone, FindsAt, IsSound};

    /// The place of the next candidate, from this one on, that may let the numbers pass. Those before it don't.
    pub fn next(&self, from: usize) -> Option<usize>
        requires { IsSound self.now }
        ensures { MatchOption result (FindsNone self.now from) (λ at. FindsAt self.now from at) }
    {
        let at = match &self.row {
            None => from,
            Some(row) => match row.next(from) {
                None => return None,
                Some(place) => place,
            },
        };
        if at < self.list.len() { Some(at) } else { None }
    }
}
