// Questions 1 to 4 of the gate, for each record kind and any slice at all.
ghost use Rattle.std.specs.Prelude.{◌≡◌, ◌≤◌, length};
ghost use Rattle.records.specs.Gate.RecordRules.{program_rules};
ghost use Rattle.records.specs.Format.Items.{read_program_bytes};
ghost use Rattle.records.specs.Ends.Traversal.{end_of};
ghost use Rattle.records.specs.Gate.Rows.{Ends, kept_at};
ghost use Rattle.records.specs.Gate.Gate.{framed, of_version, verdict, read_query, read_event, read_program, read_clauses};
ghost use Rattle.records.specs.Gate.GateEnds.{opening_of, judged_at};
ghost use Rattle.records.specs.Gate.CountedEnds.{counted_end, counted_kept, program_rises};
ghost use Rattle.records.specs.Gate.EventEnds.{port_end, bets_place, bets_verdict};

use crate::ends::{Item, goals_end, items_end};
use crate::heads::word_at;
use crate::kinds::*;
use crate::questions::Fault;
use crate::rules::{Ranked, items_kept, ranks_rise};

// Question 1.
fn frames(s: &[u8]) -> bool
    ensures { result ≡ framed s.now }
{
    let n = s.len();
    if n < 3 || RECORD_LIMIT < n {
        return false;
    }
    word_at(s, 0) == Some(n - 2)
}

// Question 2, of a slice that has a version.
fn is_version_1(s: &[u8]) -> bool
    requires { 3 ≤ length s.now }
    ensures { result ≡ of_version s.now }
{
    s[2] == VERSION
}

// Questions 1 and 2.
fn opening_of(s: &[u8]) -> Result<(), Fault>
    ensures { result ≡ opening_of s.now }
{
    if !frames(s) {
        return Err(Fault::Framing);
    }
    if !is_version_1(s) {
        return Err(Fault::Version);
    }
    Ok(())
}

// A count and so many items.
fn counted_end(s: &[u8], at: usize, item: Item) -> Option<usize>
    ensures { result ≡ counted_end item s.now at }
{
    let n = word_at(s, at)?;
    items_end(s, at + 2, item, n)
}

#[inline(always)]
fn counted_kept(s: &[u8], at: usize, item: Item) -> bool
    requires { Ends (counted_end item s.now at) }
    ensures { result ≡ counted_kept item s.now at }
{
    match word_at(s, at) {
        Some(n) => items_kept(s, at + 2, item, n),
        None => true,
    }
}

// Whether the definitions of a program rise.
fn program_rises(s: &[u8]) -> bool
    requires { Ends (end_of read_program_bytes s.now 3) }
    ensures { result ≡ program_rises s.now }
{
    match word_at(s, 3) {
        Some(n) => ranks_rise(s, 5, Ranked::Definitions, n),
        None => true,
    }
}

// The byte after a port.
fn port_end(s: &[u8], at: usize) -> Option<usize>
    ensures { result ≡ port_end s.now at }
{
    if s.len() <= at {
        return None;
    }
    let b = s[at];
    if b < CALL || REDO < b {
        return None;
    }
    Some(at + 1)
}

// Where the bets of an event start, with their count.
pub fn bets_place(s: &[u8]) -> Option<usize>
    ensures { result ≡ bets_place s.now }
{
    let goal = port_end(s, 3)?;
    let ancestors = goals_end(s, goal, 1)?;
    counted_end(s, ancestors, Item::Ancestor)
}

// The answer where the grammar reads a body that ends at e.
fn judged(s: &[u8], e: usize, kept: bool) -> Result<(), Fault>
    ensures { result ≡ judged_at s.now e kept }
{
    if e != s.len() {
        return Err(Fault::Grammar);
    }
    if kept { Ok(()) } else { Err(Fault::Rules) }
}

// Questions 1 to 3 of a query; it has no rules to keep.
pub fn query_verdict(s: &[u8]) -> Result<(), Fault>
    ensures { result ≡ verdict (read_query s.now) }
{
    opening_of(s)?;
    let end = goals_end(s, 3, 1).ok_or(Fault::Grammar)?;
    judged(s, end, true)
}

// Question 3 and 4 of an event whose bets start at b.
fn bets_verdict(s: &[u8], b: usize) -> Result<(), Fault>
    ensures { result ≡ bets_verdict s.now b }
{
    let end = counted_end(s, b, Item::Bet).ok_or(Fault::Grammar)?;
    judged(s, end, counted_kept(s, b, Item::Bet))
}

// Questions 1 to 4 of an event.
pub fn event_verdict(s: &[u8]) -> Result<(), Fault>
    ensures { result ≡ verdict (read_event s.now) }
{
    opening_of(s)?;
    let bets = bets_place(s).ok_or(Fault::Grammar)?;
    bets_verdict(s, bets)
}

// The rules of a program that the grammar has read.
fn program_kept(s: &[u8]) -> bool
    requires { Ends (end_of read_program_bytes s.now 3) }
    ensures { result ≡ kept_at program_rules read_program_bytes s.now 3 }
{
    program_rises(s) && counted_kept(s, 3, Item::Definition)
}

// Questions 1 to 4 of a program.
pub fn program_verdict(s: &[u8]) -> Result<(), Fault>
    ensures { result ≡ verdict (read_program s.now) }
{
    opening_of(s)?;
    let end = counted_end(s, 3, Item::Definition).ok_or(Fault::Grammar)?;
    judged(s, end, program_kept(s))
}

// Questions 1 to 4 of a clause record.
pub fn clauses_verdict(s: &[u8]) -> Result<(), Fault>
    ensures { result ≡ verdict (read_clauses s.now) }
{
    opening_of(s)?;
    let end = counted_end(s, 3, Item::Clause).ok_or(Fault::Grammar)?;
    judged(s, end, counted_kept(s, 3, Item::Clause))
}
