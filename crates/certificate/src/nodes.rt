// Sums of flow words at one point of the time network, over the arcs there.
ghost use Rattle.std.specs.Prelude.{◌≡◌, ◌+◌, ◌*◌, ◌<◌, ◌≤◌};
ghost use Rattle.flow.specs.Sums.{sum_to};
ghost use Rattle.flow.specs.Nets.{word};
ghost use Rattle.plan_theory.specs.TimeNetwork.{lag_arc};
ghost use Rattle.certificate.specs.Sums.{Carried, rows_of, most_terms, lag_out, lag_in, out_of, in_to};
ghost use Rattle.certificate.specs.Faults.{unless, word_limit, inner_nodes, node_fault, nodes_fault};

use crate::starts::lag_at;
use model::project::Project;
use model::refusal::{Fault, Refusal};

/// The flow words of a project, none above the limit. They stand in rows, one word for each slot: a row on
/// for each activity, then a row back for each, then a row for each lag.
#[derive(Drop)]
pub struct Rows<'a, P: Project> {
    pub project: &'a P,
    pub flow: &'a [u64],
    ghost carried: { Carried (P.meaning project.now) flow.now },
}

// Rows and slots come from ranges: a struct around one would be made in each closure to be taken apart below.
impl<P: Project> Rows<'_, P> {
    /// The word of a slot in a row.
    pub fn row_word(&self, row: u16, slot: u16) -> u64
        requires placed { row < rows_of (P.meaning self.now.project.now) }
        requires within { slot < (P.meaning self.now.project.now).horizon }
        ensures value { result ≡ word self.now.flow.now (row * (P.meaning self.now.project.now).horizon + slot) }
        ensures low { result ≤ word_limit }
    {
        self.flow[row as usize * self.project.horizon() as usize + slot as usize]
    }

    /// The word of a lag at a slot.
    pub fn lag_word(&self, number: u16, slot: u16) -> u64
        requires known { number < (P.meaning self.now.project.now).lags }
        requires within { slot < (P.meaning self.now.project.now).horizon }
        ensures value { result ≡ word self.now.flow.now (lag_arc (P.meaning self.now.project.now) number slot) }
        ensures low { result ≤ word_limit }
    {
        self.row_word(2 * self.project.count() + number, slot)
    }

    // Inner nodes are numbered from 2, slot by slot of each activity; slot 0 is the source.
    fn check_node(&self, inner: u16) -> Result<(), Refusal>
        requires { inner < inner_nodes (P.meaning self.now.project.now) }
        ensures { result ≡ unless (node_fault (P.meaning self.now.project.now) self.now.flow.now (2 + inner)) }
    {
        let slots = self.project.horizon() - 1;
        let point = Point {
            rows: self,
            activity: inner / slots,
            slot: inner % slots + 1,
        };
        if point.sends() == point.gets() {
            Ok(())
        } else {
            Err(Fault::Unbalanced.at(2 + inner))
        }
    }

    /// What enters each node but source and sink leaves it, or the least node where this is not so.
    pub fn check_nodes(&self) -> Result<(), Refusal>
        ensures { result ≡ unless (nodes_fault (P.meaning self.now.project.now) self.now.flow.now) }
    {
        for i in 0..self.project.count() * (self.project.horizon() - 1) {
            self.check_node(i)?;
        }
        Ok(())
    }
}

// A point past slot 0 and before the horizon.
#[derive(Drop)]
struct Point<'a, P: Project> {
    rows: &'a Rows<'a, P>,
    activity: u16,
    slot: u16,
    ghost present: { activity < (P.meaning rows.now.project.now).n },
    ghost past: { 0 < slot },
    ghost within: { slot < (P.meaning rows.now.project.now).horizon },
}

impl<P: Project> Point<'_, P> {
    // What one lag takes away.
    fn lag_from(&self, number: u16) -> u64
        requires { number < (P.meaning self.now.rows.now.project.now).lags }
        ensures value { let rows = self.now.rows.now in
            result ≡ lag_out (P.meaning rows.project.now) rows.flow.now self.now.activity self.now.slot number }
        ensures low { result ≤ word_limit }
    {
        if lag_at(self.rows.project, number).from as u16 == self.activity {
            self.rows.lag_word(number, self.slot)
        } else {
            0
        }
    }

    // What the lags take away. Sums like this one are a chain each: what is summed is all that they say.
    fn lags_from(&self) -> u64
        ensures value { let rows = self.now.rows.now in
            let m = P.meaning rows.project.now in
            result ≡ sum_to (lag_out m rows.flow.now self.now.activity self.now.slot) m.lags }
        ensures low { result ≤ most_terms * word_limit }
    {
        (0..self.rows.project.lag_count())
            .map(|k| self.lag_from(k))
            .sum()
    }

    // What one lag brings: its arc comes from the slot that lies its gap before.
    fn lag_to(&self, number: u16) -> u64
        requires { number < (P.meaning self.now.rows.now.project.now).lags }
        ensures value { let rows = self.now.rows.now in
            result ≡ lag_in (P.meaning rows.project.now) rows.flow.now self.now.activity self.now.slot number }
        ensures low { result ≤ word_limit }
    {
        let lag = lag_at(self.rows.project, number);
        let before = self.slot as i32 - lag.gap as i32;
        if lag.to as u16 != self.activity
            || before < 0
            || before >= self.rows.project.horizon() as i32
        {
            return 0;
        }
        self.rows.lag_word(number, before as u16)
    }

    // What the lags bring.
    fn lags_to(&self) -> u64
        ensures value { let rows = self.now.rows.now in
            let m = P.meaning rows.project.now in
            result ≡ sum_to (lag_in m rows.flow.now self.now.activity self.now.slot) m.lags }
        ensures low { result ≤ most_terms * word_limit }
    {
        (0..self.rows.project.lag_count())
            .map(|k| self.lag_to(k))
            .sum()
    }

    // What leaves it.
    fn sends(&self) -> u64
        ensures { let rows = self.now.rows.now in
            result ≡ out_of (P.meaning rows.project.now) rows.flow.now self.now.activity self.now.slot }
    {
        let rows = self.rows;
        let on = rows.row_word(self.activity, self.slot);
        let back = rows.row_word(rows.project.count() + self.activity, self.slot - 1);
        on + back + self.lags_from()
    }

    // What enters it. Apart from `sends`: the words are those of other slots.
    fn gets(&self) -> u64
        ensures { let rows = self.now.rows.now in
            result ≡ in_to (P.meaning rows.project.now) rows.flow.now self.now.activity self.now.slot }
    {
        let rows = self.rows;
        let on = rows.row_word(self.activity, self.slot - 1);
        let back = rows.row_word(rows.project.count() + self.activity, self.slot);
        on + back + self.lags_to()
    }
}
