// Plans as they are proposed to the check, and ways to damage them, drawn from bytes.
use crate::calls::Called;
use crate::network::{Network, WORD_LIMIT};
use model::project::Project;
use trial_projects::drawn::Source;

/// A plan as it is handed to the check: the first so many of these start bytes and flow words. Fewer are
/// handed over while the others stay, so that more can be again.
#[derive(Clone, Copy)]
pub struct Proposal {
    starts: [u8; 6],
    bytes: u16,
    flow: [u64; 80],
    words: u16,
}

/// One way to damage a proposed plan.
#[derive(Clone, Copy)]
pub enum Damage {
    /// So many start bytes are handed over.
    Bytes(u16),
    /// So many flow words are handed over.
    Words(u16),
    /// An activity starts in another slot.
    Start { activity: u16, slot: u8 },
    /// An arc carries something else.
    Word { arc: u16, word: u64 },
    /// Two arcs carry what the other one did.
    Swap(u16, u16),
    /// The arc on and the arc back at a slot both carry more, which stays a flow.
    Cycle { on: u16, back: u16, more: u64 },
    /// No arc carries anything.
    Still,
}

impl Proposal {
    /// All that a call has left in its memory, what is to spare as well.
    pub fn of(called: &Called) -> Proposal {
        Proposal {
            starts: called.starts,
            bytes: 6,
            flow: called.flow,
            words: 80,
        }
    }

    /// The start bytes that are handed over.
    pub fn starts(&self) -> &[u8] {
        &self.starts[..self.bytes.min(6) as usize]
    }

    /// The flow words that are handed over.
    pub fn flow(&self) -> &[u64] {
        &self.flow[..self.words.min(80) as usize]
    }

    fn word(&self, arc: u16) -> u64 {
        self.flow.get(arc as usize).copied().unwrap_or(0)
    }

    fn set_word(&mut self, arc: u16, word: u64) {
        if let Some(held) = self.flow.get_mut(arc as usize) {
            *held = word;
        }
    }

    /// Damages the plan.
    pub fn apply(&mut self, damage: Damage) {
        match damage {
            Damage::Bytes(bytes) => self.bytes = bytes,
            Damage::Words(words) => self.words = words,
            Damage::Start { activity, slot } => {
                if let Some(start) = self.starts.get_mut(activity as usize) {
                    *start = slot;
                }
            }
            Damage::Word { arc, word } => self.set_word(arc, word),
            Damage::Swap(arc, other) => {
                let word = self.word(arc);
                self.set_word(arc, self.word(other));
                self.set_word(other, word);
            }
            Damage::Cycle { on, back, more } => {
                self.set_word(on, self.word(on).saturating_add(more));
                self.set_word(back, self.word(back).saturating_add(more));
            }
            Damage::Still => self.flow = [0; 80],
        }
    }
}

// A slot below the horizon, at it, past it, or the greatest that a byte can say.
fn drawn_slot(source: &mut Source, horizon: u8) -> u8 {
    let byte = source.byte();
    match source.byte() % 6 {
        0 => horizon,
        1 => horizon.saturating_add(byte),
        2 => 255,
        _ => byte % horizon.max(1),
    }
}

// A word a little above or below what it was, as much as the arc may carry or one more, or the greatest.
fn drawn_word(source: &mut Source, word: u64, most: u64) -> u64 {
    let little = 1 + source.byte() as u64 % 4;
    match source.byte() % 8 {
        0 | 1 => word.saturating_add(little),
        2 | 3 => word.saturating_sub(little),
        4 | 5 => most,
        6 => most.saturating_add(1),
        _ => u64::MAX,
    }
}

// A little, or as much as any word may be.
fn drawn_rise(source: &mut Source) -> u64 {
    match source.byte() {
        0..=31 => WORD_LIMIT,
        byte => 1 + byte as u64 % 4,
    }
}

/// A way to damage a plan of a project, drawn.
pub fn drawn_damage<P: Project>(
    source: &mut Source,
    project: &P,
    network: &Network,
    plan: &Proposal,
) -> Damage {
    let count = project.count();
    let on_arcs = count.saturating_mul(project.horizon());
    let arc = source.byte() as u16 % network.arc_count().max(1);
    let on = source.byte() as u16 % on_arcs.max(1);
    match source.byte() % 12 {
        0 => Damage::Bytes(count.saturating_sub(arc % 3)),
        1 => Damage::Words(network.arc_count().saturating_sub(arc % 3)),
        2..=4 => Damage::Start {
            activity: source.byte() as u16 % count.max(1),
            slot: drawn_slot(source, project.horizon().min(128) as u8),
        },
        5..=7 => Damage::Word {
            arc,
            word: drawn_word(source, plan.word(arc), network.most(arc)),
        },
        8 => Damage::Swap(arc, on),
        9..=10 => Damage::Cycle {
            on,
            back: on.saturating_add(on_arcs),
            more: drawn_rise(source),
        },
        _ => Damage::Still,
    }
}
