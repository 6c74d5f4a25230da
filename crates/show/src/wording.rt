// The words that people read.
use earliest::chain::{Entry, How};
use model::refusal::{Fault, Refusal};
use model::time::Slot;
use relations::relation::{End, Relation, Sense};
use std::fmt;
use std::fmt::{Formatter, Write};

/// What it holds, written for people.
#[derive(Clone, Copy)]
pub struct InWords<T>(pub T);

/// What is wrong, as a sentence before the byte that it is about.
impl fmt::Display for InWords<Fault> {
    fn fmt<W: Write>(&self, f: &mut Formatter<W>) -> fmt::Result {
        f.write_str(match self.0 {
            Fault::Kind => "the kind letter is not T, at byte",
            Fault::Horizon => "the horizon is not 1 to 128, at byte",
            Fault::Short => "the file ends inside a field, at byte",
            Fault::Count => "a count is out of range, at byte",
            Fault::Range => "a field is out of range, at byte",
            Fault::Trailing => "the file should end, but goes on at byte",
            _ => "refused at",
        })
    }
}

/// The line that tells of a refused file.
impl fmt::Display for InWords<Refusal> {
    fn fmt<W: Write>(&self, f: &mut Formatter<W>) -> fmt::Result {
        let Refusal { fault, place } = self.0;
        write!(
            f,
            "refused {} {place}: {} {place}",
            fault.number(),
            InWords(fault)
        )
    }
}

impl fmt::Display for InWords<End> {
    fn fmt<W: Write>(&self, f: &mut Formatter<W>) -> fmt::Result {
        f.write_str(match self.0 {
            End::Start => "starts",
            End::Finish => "finishes",
        })
    }
}

impl fmt::Display for InWords<Sense> {
    fn fmt<W: Write>(&self, f: &mut Formatter<W>) -> fmt::Result {
        f.write_str(match self.0 {
            Sense::Least => "at least",
            Sense::Greatest => "at most",
        })
    }
}

/// A number of days, below zero too.
#[derive(Clone, Copy)]
struct Days(i16);

impl fmt::Display for InWords<Days> {
    fn fmt<W: Write>(&self, f: &mut Formatter<W>) -> fmt::Result {
        let Days(number) = self.0;
        let unit = if number == 1 || number == -1 {
            "day"
        } else {
            "days"
        };
        write!(f, "{number} {unit}")
    }
}

/// A relation in words, as "activity 1 starts at least 0 days after activity 0 finishes".
impl fmt::Display for InWords<Relation> {
    fn fmt<W: Write>(&self, f: &mut Formatter<W>) -> fmt::Result {
        let relation = self.0;
        write!(
            f,
            "activity {} {} {} {} after activity {} {}",
            relation.to,
            InWords(relation.to_end),
            InWords(relation.sense),
            InWords(Days(relation.interval)),
            relation.from,
            InWords(relation.from_end)
        )
    }
}

/// An entry of a chain in words: what it says of its activity, and why.
impl fmt::Display for InWords<Entry> {
    fn fmt<W: Write>(&self, f: &mut Formatter<W>) -> fmt::Result {
        let Entry {
            activity,
            slot,
            how,
        } = self.0;
        let day = slot.day();
        let before = Slot(slot.0.saturating_sub(1)).day();
        match how {
            How::Start => write!(f, "activity {activity} starts on day {day} or later"),
            How::PastClosed(0) => write!(
                f,
                "activity {activity} cannot start on day {before}: closed in the table"
            ),
            How::PastClosed(height) => write!(
                f,
                "activity {activity} cannot start on day {before}: closed by layer {height}"
            ),
            How::ByLag(number) => write!(
                f,
                "so activity {activity} cannot start before day {day}: relation {number}"
            ),
        }
    }
}

#[cfg(test)]
mod tests {
    use super::*;
    use std::test::Fail;
    use table_file::open::inspect;

    #[test]
    fn a_file_cut_short(rt: HostRuntime) -> Result<(), Fail> {
        match inspect(&[0x54, 4, 2, 2]) {
            Ok(_) => Err(Fail::new("opened")),
            Err(refusal) => {
                let line = format!(in rt.alloc(); "{}", InWords(refusal))?;
                assert!(rt;
                    line.as_str() == "refused 3 4: the file ends inside a field, at byte 4"
                );
                Ok(())
            }
        }
    }

    #[test]
    fn a_letter_that_is_none(rt: HostRuntime) -> Result<(), Fail> {
        match inspect(&[0x55]) {
            Ok(_) => Err(Fail::new("opened")),
            Err(refusal) => {
                let line = format!(in rt.alloc(); "{}", InWords(refusal))?;
                assert!(rt; line.as_str() == "refused 1 0: the kind letter is not T, at byte 0");
                Ok(())
            }
        }
    }

    #[test]
    fn a_chain_in_words(rt: HostRuntime) -> Result<(), Fail> {
        let closed = Entry {
            activity: 0,
            slot: Slot(1),
            how: How::PastClosed(1),
        };
        let line = format!(in rt.alloc(); "{}", InWords(closed))?;
        assert!(rt; line.as_str() == "activity 0 cannot start on day 1: closed by layer 1");
        let by_lag = Entry {
            activity: 1,
            slot: Slot(3),
            how: How::ByLag(0),
        };
        let line = format!(in rt.alloc(); "{}", InWords(by_lag))?;
        assert!(rt; line.as_str() == "so activity 1 cannot start before day 4: relation 0");
        Ok(())
    }
}
