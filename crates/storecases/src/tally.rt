//! How many answers of each kind were compared.
use crate::steps::{Answer, Outcome};
use std::fmt;

#[derive(Clone, Copy, Default)]
pub struct Tally {
    added: u32,
    present: u32,
    not_taken: u32,
    full: u32,
    dropped: u32,
    absent: u32,
    met: u32,
    ended: u32,
    greatest_count: usize,
}

impl Tally {
    pub fn note(&mut self, answer: Answer) {
        let times = match answer.outcome {
            Outcome::Put(Ok(true)) => &mut self.added,
            Outcome::Put(Ok(false)) => &mut self.present,
            Outcome::Put(Err(number)) if number == 31 => &mut self.not_taken,
            Outcome::Put(Err(_)) => &mut self.full,
            Outcome::Dropped(true) => &mut self.dropped,
            Outcome::Dropped(false) => &mut self.absent,
            Outcome::Walked(Some(_)) => &mut self.met,
            Outcome::Walked(None) => &mut self.ended,
        };
        *times = times.saturating_add(1);
        self.greatest_count = self.greatest_count.max(answer.count);
    }
}

impl fmt::Display for Tally {
    fn fmt<W: fmt::Write>(&self, f: &mut fmt::Formatter<W>) -> fmt::Result {
        write!(
            f,
            "put 1: {}, put 0: {}, put 31: {}, put 58: {}, ",
            self.added, self.present, self.not_taken, self.full
        )?;
        write!(f, "drop 1: {}, drop 0: {}, ", self.dropped, self.absent)?;
        write!(
            f,
            "walk met: {}, walk ended: {}, greatest count: {}",
            self.met, self.ended, self.greatest_count
        )
    }
}
