// What was there after the work.
ghost use Rattle.std.specs.Prelude.{Some};

use std::fmt;

/// How many records a log had at the end, and how many bytes were read last, where a record was to be read.
#[derive(Clone, Copy, Debug, PartialEq, Eq)]
pub struct Done {
    pub count: u64,
    pub read: Option<u64>,
}

impl fmt::Display for Done {
    ghost use Rattle.log_bench.specs.Answer.{text_of};

    ghost output = { λ done. Some (text_of done) };

    /// Writes `3 records`, and of a record that was to be read how many bytes were: `, entry of 1024 bytes`.
    fn fmt<W: fmt::Write>(&self, f: &mut fmt::Formatter<W>) -> fmt::Result {
        let count = self.count;
        match self.read {
            None => write!(f, "{count} records"),
            Some(bytes) => write!(f, "{count} records, entry of {bytes} bytes"),
        }
    }
}
