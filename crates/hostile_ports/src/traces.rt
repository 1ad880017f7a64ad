// What is seen of ports from outside their places.
use crate::ports::{Count, Got};
use std::alloc::{AllocError, Global};
use std::cell::{Cell, RefCell};
use std::rc::Rc;

/// What each of the lines, or of the clients, gave and got so far.
#[derive(Drop)]
pub struct Traces {
    given: Vec<Count>,
    sent: Vec<Count>,
    pub got: Vec<Got>,
}

impl Traces {
    /// Of no port yet.
    pub fn new(alloc: Global) -> Traces {
        Traces {
            given: Vec::new(alloc),
            sent: Vec::new(alloc),
            got: Vec::new(alloc),
        }
    }

    /// Adds the next input, which counts what it gives there.
    pub fn next_given(&mut self, alloc: Global) -> Result<Count, AllocError> {
        let given = Rc::new(alloc, Cell::new(0))?;
        self.given.push(given.clone()?)?;
        Ok(given)
    }

    /// Adds a count of what the next output takes.
    pub fn next_sent(&mut self, alloc: Global) -> Result<Count, AllocError> {
        let sent = Rc::new(alloc, Cell::new(0))?;
        self.sent.push(sent.clone()?)?;
        Ok(sent)
    }

    /// Adds the next output's file, which keeps what it gets there.
    pub fn next_got(&mut self, alloc: Global) -> Result<Got, AllocError> {
        let got = no_bytes(alloc)?;
        self.got.push(got.clone()?)?;
        Ok(got)
    }

    /// How many bytes input number `n` gave.
    pub fn taken(&self, n: usize) -> u64 {
        match self.given.get(n) {
            Some(given) => given.get(),
            None => 0,
        }
    }

    /// How many bytes output number `n` took.
    pub fn sent(&self, n: usize) -> u64 {
        match self.sent.get(n) {
            Some(sent) => sent.get(),
            None => 0,
        }
    }
}

/// What an output got that got nothing yet.
pub fn no_bytes(alloc: Global) -> Result<Got, AllocError> {
    Ok(Rc::new(alloc, RefCell::new(Vec::new(alloc)))?)
}
