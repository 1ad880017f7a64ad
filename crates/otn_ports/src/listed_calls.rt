// The calls of a port, counted, some of which are to fail.
ghost use Rattle.std.specs.Prelude.{◌≡◌};
ghost use Rattle.port_base.specs.Bytes.{raised};
ghost use Rattle.otn_ports.specs.Listed.{is_listed, calls_made, calls_failing};

/// The calls of a port so far, and the numbers, from 1, of those that are to fail.
#[derive(Drop)]
pub(crate) struct ListedCalls {
    failing: Vec<u32>,
    made: u64,
}

impl ListedCalls {
    /// None was made yet, and those of these numbers are to fail.
    pub(crate) fn new(failing: Vec<u32>) -> ListedCalls
        ensures made { calls_made result ≡ 0 }
        ensures failing { calls_failing result ≡ failing.items }
    {
        ListedCalls { failing, made: 0 }
    }

    /// Counts a call, and says whether it is to fail. The count stops at 2^64-1.
    pub(crate) fn next_fails(&mut self) -> bool
        ensures made { calls_made self.new ≡ raised (calls_made self.old) 1 }
        ensures failing { calls_failing self.new ≡ calls_failing self.old }
        ensures listed { result ≡ is_listed (calls_failing self.old) (calls_made self.new) }
    {
        self.made = self.made.saturating_add(1);
        is_listed(&self.failing, self.made)
    }
}

// Whether the number stands in the list.
fn is_listed(list: &[u32], number: u64) -> bool
    ensures { result ≡ is_listed list.now number }
{
    for &listed in list {
        if listed as u64 == number {
            return true;
        }
    }
    false
}
