// What goes over a fibre that is cut, between its ends.
ghost use Rattle.std.specs.Prelude.{◌≡◌, ◌≤◌, ◌++◌, [], IfOk, OnOk, length, min, replicate, take, vec_len};

use otn_base::Memory;
use port_base::Failed;
use std::alloc::Global;

/// Bytes that came from the near end of a fibre, and that the far end did not take yet.
#[derive(Drop)]
pub(crate) struct Passing {
    bytes: Vec<u8>,
    at: usize,
    // Whether the far end has answered its end: it takes no more.
    over: bool,
    ghost within: { at ≤ vec_len bytes },
}

impl Passing {
    ghost use Rattle.network_carry.specs.Outside.{passed, passing_left};

    /// Nothing yet, with room for so many bytes.
    pub(crate) fn with_room(alloc: Global, room: usize) -> Result<Passing, Memory>
        ensures { IfOk result (λ passing. passing_left passing ≡ []) }
    {
        let bytes = Vec::with_capacity(alloc, room)?;
        Ok(Passing {
            bytes,
            at: 0,
            over: false,
        })
    }

    /// These bytes come, dark or not. None come to a far end that takes no more.
    pub(crate) fn add(&mut self, bytes: &[u8], dark: bool) -> Result<(), Failed> {
        if self.over {
            return Ok(());
        }
        self.let_go();
        self.append(bytes, dark)
    }

    // Lets go of the bytes that were taken, where these are all.
    fn let_go(&mut self)
        ensures { passing_left self.new ≡ passing_left self.old }
    {
        if self.at == self.bytes.len() {
            self.bytes.clear();
            self.at = 0;
        }
    }

    fn append(&mut self, bytes: &[u8], dark: bool) -> Result<(), Failed>
        ensures { OnOk result (self.new.bytes.items ≡ self.old.bytes.items ++ passed dark bytes.now) }
    {
        if dark {
            append_zeros(&mut self.bytes, bytes.len())
        } else {
            self.bytes.extend_from_slice(bytes).map_err(|_| Failed)
        }
    }

    /// Gives as many as there are and as the slice has room for.
    pub(crate) fn take(&mut self, into: &mut [u8]) -> usize
        ensures bound { result ≤ length into.old }
        ensures given { take result into.new ≡ take result (passing_left self.old) }
    {
        let rest = &self.bytes[self.at..];
        let n = rest.len().min(into.len());
        into[..n].copy_from_slice(&rest[..n]);
        self.at += n;
        self.over |= n == 0 && !into.is_empty();
        n
    }
}

fn append_zeros(bytes: &mut Vec<u8>, count: usize) -> Result<(), Failed>
    ensures zeros { OnOk result (bytes.new.items ≡ bytes.old.items ++ replicate count 0) }
    ensures more { vec_len bytes.old ≤ vec_len bytes.new }
{
    let Some(all) = bytes.len().checked_add(count) else {
        return Err(Failed);
    };
    bytes.resize(all, 0).map_err(|_| Failed)
}
