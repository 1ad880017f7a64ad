// All places of a device.
ghost use Rattle.std.specs.Prelude.{◌≡◌, ◌<◌, ℕ, Some, IfOk, slice_get, vec_len, replicate};

use crate::{InPlaceOf, InPort, OutPlaceOf, OutPort};
use otn_base::Memory;
use otn_base::limits::{CLIENTS, LINES};
use std::alloc::Global;

/// The places of a device: 4 line inputs, 4 line outputs, 16 client inputs and 16 client outputs.
#[derive(Drop)]
pub struct Rack<P, K> {
    line_in: Vec<InPlaceOf<P>>,
    line_out: Vec<OutPlaceOf<K>>,
    client_in: Vec<InPlaceOf<P>>,
    client_out: Vec<OutPlaceOf<K>>,
    ghost all: { (vec_len line_in ≡ 4) × (vec_len line_out ≡ 4) × (vec_len client_in ≡ 16) × (vec_len client_out ≡ 16) },
}

/// The places of a device, for ports behind a box or in memory.
pub type Bays = Rack<InPort, OutPort>;

impl<P: Drop, K: Drop> Rack<P, K> {
    ghost use Rattle.std.specs.Borrow.{Lends, sem};
    ghost use Rattle.port_base.specs.Racks.{line_ins, line_outs, client_ins, client_outs, IsVacant};
    ghost use Rattle.port_base.specs.Racks.{with_line_in, with_line_out, with_client_in, with_client_out};
    ghost use Rattle.port_base.specs.contracts.bays.Rack.{the_row};
    ghost use Rattle.port_base.specs.contracts.in_place.InPlaceOf.{the_row as in-row};
    ghost use Rattle.port_base.specs.contracts.out_place.OutPlaceOf.{the_row as out-row};

    /// All places empty.
    pub fn new(alloc: Global) -> Result<Self, Memory>
        ensures { IfOk result IsVacant }
    {
        Ok(Rack {
            line_in: empty_inputs(alloc, LINES)?,
            line_out: empty_outputs(alloc, LINES)?,
            client_in: empty_inputs(alloc, CLIENTS)?,
            client_out: empty_outputs(alloc, CLIENTS)?,
        })
    }

    /// Line input n, from 0.
    pub fn line_in(&self, n: u8) -> &InPlaceOf<P>
        requires { n < 4 }
        ensures { slice_get (line_ins self.now) n ≡ Some result.now }
    {
        &self.line_in[n as usize]
    }

    /// Puts a place at line input n, from 0. The place that stood there is dropped, and all others stay.
    pub fn set_line_in(&mut self, n: u8, place: InPlaceOf<P>)
        requires { n < 4 }
        ensures { self.new ≡ with_line_in self.old n place }
    {
        self.line_in[n as usize] = place;
    }

    /// Lends line input n, from 0. All other places stay.
    pub fn line_in_mut(&mut self, n: u8) -> &mut InPlaceOf<P>
        requires { n < 4 }
        ensures* writes_back { sem 𝓛 (Lends (the_row P.row K.row) (in-row P.row) self.entry result
            (with_line_in self.entry.now n)) }
        ensures value { slice_get (line_ins self.old) n ≡ Some result.now }
    {
        &mut self.line_in[n as usize]
    }

    /// Line output n, from 0.
    pub fn line_out(&self, n: u8) -> &OutPlaceOf<K>
        requires { n < 4 }
        ensures { slice_get (line_outs self.now) n ≡ Some result.now }
    {
        &self.line_out[n as usize]
    }

    /// Puts a place at line output n, from 0. The place that stood there is dropped, and all others stay.
    pub fn set_line_out(&mut self, n: u8, place: OutPlaceOf<K>)
        requires { n < 4 }
        ensures { self.new ≡ with_line_out self.old n place }
    {
        self.line_out[n as usize] = place;
    }

    /// Lends line output n, from 0. All other places stay.
    pub fn line_out_mut(&mut self, n: u8) -> &mut OutPlaceOf<K>
        requires { n < 4 }
        ensures* writes_back { sem 𝓛 (Lends (the_row P.row K.row) (out-row K.row) self.entry result
            (with_line_out self.entry.now n)) }
        ensures value { slice_get (line_outs self.old) n ≡ Some result.now }
    {
        &mut self.line_out[n as usize]
    }

    /// Client input n, from 0.
    pub fn client_in(&self, n: u8) -> &InPlaceOf<P>
        requires { n < 16 }
        ensures { slice_get (client_ins self.now) n ≡ Some result.now }
    {
        &self.client_in[n as usize]
    }

    /// Puts a place at client input n, from 0. The place that stood there is dropped, and all others stay.
    pub fn set_client_in(&mut self, n: u8, place: InPlaceOf<P>)
        requires { n < 16 }
        ensures { self.new ≡ with_client_in self.old n place }
    {
        self.client_in[n as usize] = place;
    }

    /// Lends client input n, from 0. All other places stay.
    pub fn client_in_mut(&mut self, n: u8) -> &mut InPlaceOf<P>
        requires { n < 16 }
        ensures* writes_back { sem 𝓛 (Lends (the_row P.row K.row) (in-row P.row) self.entry result
            (with_client_in self.entry.now n)) }
        ensures value { slice_get (client_ins self.old) n ≡ Some result.now }
    {
        &mut self.client_in[n as usize]
    }

    /// Client output n, from 0.
    pub fn client_out(&self, n: u8) -> &OutPlaceOf<K>
        requires { n < 16 }
        ensures { slice_get (client_outs self.now) n ≡ Some result.now }
    {
        &self.client_out[n as usize]
    }

    /// Puts a place at client output n, from 0. The place that stood there is dropped, and all others stay.
    pub fn set_client_out(&mut self, n: u8, place: OutPlaceOf<K>)
        requires { n < 16 }
        ensures { self.new ≡ with_client_out self.old n place }
    {
        self.client_out[n as usize] = place;
    }

    /// Lends client output n, from 0. All other places stay.
    pub fn client_out_mut(&mut self, n: u8) -> &mut OutPlaceOf<K>
        requires { n < 16 }
        ensures* writes_back { sem 𝓛 (Lends (the_row P.row K.row) (out-row K.row) self.entry result
            (with_client_out self.entry.now n)) }
        ensures value { slice_get (client_outs self.old) n ≡ Some result.now }
    {
        &mut self.client_out[n as usize]
    }
}

// So many empty input places.
fn empty_inputs<P: Drop>(alloc: Global, n: usize) -> Result<Vec<InPlaceOf<P>>, Memory>
    ensures { IfOk result (λ places. places.items ≡ replicate n InPlaceOf.Empty) }
{
    let mut places = Vec::new(alloc);
    for _ in 0..n {
        places.push(InPlaceOf::Empty)?;
    }
    Ok(places)
}

// So many empty output places.
fn empty_outputs<K: Drop>(alloc: Global, n: usize) -> Result<Vec<OutPlaceOf<K>>, Memory>
    ensures { IfOk result (λ places. places.items ≡ replicate n OutPlaceOf.Empty) }
{
    let mut places = Vec::new(alloc);
    for _ in 0..n {
        places.push(OutPlaceOf::Empty)?;
    }
    Ok(places)
}
