// The pieces of a turn: how many each port has, and how many are done.
ghost use Rattle.std.specs.Prelude.{◌≡◌, ◌<◌, ◌≤◌, ℕ, true, nat_lt, None, IfOk, get_or, vec_len};
ghost use Rattle.otn_base.specs.declared.kind.PortName.{PortName};
ghost use Rattle.plan_file.specs.Answer.{fault_in};
ghost use Rattle.device_model.specs.Moments.{pieces_of};
ghost use Rattle.turn_pieces.specs.Ports.{port_at, port_count};
ghost use Rattle.turn_pieces.specs.Pieces.{PiecesView, wanted_of, done_of, is_open, open_at, open_count, IsNth, IsCounted, IsFresh};

use crate::ports::{PORTS, index_of, pieces_of, port_at};
use otn_base::{Memory, PortName};
use plan_file::Plan;
use std::alloc::Global;
use std::marker::Model;

/// For each port of a device, how many pieces a turn of the plan has for it, and how many of this turn's are done.
#[derive(Drop)]
pub struct Pieces {
    wants: Vec<u8>,
    done: Vec<u8>,
}

impl Model for Pieces {
    ghost use Rattle.std.specs.Prelude.{◌≡◌, vec_len};
    ghost use Rattle.turn_pieces.specs.Pieces.{PiecesView};
    ghost use Rattle.turn_pieces.specs.Ports.{port_count};

    ghost Value = { PiecesView };

    ghost view = { λ p. record { wants = p.wants.items; done = p.done.items } };

    ghost invariant = { λ p. (vec_len p.wants ≡ port_count) × (vec_len p.done ≡ port_count) };
}

impl Pieces {
    /// Those of an accepted plan, none of which is done.
    pub fn of_plan(alloc: Global, plan: &Plan) -> Result<Pieces, Memory>
        requires accepted { fault_in plan.now ≡ None }
        ensures wants { IfOk result (λ pieces. (name : PortName) → wanted_of pieces name ≡ pieces_of plan.now name) }
        ensures fresh { IfOk result IsFresh }
    {
        let wants = all_wants(alloc, plan)?;
        let done = no_pieces(alloc)?;
        Ok(Pieces { wants, done })
    }

    /// Whether the port has a piece to do in this turn.
    pub fn is_open(&self, name: PortName) -> bool
        ensures { result ≡ is_open self.now name }
    {
        let i = index_of(name);
        i < PORTS && self.done[i] < self.wants[i]
    }

    /// Whether the plan uses the port.
    pub fn is_used(&self, name: PortName) -> bool
        ensures { result ≡ nat_lt 0 (wanted_of self.now name) }
    {
        let i = index_of(name);
        i < PORTS && 0 < self.wants[i]
    }

    /// How many pieces of the port are done in this turn.
    pub fn done(&self, name: PortName) -> u8
        ensures { result ≡ done_of self.now name }
    {
        let i = index_of(name);
        if i < PORTS { self.done[i] } else { 0 }
    }

    /// One piece more of a port is done.
    pub fn count(&mut self, name: PortName)
        requires { is_open self.old name ≡ true }
        ensures { IsCounted name self.old self.new }
    {
        let i = index_of(name);
        prove!(self.done[i] < self.wants[i]);
        self.done[i] += 1;
    }

    /// A new turn, of which none is done.
    pub fn clear(&mut self)
        ensures wants { self.new.wants ≡ self.old.wants }
        ensures fresh { IsFresh self.new }
    {
        self.done.fill(0);
    }

    /// How many ports have a piece to do.
    pub fn open_count(&self) -> u32
        ensures { result ≡ open_count self.now }
    {
        let mut count = 0;
        for i in 0..PORTS as u8 {
            count += self.open_at(i);
        }
        count
    }

    /// The i-th of them, from 0, in the order of their numbers.
    pub fn nth_open(&self, i: u32) -> PortName
        requires { i < open_count self.now }
        ensures { IsNth self.now i result }
    {
        let mut left = i;
        for j in 0..PORTS as u8 {
            let open = self.open_at(j);
            if open == 1 && left == 0 {
                return port_at(j);
            }
            left -= open;
        }
        unreachable!()
    }

    // One where the port of this number has a piece to do, else none.
    fn open_at(&self, i: u8) -> u32
        requires { i < port_count }
        ensures value { result ≡ open_at self.now i }
        ensures most { result ≤ 1 }
    {
        if self.done[i as usize] < self.wants[i as usize] {
            1
        } else {
            0
        }
    }
}

// How many pieces each port has in a turn of the plan.
fn all_wants(alloc: Global, plan: &Plan) -> Result<Vec<u8>, Memory>
    ensures len { IfOk result (λ wants. vec_len wants ≡ port_count) }
    ensures each { IfOk result (λ wants. (i : ℕ) → i < port_count
        → get_or wants.items i 0 ≡ pieces_of plan.now (port_at i)) }
{
    let mut wants = Vec::new(alloc);
    for i in 0..PORTS as u8 {
        wants.push(pieces_of(plan, port_at(i)))?;
    }
    Ok(wants)
}

// No piece of any port.
#[tactic(auto, using(crate::proofs::Sums::alike_at))]
fn no_pieces(alloc: Global) -> Result<Vec<u8>, Memory>
    ensures len { IfOk result (λ done. vec_len done ≡ port_count) }
    ensures each { IfOk result (λ done. (i : ℕ) → get_or done.items i 0 ≡ 0) }
{
    Ok(vec![in alloc; 0u8; PORTS]?)
}
