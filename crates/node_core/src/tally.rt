// The numbers of all ports of a node that is past its last turn.
ghost use Rattle.std.specs.Prelude.{◌≡◌, ◌<◌, ℕ, None, get_or, length};
ghost use Rattle.otn_base.specs.declared.limits.TheConstants.{CLIENTS as CLIENT_PORTS, LINES as LINE_PORTS, MOST_CONNECTIONS as CONNECTIONS};
ghost use Rattle.port_base.specs.Views.{BaysView};
ghost use Rattle.plan_file.specs.declared.plan.Plan.{Plan};
ghost use Rattle.device_model.specs.RunLeft.{Takings, RunLeft};
ghost use Rattle.device_model.specs.RunNumbers.{client_in_numbers, client_out_numbers, no_client_in, no_client_out, no_counts, numbers_of_run};
ghost use Rattle.node_core.specs.Settling.{IsLineCounts, IsFrameCount, IsClientInCount, IsClientOutCount, IsLastState, WasSettled, ToldBy};

use crate::Node;
use device_model::{ClientInCounts, ClientOutCounts, FromState, Outcome, RunNumbers};
use line_side::LineCounts;
use otn_base::limits::{CLIENTS, LINES, MOST_CONNECTIONS};

impl Node {
    /// The numbers of all ports and connections after the last turn, of a run that ended so.
    pub fn numbers(&self, outcome: Outcome) -> RunNumbers
        ensures told { (plan : Plan) → ToldBy plan self.now (numbers_of_run result) }
        ensures outcome { (numbers_of_run result).outcome ≡ outcome }

        // a node past its last turn that was settled with this outcome leaves what a run of its plan leaves, with these
        // numbers
        ensures left { (plan : Plan) (first last : BaysView) → WasSettled plan first last self.now outcome
            → (takings : Takings) × RunLeft plan first last takings (numbers_of_run result) }
    {
        prove_eq!(self.lines_in.len(), LINES);
        prove_eq!(self.lines_out.len(), LINES);
        let lines_in = self.lines_in_told();
        let lines_out = self.lines_out_told();
        let clients_in = self.clients_in_told();
        let clients_out = self.clients_out_told();
        let from = self.states_told();
        RunNumbers {
            lines_in,
            lines_out,
            clients_in,
            clients_out,
            from,
            outcome,
        }
    }

    fn lines_in_told(&self) -> [LineCounts; LINES]
        ensures { (a : ℕ) → a < LINE_PORTS → IsLineCounts self.now a (get_or result a no_counts) }
    {
        let none = LineCounts {
            frames: 0,
            lead_in: 0,
            lost: 0,
            rest: 0,
            fas: 0,
            sm: 0,
            pm: 0,
        };
        let mut told = [none; LINES];
        for a in 0..LINES as u8 {
            told[a as usize] = self.line_counts(a);
        }
        told
    }

    fn lines_out_told(&self) -> [u64; LINES]
        ensures { (b : ℕ) → b < LINE_PORTS → IsFrameCount self.now b (get_or result b 0) }
    {
        let mut told = [0; LINES];
        for b in 0..LINES as u8 {
            told[b as usize] = self.line_out_frames(b);
        }
        told
    }

    fn clients_in_told(&self) -> [ClientInCounts; CLIENTS]
        ensures { (n : ℕ) → n < CLIENT_PORTS
            → IsClientInCount self.now n (client_in_numbers (get_or result n no_client_in)) }
    {
        let none = ClientInCounts {
            packets: 0,
            spent: false,
            bad: None,
        };
        let mut told = [none; CLIENTS];
        for n in 0..CLIENTS as u8 {
            told[n as usize] = self.client_in_counts(n);
        }
        told
    }

    fn client_in_counts(&self, n: u8) -> ClientInCounts
        ensures { IsClientInCount self.now n (client_in_numbers result) }
    {
        let (packets, spent, bad) = self.client_in(n);
        ClientInCounts {
            packets,
            spent,
            bad,
        }
    }

    fn clients_out_told(&self) -> [ClientOutCounts; CLIENTS]
        ensures { (n : ℕ) → n < CLIENT_PORTS
            → IsClientOutCount self.now n (client_out_numbers (get_or result n no_client_out)) }
    {
        let none = ClientOutCounts {
            frames: 0,
            packets: 0,
        };
        let mut told = [none; CLIENTS];
        for n in 0..CLIENTS as u8 {
            told[n as usize] = self.client_out_counts(n);
        }
        told
    }

    fn client_out_counts(&self, n: u8) -> ClientOutCounts
        ensures { IsClientOutCount self.now n (client_out_numbers result) }
    {
        let (frames, packets) = self.client_out(n);
        ClientOutCounts { frames, packets }
    }

    fn states_told(&self) -> [Option<FromState>; MOST_CONNECTIONS]
        ensures { (i : ℕ) → i < length self.now.links → i < CONNECTIONS
            → IsLastState self.now i (get_or result i None) }
    {
        let mut told = [None; MOST_CONNECTIONS];
        let count = self.links.len().min(MOST_CONNECTIONS);
        for i in 0..count as u32 {
            told[i as usize] = self.connection_state(i);
        }
        told
    }
}
