// A plan.
ghost use Rattle.std.specs.Prelude.{◌≡◌, ◌≢◌, Err, IfOk, None};
ghost use Rattle.plan_file.specs.Answer.{fault_in, plan_of_text};

use crate::connections::Connections;
use crate::error::{NoPlan, PlanError};
use crate::lines::LineList;
use crate::outline::Outline;
use crate::{read, rules};
use std::alloc::Global;

/// What a node carries: for how many turns, on which connections, and by lines of which kind.
#[derive(Debug, Drop)]
pub struct Plan {
    /// The number of turns, each of one multiframe.
    pub turns: u32,
    /// The connections, in the order of the file.
    pub connections: Connections,
    /// The input lines that are OTU3; all others are OTU2 (G.709 clause 19.1).
    pub otu3_in: LineList,
    /// The output lines that are OTU3.
    pub otu3_out: LineList,
    /// The input lines that are scrambled (G.709 clause 11.2); all others are plain.
    pub scrambled_in: LineList,
    /// The output lines that are scrambled.
    pub scrambled_out: LineList,
}

impl Plan {
    /// The plan that the text says (TOML of at most 1,048,576 bytes), or the first rule that it breaks.
    pub fn read(alloc: Global, text: &[u8]) -> Result<Plan, NoPlan>
        ensures plan { result ≢ Err NoPlan.Memory → result ≡ plan_of_text text.now }
        ensures accepted { IfOk result (λ plan. fault_in plan ≡ None) }
    {
        match read::table_of(alloc, text) {
            Ok(Some(top)) => read::plan(alloc, &top),
            Ok(None) => Err(NoPlan::Refused(PlanError::NotToml, 0)),
            Err(_) => Err(NoPlan::Memory),
        }
    }

    /// The first rule of its values that the plan breaks, with its place: 0 for the top, else the number
    /// of the connection, from 1. None exactly where the plan keeps all of them.
    #[tactic(auto, unfolding(crate::specs::Answer::fault_in))]
    pub fn fault(&self) -> Option<(PlanError, u32)>
        ensures { result ≡ fault_in self.now }
    {
        rules::fault(&Outline::of_plan(self))
    }
}
