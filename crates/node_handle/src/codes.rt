// The numbers by which calls answer.
ghost use Rattle.std.specs.Prelude.{◌≡◌};
ghost use Rattle.node_handle.specs.Codes.{handed_code, turned_code};

use live_node::{HandedIn, Turned};
use otn_base::limits::LINES;
use otn_base::{Memory, PortName};

/// The call was carried out.
pub const DONE: u32 = 0;

/// The plan is refused.
pub const REFUSED: u32 = 3;

/// There was no memory.
pub const NO_MEMORY: u32 = 7;

/// There was too little room for what was asked for.
pub const NO_ROOM: u32 = 8;

/// There is no node to call; or, of opening one, there is one.
pub const NO_CALL: u32 = 9;

/// An input lacks something for the turn.
pub const WAITS: u32 = 10;

/// All turns of the plan were done.
pub const OVER: u32 = 11;

/// There is no such input or output, or the input has ended.
pub const NO_PORT: u32 = 12;

/// The bytes are no whole frames, or no whole lines.
pub const NOT_WHOLE: u32 = 13;

/// The number of what came of handing in.
pub(crate) fn handed_code(answer: Result<HandedIn, Memory>) -> u32
    ensures { result ≡ handed_code answer }
{
    match answer {
        Ok(HandedIn::Taken) => DONE,
        Ok(HandedIn::NoInput) => NO_PORT,
        Ok(HandedIn::NotWhole) => NOT_WHOLE,
        Err(Memory) => NO_MEMORY,
    }
}

/// The number of what came of a turn.
pub(crate) fn turned_code(answer: Result<Turned, Memory>) -> u32
    ensures { result ≡ turned_code answer }
{
    match answer {
        Ok(Turned::Done) => DONE,
        Ok(Turned::Waits(_)) => WAITS,
        Ok(Turned::Over) => OVER,
        Err(Memory) => NO_MEMORY,
    }
}

/// The number of the input that a turn waits for; else 0.
pub(crate) fn waited_input(answer: Result<Turned, Memory>) -> u64 {
    match answer {
        Ok(Turned::Waits(PortName::LineIn(a))) => a as u64,
        Ok(Turned::Waits(PortName::ClientIn(n))) => LINES as u64 + n as u64,
        _ => 0,
    }
}
