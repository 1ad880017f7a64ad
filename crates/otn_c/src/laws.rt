// The law of calls of `run`, by their bytes.
ghost use Rattle.otn_c.specs.Isolation.{CallsAreIsolated, CallsAreRuns, CallsCarryPlans};

use line_tool::headline;

/// The headline, of any two calls of `otn_run`, by the very bytes that they were handed and those that they handed out.
/// No connection touches another (`isolated`): where two calls with the words of `run` share an entry, and what its
/// input was handed agrees (a line's whole frames, MFAS bytes and own places; a client's packets and how they end),
/// what is handed out of it agrees: a client's text, and on a line its own places, where both lines are scrambled or
/// neither is. That is so wholly where both calls answered Done or Unfinished; where one answered Cut or ReportFault,
/// as far as both have gone. Each call that answered one of these four carried the plan of its text (`plans`), and is a
/// run whose ports gave and got these very bytes (`runs`), so that every clause of `headline` speaks of it.
pub fn headline_of_bytes()
    ensures plans { CallsCarryPlans }
    ensures runs { CallsAreRuns }
    ensures isolated { CallsAreIsolated }
{
    headline();
}
