// The law of accepted plans.
ghost use Rattle.device_model.specs.SoundPlans.{AcceptedPlansAreSound};

/// A plan that breaks no rule, so that its `fault` is None, is sound. The turns of each connection are turns
/// of the plan. Its line ends are at lines of the device, at a tributary port of the line, with slots of the
/// line's kind, as many at one end as at the other; its client ends are at clients of the device. Its pace is
/// within what its slots hold. Only a connection with a client retires. No two connections come from one
/// client, and no two go to one; no two that go to one line have a slot or a tributary port of it in the same
/// turn. Whatever runs a plan needs no more of its rules.
pub fn accepted_plans()
    ensures { AcceptedPlansAreSound }
{}
