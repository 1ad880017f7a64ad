// The laws of the views of a plan, each the contract of a function.
ghost use Rattle.plan_views.specs.Laws.{TellsTheRun};

/// Of a connection that takes from a line, the view by its plan tells in each turn as many bytes as `run` takes of the line for
/// it, and the state in which `run` has its sink.
pub fn what_a_plan_shows()
    ensures { TellsTheRun }
{}
