// Laws over what `check` answers for.
ghost use Rattle.std.specs.Prelude.{◌≡◌, ◌≢◌, ℕ, List, Some};
ghost use Rattle.command_base.specs.Device.{Device};
ghost use Rattle.command_base.specs.declared.status.Status.{Status};
ghost use Rattle.check_command.specs.PlanCheck.{CheckAnswers, CheckEnds};

/// `check`, by the whole text of a source that tells it.
pub fn check_of_text()
    ensures { (text : List ℕ) (old new : Device) (answer : Status) → CheckAnswers old new answer
        → old.plan.left ≡ Some text
        → answer ≢ Status.Memory → answer ≢ Status.PlanFault → CheckEnds answer text old.report.got new.report.got }
{}
