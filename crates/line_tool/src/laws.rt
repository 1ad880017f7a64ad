// Laws over what the commands answer for.
ghost use Rattle.std.specs.Prelude.{ℕ};
ghost use Rattle.tributary_model.specs.Places.{Tributary};
ghost use Rattle.line_tool.specs.Answers.{PullRan, SlotRan};
ghost use Rattle.line_tool.specs.FaultlessLaws.{CheckIsComplete, LineIsComplete, TrialIsComplete};
ghost use Rattle.line_tool.specs.ProtectLaws.{ProtectIsComplete, ProtectsWhatWasGiven};
ghost use Rattle.line_tool.specs.BundleLaws.{BundleIsComplete, BundlesWhatWasGiven};
ghost use Rattle.line_tool.specs.UnbundleLaws.{UnbundleIsComplete, UnbundlesWhatWasGiven};
ghost use Rattle.run_command.specs.RunLaws.{RunEndsByInputs, RunIsComplete};

/// `protect`, by all bytes that line inputs 0 and 1 had to give, where they tell them: what was due to line output 0,
/// what the report got, how the command ended, and how many bytes of each line were taken.
pub fn protect_of_given()
    ensures { ProtectsWhatWasGiven }
{}

/// `bundle`, by all bytes that its clients had to give, where they tell them: what was due to line output 0, what the
/// report got, how the command ended, and what was read of each client.
pub fn bundle_of_given()
    ensures { BundlesWhatWasGiven }
{}

/// `unbundle`, by all bytes that line input 0 had to give, where it tells them: what was due to each client output,
/// what the report got, how the command ended, and how many bytes were taken.
pub fn unbundle_of_given()
    ensures { UnbundlesWhatWasGiven }
{}

/// Where no count of faults rose or stands at its end, and the line was not dead, a command is Done or Unfinished,
/// `check` Done or Plan; or there was no memory. So is `run`, of the places that its plan uses, or Plan (`run`):
/// Unfinished exactly where a line has more than its turns want, or a client is not spent (`ends`); and `protect`, of
/// its three places, `bundle`, of its clients and its line output, and `unbundle`, of its line and all client outputs.
/// `trial` is Done, or there was no memory.
pub fn without_faults()
    ensures slot { (slot : ℕ) → LineIsComplete (SlotRan slot) }
    ensures pull { (own : Tributary) → LineIsComplete (PullRan own) }
    ensures check { CheckIsComplete }
    ensures run { RunIsComplete }
    ensures ends { RunEndsByInputs }
    ensures protect { ProtectIsComplete }
    ensures bundle { BundleIsComplete }
    ensures unbundle { UnbundleIsComplete }
    ensures trial { TrialIsComplete }
{}
