// The laws of the trial: what runs in a row bring back to a client.
ghost use Rattle.trial_plans.specs.CarriedBack.{BringsTheStreamBack, BringsAllPacketsBack};
ghost use Rattle.std.specs.Prelude.{ℕ};
ghost use Rattle.trial_plans.specs.TrialCarried.{AllPacketsComeBack, AreTrialPackets};
ghost use Rattle.trial_plans.specs.TrialDraw.{packets_of_trial};

/// A client's packets that a first run takes to a line, that go on from line to line in one run or more, and that a
/// last run takes to a client, each run of an accepted plan and over the file that the one before made: what arrives
/// there is the front of the first client's stream, a turn later for the first run and three for each other (`stream`).
/// So all of its packets arrive, in order, where their frames lie in the client frames that are whole in that
/// (`packets`).
pub fn come_back()
    ensures stream { BringsTheStreamBack }
    ensures packets { BringsAllPacketsBack }
{}

/// The trial's four runs, each over the file of the one before: all packets of each client, 16 of 1 to 1,500 bytes,
/// come back to it in order, and their text is what is due to it at the end.
pub fn all_packets_come_back()
    ensures { AllPacketsComeBack }
{}

/// Each client of a trial has 16 packets of 1 to 1,500 bytes, whatever the number.
pub fn drawn_as_said()
    ensures { (number c : ℕ) → AreTrialPackets (packets_of_trial number c) }
{}
