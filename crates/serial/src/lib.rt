// The serial order of transactions: theory only. The functions ask for the theorems.
#![tactic(auto)]

ghost use Rattle.serial.specs.Language.{Language};
ghost use Rattle.serial.specs.Alone.{SurveysPinned};
ghost use Rattle.serial.specs.Legal.{Serializable};
ghost use Rattle.serial.specs.Machine.{MachineRuns};
ghost use Rattle.serial.specs.Samples.{NotSerial, overlapping, lost_update, half_seen};

// Rows R and patterns P: how rows are told apart, and which rows fit a pattern. An implementor stands for one such language.
pub trait Fitting<R, P> {
    ghost language: { Language R P };
}

// Every run of legal calls is serial.
pub fn serial_stands<R, P, F: Fitting<R, P>>() -> u8
    ensures { Serializable F.Fitting.language }
{
    0
}

// A survey has one answer.
pub fn surveys_stand<R, P, F: Fitting<R, P>>() -> u8
    ensures { SurveysPinned F.Fitting.language }
{
    0
}

// Whatever a manager with these rolls does is a run of legal calls.
pub fn machine_stands<R, P, F: Fitting<R, P>>() -> u8
    ensures { MachineRuns F.Fitting.language }
{
    0
}

// The serial order rules these histories out.
pub fn samples_refuted() -> u8
    ensures apart { NotSerial overlapping }
    ensures updates { NotSerial lost_update }
    ensures surveys { NotSerial half_seen }
{
    0
}
