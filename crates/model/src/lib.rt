// What a volume is, by the meaning of its shelf and its layouts alone: definitions that the stages, the volume and the law are held to, and small examples of
// them. The only code is the enums and structs that they speak of.
#![tactic(auto)]

ghost use Rattle.model.specs.Histories.{CallByCall, OpensShow};
ghost use Rattle.model.specs.Plain.{NoCallMet, NoCreateMet, NoOpenMet};
ghost use Rattle.model.specs.Readable.{EnoughReads};
ghost use Rattle.model.specs.Worked.{CountExamples, DiskExamples, HomeExamples, OpenExamples, VerdictExamples};
ghost use Rattle.model.specs.WorkedAnswers.{AnswerExamples, MakingAnswers};
ghost use Rattle.model.specs.WorkedCalls.{KnownExamples, MakingExamples, WalkExamples, WriteExamples};
ghost use Rattle.model.specs.WorkedRuns.{BreachExamples, CourseExamples, RunExamples};
ghost use Rattle.model.specs.WorkedSteps.{BeginExamples, ReadExamples, StepExamples};

pub mod call;
pub mod phase;
pub mod request;
pub mod told;

// Small examples of the definitions, which the checker computes.
pub fn worked_examples()
    ensures counts { CountExamples }
    ensures homes { HomeExamples }
    ensures disks { DiskExamples }
    ensures opens { OpenExamples }
    ensures verdicts { VerdictExamples }
    ensures begins { BeginExamples }
    ensures reads { ReadExamples }
    ensures steps { StepExamples }
    ensures writes { WriteExamples }
    ensures walks { WalkExamples }
    ensures knows { KnownExamples }
    ensures making { MakingExamples }
    ensures answers { AnswerExamples }
    ensures made { MakingAnswers }
{}

// Small runs that keep the law and, for each of its parts, one that breaks it.
pub fn worked_runs()
    ensures courses { CourseExamples }
    ensures runs { RunExamples }
    ensures breaches { BreachExamples }
{}

// The law of a run is that of its calls, one after the other, and by it a granted open shows one of the candidates.
pub fn runs_call_by_call()
    ensures calls { CallByCall }
    ensures opens { OpensShow }
{}

// Members that are enough by the count of the absent ones have every sector of a layout.
pub fn enough_reads()
    ensures { EnoughReads }
{}

// On a plain shelf, which stays on and loses no member, no call is met: one that its verdict does not refuse is done.
pub fn plain_calls_are_not_met()
    ensures calls { NoCallMet }
    ensures creates { NoCreateMet }
    ensures opens { NoOpenMet }
{}
