//! What holds of schedule texts, of texts of jobs, of what is written of a trace and of comparisons with the weak scheduler. Each
//! law is the contract of a function that does nothing: a caller in a proof gets the law by its clause.
ghost use Rattle.commands.specs.JobsLaws.{JobsTextIsUnique};
ghost use Rattle.commands.specs.ScheduleLaws.{ValidIsNotInvalid, InvalidIsUnique, ValidIsBest, ValidHasNoImprovingChain, LegalIsValid};
ghost use Rattle.commands.specs.TraceLaws.{LostTextIsUnique, ImportedJobsTextIsUnique};
ghost use Rattle.commands.specs.WeakLaws.{WeakTextIsUnique};

/// A valid schedule is not wrong.
pub fn valid_is_not_invalid()
    ensures { ValidIsNotInvalid }
{}

/// A schedule is wrong in at most one line, with one defect: the first.
pub fn invalid_is_unique()
    ensures { InvalidIsUnique }
{}

/// After every entry of a valid schedule the linked tasks are the best placeable set of the ready ones.
pub fn valid_is_best()
    ensures { ValidIsBest }
{}

/// After every entry of a valid schedule no chain of shifts would bring a waiting task in without displacing a more urgent one.
pub fn valid_has_no_improving_chain()
    ensures { ValidHasNoImprovingChain }
{}

/// A legal history of entries that can be written, with the contexts that it gives, is a valid schedule.
pub fn legal_is_valid()
    ensures { LegalIsValid }
{}

/// Two runs on the same bytes write the same text.
pub fn weak_text_is_unique()
    ensures { WeakTextIsUnique }
{}

/// Bytes that are a text of a trace have one text of what its tasks lost.
pub fn lost_text_is_unique()
    ensures { LostTextIsUnique }
{}

/// And one text of its jobs.
pub fn imported_jobs_text_is_unique()
    ensures { ImportedJobsTextIsUnique }
{}

/// Bytes that are a text of periodic tasks have one text of their jobs, whatever history runs these.
pub fn jobs_text_is_unique()
    ensures { JobsTextIsUnique }
{}
