//! What the summary is beside the rules.
ghost use Rattle.disk_machine.specs.Summary.{SummariesAgree};

/// Where the parts say what a host with these phases says, the summary is the one of the rules.
pub fn summaries_agree()
    ensures { SummariesAgree }
{}
