//! What holds of the answers of all runs. Each function does nothing; what it ensures is a law.

ghost use Rattle.ctf_run.specs.Laws.{HasAnswer, OneTrace};

/// Every list of traces has an answer.
pub fn has_answer()
    ensures { HasAnswer }
{}

/// A list of one trace has the answers of that trace, in which no trace is named.
pub fn one_trace()
    ensures { OneTrace }
{}
