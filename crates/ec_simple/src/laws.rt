//! The laws on simple forms.
ghost use Rattle.ec_simple.specs.Counted.{CountedHeadersCount};
ghost use Rattle.ec_simple.specs.Counts.{CountsAreKept};
ghost use Rattle.ec_simple.specs.Laws.{SimpleFormsMeanTheSame};

/// A typed program and its simple form have one and the same end (ending, output, result, memory, placements and forks), or
/// neither ends; what the one prints begins what the other prints. Ticks are counted otherwise: the simple form spends them on
/// activations and turns of loops alone.
pub fn simple_forms_mean_the_same()
    ensures { SimpleFormsMeanTheSame }
{}

/// A header that is marked as counting sets its variable, tests whether it is below something, and adds 1 to it, and else
/// leaves it alone; and the body gets it.
pub fn counted_headers_count()
    ensures { CountedHeadersCount }
{}

/// The simple form of each typed program that a source text has keeps to limits: functions have names of code, no print
/// has too long a string or too many values, no parallel sequence has too many branches, and shapes are few and small.
pub fn counts_are_kept()
    ensures { CountsAreKept }
{}
