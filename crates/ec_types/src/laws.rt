//! The laws of refusals and of meanings.
//! `specs/Once.antt` and `specs/Meaning/Laws.antt` have the statements.
ghost use Rattle.ec_types.specs.Meaning.Laws.{EndsStay, OneEnd, OutputGrows, MostGrows, WithinTicks, GoesOnWithoutTicks};
ghost use Rattle.ec_types.specs.Once.{OneRefusal, TypedIsNotRefused};

/// Of all that a program is refused for one refusal is the first, and there is none where the program is typed.
pub fn programs_are_refused_once()
    ensures one { OneRefusal }
    ensures excluded { TypedIsNotRefused }
{}

/// A meaning that has ended is the same with more ticks, so there is one at most; what goes on has spent all its ticks, and with
/// more of them its output goes on from there.
pub fn meanings_are_settled()
    ensures stay { EndsStay }
    ensures one { OneEnd }
    ensures output { OutputGrows }
    ensures most { MostGrows }
    ensures within { WithinTicks }
    ensures going { GoesOnWithoutTicks }
{}
