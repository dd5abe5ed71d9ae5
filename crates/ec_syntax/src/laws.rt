//! The reader of programs and the grammar say the same.
//! `specs/Laws.antt` has the statements.
ghost use Rattle.ec_syntax.specs.Laws.{
  OneRefusal,
  OneTree,
  ProgramIsRead,
  ProgramOrRefused,
  ReadIsProgram,
  ReadOrStopped,
  RefusedIsNoProgram,
  StoppedIsRefused,
};
ghost use Rattle.ec_syntax.specs.Places.{BothSidesCount, MarksDiffer, MarksRise, PartsStand};

/// Tokens have at most one tree within the limits, and the reader of the definitions finds it. Where it stops, the tokens
/// before begin a program that keeps the limits up to there, and no program goes on with the token there, or each that does
/// passes a limit at it.
pub fn reading_decides()
    ensures one { OneTree }
    ensures sound { ReadIsProgram }
    ensures complete { ProgramIsRead }
    ensures refused { StoppedIsRefused }
    ensures text { ReadOrStopped }
{}

/// The tokens of a text are a program within the limits, or else one of them, and no other, is refused.
pub fn texts_are_decided()
    ensures either { ProgramOrRefused }
    ensures excluded { RefusedIsNoProgram }
    ensures one { OneRefusal }
{}

/// The parts of a program that was read of a text's tokens stand one behind the other, each within its whole, but for the
/// right sides of `i++` and `i--`. Its calls, `malloc`s, declared names, `forall`s and `printf`s begin one behind the other,
/// so that no two have one place.
pub fn parts_stand_in_order()
    ensures sides { BothSidesCount }
    ensures order { PartsStand }
    ensures marks { MarksRise }
    ensures apart { MarksDiffer }
{}
