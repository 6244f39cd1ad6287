//! Laws of what runs write. Each is the contract of a function that does nothing.

ghost use Rattle.pic_run_laws.specs.CutTexts.{CutBehindWholePieces, CutsLeaveFronts};
ghost use Rattle.pic_run_laws.specs.FramesGiveStates.{FramesGiveStates};
ghost use Rattle.pic_run_laws.specs.ProbesAreColumns.{ProbesAreColumns, ProbesChangeNoDump, ProbesChangeNoCheck};
ghost use Rattle.pic_run_laws.specs.ResumesAreRuns.{ResumesAreRuns, ResumesJoin, ResumesAreFoundRuns};
ghost use Rattle.pic_run_laws.specs.RunsAreRead.{RunsAreRead};
ghost use Rattle.pic_run_laws.specs.RunsAreVerified.{RunsAreVerified, RunsAreFoundGood};

/// What `run` puts on `out` of a deck that its type keeps and that is accepted is read as the
/// dump of this header, of the frames of the states that are due, and of the run's end, whether it comes
/// to its last step or stops in one.
#[tactic(auto, using(crate::proofs::RunsAreVerified::runs_are_read))]
pub fn runs_are_read()
    ensures { RunsAreRead }
{}

/// What `run` puts on `out` of a deck that its type keeps and that is accepted is a dump that
/// is verified, with the number of frames that were put, whether the run comes to its last step or
/// stops in one. So the command `verify` finds good what the command `run` wrote.
pub fn runs_are_verified()
    ensures verified { RunsAreVerified }
    ensures found { RunsAreFoundGood }
{}

/// A state of the run of such a deck is the one that its frame says under the header of the dump: the
/// step, the fields and the particles stand in the frame, and what stays in the header.
#[tactic(auto, using(crate::proofs::RunsAreVerified::frames_give_states))]
pub fn frames_give_states()
    ensures { FramesGiveStates }
{}

/// A run in parts is the run in one. What `run` puts on `out` of a deck that its type keeps and that is
/// accepted, resumed with as many steps or more, is the run of that deck with these steps: the same dump
/// and the same lines, byte for byte, and the same answer, also where either run stops, and for all tiles
/// that the cells allow. So what is resumed twice is what is resumed once; and the command `resume` has over
/// what the command `run` wrote the outcome that `run` has over the deck with all these steps.
pub fn resumes_are_runs()
    ensures run { ResumesAreRuns }
    ensures twice { ResumesJoin }
    ensures found { ResumesAreFoundRuns }
{}

/// What `probe` puts on `out` of a deck that its type keeps and that is accepted are columns of the
/// frames that `run` puts of this deck where each state has a frame, and the line of the run's end. And probes
/// change no dump, nor what `check` says: what either makes of a deck, or why the deck isn't run, is the same
/// with others.
#[tactic(auto, using(crate::proofs::ProbesAreColumns::probes_are_columns, crate::proofs::OtherDecks::change_no_dump, crate::proofs::OtherDecks::change_no_check))]
pub fn probes_are_columns()
    ensures columns { ProbesAreColumns }
    ensures dump { ProbesChangeNoDump }
    ensures check { ProbesChangeNoCheck }
{}

/// Where a put fails among pieces that are put one after another, the pieces before one of them
/// stand whole on both sinks, with their lines, and that one is cut: a front of its text and no
/// line, or its whole text and a front of its line. So where a put of a command's texts fails, each
/// sink has a front of its whole text.
pub fn law_of_the_cut()
    ensures whole { CutBehindWholePieces }
    ensures fronts { CutsLeaveFronts }
{}
