//! The rule of the board's words, what each step tells its caller, and how views are cut and joined.
use crate::knowledge::Knowledge;
use atomic_table::{Join, Play, Split, TableRule};

/// What the words say of what each view knows, at every moment.
pub struct BoardRule;

impl TableRule<(), Knowledge, ()> for BoardRule {
    ghost use Rattle.board.specs.Rule.{IsBoardKept, first_view};

    ghost holds = { λ _. IsBoardKept };

    ghost first = { λ _. first_view };
}

/// The flusher notes its count, with a mark.
pub(crate) struct NoteMark;

impl Play<(), Knowledge> for NoteMark {
    ghost use Rattle.board.specs.Steps.{NotesMark};

    ghost then = { NotesMark };
}

/// The flusher raises the horizon.
pub(crate) struct RaiseHorizon;

impl Play<(), Knowledge> for RaiseHorizon {
    ghost use Rattle.board.specs.Steps.{RaisesHorizon};

    ghost then = { RaisesHorizon };
}

/// The builder raises the progress.
pub(crate) struct RaiseProgress;

impl Play<(), Knowledge> for RaiseProgress {
    ghost use Rattle.board.specs.Steps.{RaisesProgress};

    ghost then = { RaisesProgress };
}

/// The flusher sets the failed flag.
pub(crate) struct SetFailed;

impl Play<(), Knowledge> for SetFailed {
    ghost use Rattle.board.specs.Steps.{SetsFailed};

    ghost then = { SetsFailed };
}

/// A thread sets the stop flag.
pub(crate) struct SetStop;

impl Play<(), Knowledge> for SetStop {
    ghost use Rattle.board.specs.Steps.{SetsStop};

    ghost then = { SetsStop };
}

/// A thread reads the horizon.
pub(crate) struct ReadHorizon;

impl Play<(), Knowledge> for ReadHorizon {
    ghost use Rattle.board.specs.Steps.{ReadsHorizon};

    ghost then = { ReadsHorizon };
}

/// A thread reads the mark of the newest note.
pub(crate) struct ReadMark;

impl Play<(), Knowledge> for ReadMark {
    ghost use Rattle.board.specs.Steps.{ReadsMark};

    ghost then = { ReadsMark };
}

/// A thread reads the progress.
pub(crate) struct ReadProgress;

impl Play<(), Knowledge> for ReadProgress {
    ghost use Rattle.board.specs.Steps.{ReadsProgress};

    ghost then = { ReadsProgress };
}

/// A thread reads the failed flag.
pub(crate) struct ReadFailed;

impl Play<(), Knowledge> for ReadFailed {
    ghost use Rattle.board.specs.Steps.{ReadsFailed};

    ghost then = { ReadsFailed };
}

/// A thread reads the stop flag.
pub(crate) struct ReadStop;

impl Play<(), Knowledge> for ReadStop {
    ghost use Rattle.board.specs.Steps.{ReadsStop};

    ghost then = { ReadsStop };
}

/// The flusher or the builder reads the stop flag.
pub(crate) struct HearStop;

impl Play<(), Knowledge> for HearStop {
    ghost use Rattle.board.specs.Steps.{HearsStop};

    ghost then = { HearsStop };
}

/// The flusher or the builder compares what it knows to be seen with what it has published.
pub(crate) struct Compare;

impl Play<(), Knowledge> for Compare {
    ghost use Rattle.board.specs.Steps.{Compares};

    ghost then = { Compares };
}

/// The builder's view is cut off the first one.
pub(crate) struct CutBuilder;

impl Split<Knowledge> for CutBuilder {
    ghost use Rattle.board.specs.Steps.{without_builder, builder_of};

    ghost left = { without_builder };

    ghost right = { builder_of };
}

/// The first view of a thread is cut off, and leaves the flusher's.
pub(crate) struct CutReader;

impl Split<Knowledge> for CutReader {
    ghost use Rattle.board.specs.Steps.{without_reader, reader_of};

    ghost left = { without_reader };

    ghost right = { reader_of };
}

/// A view becomes two.
pub(crate) struct CutView;

impl Split<Knowledge> for CutView {
    ghost use Rattle.board.specs.Steps.{staying, leaving};

    ghost left = { staying };

    ghost right = { leaving };
}

/// What a view has seen, to be told to another.
pub(crate) struct TellSeen;

impl Split<Knowledge> for TellSeen {
    ghost use Rattle.board.specs.Steps.{seen_by};

    ghost left = { λ v. v };

    ghost right = { seen_by };
}

/// What the flusher has published, to be told to another.
pub(crate) struct TellFlushed;

impl Split<Knowledge> for TellFlushed {
    ghost use Rattle.board.specs.Steps.{flushed_by};

    ghost left = { λ v. v };

    ghost right = { flushed_by };
}

/// What the builder has published, to be told to another.
pub(crate) struct TellBuilt;

impl Split<Knowledge> for TellBuilt {
    ghost use Rattle.board.specs.Steps.{built_by};

    ghost left = { λ v. v };

    ghost right = { built_by };
}

/// What is told is taken in, in place of what was seen before.
pub(crate) struct Learn;

impl Join<Knowledge> for Learn {
    ghost use Rattle.board.specs.Rule.{spent_view};
    ghost use Rattle.board.specs.Steps.{informed};

    ghost both = { informed };

    ghost spent = { spent_view };
}
