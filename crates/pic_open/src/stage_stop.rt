//! What ends a stage of a call, and how the call ends then.

ghost use Rattle.std.specs.Prelude.{◌≡◌};
ghost use Rattle.pic_io.specs.Told.{Told};
ghost use Rattle.pic_io.specs.Sinks.{sinks};
ghost use Rattle.pic_open.specs.declared.stage_stop.StageStop.TheVariants as stage_stop;
ghost use Rattle.pic_open.specs.Stops.{stop_of_reading, stop_of_deck, stop_of_displace};
ghost use Rattle.pic_open.specs.Stops.{EndsStopped};

use crate::source_reader::SourceStop;
use pic_deck::DeckFault;
use pic_displace::DisplaceFault;
use pic_io::Sink;
use pic_report::{Cut, Early, Ended, ended_early, put_early};

/// What ends a stage: an early end of the call, or want of memory.
#[derive(Debug, Drop)]
pub enum StageStop {
    Answer(Early),
    NoMemory,
}

impl From<SourceStop> for StageStop {
    ghost from_gives = { λ stop result. result ≡ stop_of_reading stop };

    fn from(stop: SourceStop) -> StageStop {
        match stop {
            SourceStop::Fault => StageStop::Answer(Early::ReadFault),
            SourceStop::NoMemory => StageStop::NoMemory,
        }
    }
}

impl From<DeckFault> for StageStop {
    ghost from_gives = { λ fault result. result ≡ stop_of_deck fault };

    fn from(fault: DeckFault) -> StageStop {
        match fault {
            DeckFault::Refused(refusal) => StageStop::Answer(Early::Refused(refusal)),
            DeckFault::NoMemory => StageStop::NoMemory,
        }
    }
}

impl From<DisplaceFault> for StageStop {
    ghost from_gives = { λ fault result. result ≡ stop_of_displace fault };

    fn from(fault: DisplaceFault) -> StageStop {
        match fault {
            DisplaceFault::Refused(refusal) => StageStop::Answer(Early::Refused(refusal)),
            DisplaceFault::NoMemory => StageStop::NoMemory,
        }
    }
}

impl From<pic_num::NoMemory> for StageStop {
    ghost from_gives = { λ _ result. result ≡ stage_stop.NoMemory };

    fn from(_refused: pic_num::NoMemory) -> StageStop {
        StageStop::NoMemory
    }
}

/// Ends a call whose stage was stopped: an early end by its line on the report.
pub fn end_early<R: Sink>(report: &mut R, stop: StageStop) -> Result<Ended, Cut>
    ensures { (o : Told) → EndsStopped stop
        (sinks o (R.told report.old)) (sinks o (R.told report.new)) result }
{
    match stop {
        StageStop::Answer(early) => {
            put_early(report, &early)?;
            Ok(ended_early(early))
        }
        StageStop::NoMemory => Err(Cut::NoMemory),
    }
}
