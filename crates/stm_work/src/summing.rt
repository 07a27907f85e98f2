// The CRC of the flash, or of a part of it, by reading.
ghost use Rattle.std.specs.Prelude.{◌≡◌, Result};
ghost use Rattle.stm_session.specs.declared.fault.Fault.{Fault};
ghost use Rattle.stm_work.specs.declared.answer.Answer.{Answer};
ghost use Rattle.stm_work.specs.Reading.{ReadsRange};
ghost use Rattle.stm_work.specs.ReadingFor.{SumsUp, summed};

use crate::answer::Answer;
use crate::failure::Failure;
use crate::reading::read;
use std::alloc::Global;
use stm_chip::Table;
use stm_files::crc::crc;
use stm_wire::Rig;
use stm_words::Range;

/// Reads the whole flash or a part of it, and answers the CRC of the bytes.
pub fn sum<'a, L: Rig>(
    alloc: Global,
    rig: &mut L,
    table: &Table,
    range: Option<Range>,
) -> Result<Answer, Failure<'a>>
    ensures { (said : Result Answer Fault)
        × ReadsRange L.view table.now range rig.old rig.new said × SumsUp said result }
{
    let answer = read(alloc, rig, table, range)?;
    Ok(summed(answer))
}

/// Bytes as their CRC.
fn summed(answer: Answer) -> Answer
    ensures { result ≡ summed answer }
{
    match answer {
        Answer::Bytes(bytes) => Answer::Sum(crc(bytes.as_slice())),
        answer => answer,
    }
}
