//! From the bytes of an hour file to its tables.
ghost use Rattle.std.specs.Prelude.{IfOk};
ghost use Rattle.hourbook.specs.TablesRead.{Describes};

use crate::hourfile::fault::FileFault;
use crate::hourfile::gathered::Gathered;
use crate::hourfile::hour_file::HourFile;
use crate::hourfile::judge::judge;
use std::alloc::Global;

// The tables of a lawful file, or the first rule that the file breaks. Judging allocates nothing, so want of memory is
// answered only for a lawful file.
pub(crate) fn read(heap: Global, bytes: &[u8]) -> Result<HourFile, FileFault>
    ensures { IfOk result (Describes bytes.now) }
{
    let census = judge(bytes)?;
    let gathered = Gathered::from_bytes(heap, bytes, census)?;
    HourFile::new(heap, census, gathered)
}
