//! Opens and reads the files of a line.
ghost use Rattle.std.specs.Prelude.{◌≡◌, IfOk, IfErr, length};
ghost use Rattle.answers.specs.Files.{input_view};
ghost use Rattle.classck.specs.Endings.{StopsReading};

use crate::ending::Ending;
use classfile::CutShort;
use command_line::MainFault;
use file_reads::read_file;
use std::fs::File;

/// Gives back the room that the bytes of a file do not need, of which very many files would take as much as their own
/// bytes many times.
fn without_room(read: Result<Vec<u8>, CutShort>) -> Result<Vec<u8>, CutShort>
    ensures { input_view result ≡ input_view read }
{
    match read {
        Ok(mut bytes) => {
            bytes.shrink_to_fit();
            Ok(bytes)
        }
        Err(mut cut) => {
            cut.bytes.shrink_to_fit();
            Err(cut)
        }
    }
}

/// Opens and reads the files, in order; the first that cannot be opened ends this.
pub fn read_all(
    rt: &HostRuntime,
    files: &[String],
) -> Result<Vec<Result<Vec<u8>, CutShort>>, Ending>
    ensures each { IfOk result (λ v. length v.items ≡ length files.now) }
    ensures stopped { IfErr result (StopsReading (length files.now)) }
{
    let mut reads = Vec::new(rt.alloc());
    for i in 0..files.len() {
        let Ok(mut file) = File::open(rt, &files[i]) else {
            return Err(Ending::Fault(MainFault::CannotOpen(i + 1)));
        };
        reads.push(without_room(read_file(rt.alloc(), &mut file)))?;
    }
    Ok(reads)
}
