// The image as it is read.
ghost use Rattle.std.specs.Prelude.{length, IfOk};
ghost use Rattle.io.specs.Counts.{IsPrefixLen};

use std::io::Read;
use std::rt::Files;
use std::{fs, io};

// Reads a file until it ends or the buffer is full, and returns how many bytes.
fn read_file(source: &mut impl Read, file: &mut [u8]) -> io::Result<usize>
    ensures { IfOk result (λ n. IsPrefixLen n file.new) }
{
    let mut have = 0;
    // A turn takes as many bytes as a read gives, so they are not counted one by one.
    while have < file.len() {
        let count = source.read(&mut file[have..])?;
        if count == 0 {
            break;
        }
        have += count;
    }
    Ok(have)
}

// Reads the image, and returns its length; a file that can't be read counts as empty, and of a larger one than any
// image just as much is read as has it refused.
pub fn read_image(files: &impl Files, file: &mut [u8]) -> usize
    ensures { IsPrefixLen result file.new }
{
    let Ok(mut source) = fs::open(files, "policy.img") else {
        return 0;
    };
    read_file(&mut source, file).unwrap_or(0)
}
