// The text of a file.
#![tactic(auto)]

ghost use Rattle.std.specs.Prelude.{take};
ghost use Rattle.std.specs.Counts.{IsPrefixLen};
ghost use Rattle.std.specs.Io.KnownBytes.{Consumes};

use std::fs;
use std::io::Read;
use std::rt::Files;

// Puts the first bytes of a file at the start of the text, as many as it has room for, and answers how many. A file that can't be opened or read
// counts as empty, and so does a path that is not UTF-8, since `std` opens none such.
pub fn read_file<R: Files>(rt: &R, path: &[u8], text: &mut [u8]) -> usize
    ensures { IsPrefixLen result text.new }
{
    let Ok(path) = str::from_utf8(path) else {
        return 0;
    };
    let Ok(mut file) = fs::open(rt, path) else {
        return 0;
    };
    read_full(&mut file, text)
}

// Reads until the text is full, the input ends or a read fails, and answers how many bytes stand at the start of the text.
pub fn read_full<R: Read>(input: &mut R, text: &mut [u8]) -> usize
    ensures in_bounds { IsPrefixLen result text.new }
    ensures bytes { Consumes (R.remaining input.old) (R.remaining input.new) (take result text.new) }
{
    let mut done = 0;
    // Each read goes on where the last one ended, by as many bytes as it gave, so this is no `for`.
    while done < text.len() {
        match input.read(&mut text[done..]) {
            Ok(0) => break,
            Ok(n) => done += n,
            Err(_) => break,
        }
    }
    done
}
