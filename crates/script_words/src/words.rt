ghost use Rattle.std.specs.Prelude.{◌≡◌, OnOk, ◌++◌, [], Ok, Err, true, false, if◌then◌else◌};
ghost use Rattle.script_words.specs.Words.{is_open, words_of, kept, is_plain, is_comment};
ghost use Rattle.script_words.specs.declared.cause.Cause.TheVariants.{OpenQuote};
ghost use Rattle.script_words.specs.Reading.{Gives, same, words_of_line};

use crate::cause::{Cause, LineError};
use row_values::{Bytes, NoMemory, Records};
use std::alloc::Global;

/// The most bytes of a line, without its line feed and a carriage return before that.
pub const MOST_BYTES: usize = 4096;

// An empty word is none.
fn put_word(words: &mut Records<Bytes>, word: Bytes) -> Result<(), NoMemory>
    ensures kept { OnOk result (words.new ≡ words.old ++ kept word []) }
{
    if word.len() > 0 {
        words.push(word)?;
    }
    Ok(())
}

// The words of a line that is no comment.
fn split_words(alloc: Global, line: &[u8]) -> Result<Records<Bytes>, LineError>
    ensures exact { Gives same result (if is_open false line.now then Err OpenQuote else Ok (words_of line.now)) }
{
    let mut words = Records::new(alloc);
    let mut word = Bytes::new(alloc);
    let mut quoted = false;
    for b in line {
        if *b == b' ' && !quoted {
            put_word(&mut words, word)?;
            word = Bytes::new(alloc);
        } else {
            if *b == b'\'' {
                quoted = !quoted;
            }
            word.push(*b)?;
        }
    }
    if quoted {
        return Err(LineError::Refused(Cause::OpenQuote));
    }
    put_word(&mut words, word)?;
    Ok(words)
}

// Whether each byte is printed.
fn is_plain(line: &[u8]) -> bool
    ensures plain { result ≡ is_plain line.now }
{
    for b in line {
        if *b < b' ' || *b > b'~' {
            return false;
        }
    }
    true
}

fn is_comment(line: &[u8]) -> bool
    ensures comment { result ≡ is_comment line.now }
{
    matches!(line.first(), Some(b'#'))
}

/// The words of a line, none where it does nothing. A word keeps its quotes.
pub fn words_of_line(alloc: Global, line: &[u8]) -> Result<Records<Bytes>, LineError>
    ensures exact { Gives same result (words_of_line line.now) }
{
    if line.len() > MOST_BYTES {
        return Err(LineError::Refused(Cause::LineTooLong));
    }
    if !is_plain(line) {
        return Err(LineError::Refused(Cause::BadByte));
    }
    if is_comment(line) {
        return Ok(Records::new(alloc));
    }
    split_words(alloc, line)
}
