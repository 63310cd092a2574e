//! The line that names the first line of a script that is refused.

ghost use Rattle.std.specs.Prelude.{◌≡◌, IfOk};
ghost use Rattle.yb_script.specs.Endings.{cause_text, fault_line};

use admin_words::Text;
use row_values::NoMemory;
use script_lang::Cause;
use std::alloc::Global;

fn cause_text(cause: Cause) -> &'static [u8]
    ensures exact { result.now ≡ cause_text cause }
{
    match cause {
        Cause::LineTooLong => b"line too long",
        Cause::BadByte => b"bad byte",
        Cause::OpenQuote => b"open quote",
        Cause::UnknownCommand => b"unknown command",
        Cause::WrongWords => b"wrong words",
        Cause::BadName => b"bad name",
        Cause::BadKey => b"bad key",
        Cause::BadValue => b"bad value",
        Cause::BadNumber => b"bad number",
        Cause::BadIdentifier => b"bad identifier",
        Cause::BadTime => b"bad time",
        Cause::NoSuchSlot => b"no such slot",
        Cause::RepeatedColumn => b"repeated column",
    }
}

/// `line <n>: <cause>`, with a line feed.
#[tactic(auto, using(std::proofs::lemmas::List::append_assoc))]
pub fn fault_line(alloc: Global, line: u64, cause: Cause) -> Result<Text, NoMemory>
    ensures exact { IfOk result (λ text. text ≡ fault_line line cause) }
{
    let mut text = Text::new(alloc);
    text.add(b"line ")?;
    text.number(line)?;
    text.add(b": ")?;
    text.add(cause_text(cause))?;
    text.add(b"\n")?;
    Ok(text)
}
