//! The last line of a call that stopped.
ghost use Rattle.std.specs.Prelude.{◌≡◌, ◌++◌, option_map, OnOk, OnErr};
ghost use Rattle.alter_disk.specs.Changes.{IfTold};
ghost use Rattle.alter_disk.specs.Faults.{HasCause};
ghost use Rattle.alter_cli.specs.Codes.{file_line, page_end};
ghost use Rattle.alter_cli.specs.Given.{WroteFront};
ghost use Rattle.alter_cli.specs.Stops.{stop_line};

use crate::file_code::FileCode;
use crate::sink::print;
use crate::stop::Stop;
use alter_disk::{Failed, Sink};
use itoa::Buffer;

/// Writes the end of a refused file's line: the page that it is about, where it is about one.
fn print_page<K: Sink>(out: &mut K, page: Option<u32>) -> Result<(), Failed>
    ensures written { OnOk result (K.written out.new ≡ option_map (λ w. w ++ page_end page) (K.written out.old)) }
    ensures front { OnErr result (IfTold (K.written out.old) (λ w. WroteFront w (page_end page) (K.written out.new))) }
    ensures cause { HasCause (K.faults out.old) (K.faults out.new) result }
{
    match page {
        None => print(out, b"\n"),
        Some(page) => {
            let mut buffer = Buffer::new();
            print(out, b" ")?;
            print(out, buffer.format(page).as_bytes())?;
            print(out, b"\n")
        }
    }
}

/// Writes the line of a file that is refused. It takes no memory.
fn print_code<K: Sink>(out: &mut K, code: FileCode) -> Result<(), Failed>
    ensures written { OnOk result (K.written out.new ≡ option_map (λ w. w ++ file_line code) (K.written out.old)) }
    ensures front { OnErr result (IfTold (K.written out.old) (λ w. WroteFront w (file_line code) (K.written out.new))) }
    ensures cause { HasCause (K.faults out.old) (K.faults out.new) result }
{
    print(out, code.text().as_bytes())?;
    print_page(out, code.page())
}

/// Writes the last line of a call that stopped. It takes no memory.
pub fn print_last<K: Sink>(out: &mut K, stop: &Stop) -> Result<(), Failed>
    ensures written { OnOk result (K.written out.new ≡ option_map (λ w. w ++ stop_line stop.now) (K.written out.old)) }
    ensures front { OnErr result (IfTold (K.written out.old) (λ w. WroteFront w (stop_line stop.now) (K.written out.new))) }
    ensures cause { HasCause (K.faults out.old) (K.faults out.new) result }
{
    match stop.line() {
        Ok(line) => print(out, line.as_bytes()),
        Err(code) => print_code(out, code),
    }
}
