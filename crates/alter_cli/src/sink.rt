//! Whole lines into a sink.
ghost use Rattle.std.specs.Prelude.{◌≡◌, ℕ, List, ◌++◌, option_map, Some, OnOk, OnErr};
ghost use Rattle.alter_disk.specs.Changes.{IfTold};
ghost use Rattle.alter_disk.specs.Faults.{HasCause};
ghost use Rattle.alter_cli.specs.Given.{WroteFront};

use alter_disk::{Failed, Sink};

/// Writes all of the line. After a fault a front of it was written.
pub fn print<K: Sink>(out: &mut K, line: &[u8]) -> Result<(), Failed>
    ensures written { OnOk result (K.written out.new ≡ option_map (λ w. w ++ line.now) (K.written out.old)) }
    ensures front { OnErr result (IfTold (K.written out.old) (λ w. WroteFront w line.now (K.written out.new))) }
    ensures cause { HasCause (K.faults out.old) (K.faults out.new) result }
{
    let mut rest = line;
    while !rest.is_empty() {
        let count = out.write(rest)?;
        (_, rest) = rest.split_at(count);
    }
    Ok(())
}
