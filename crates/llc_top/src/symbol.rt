//! Symbols on the sink for errors, spelled as in the assembly.
ghost use Rattle.std.specs.Prelude.{◌++◌, flat_map, OnOk, OnErr};
ghost use Rattle.rv_isa.specs.Lines.{ended};
ghost use Rattle.rv_isa.specs.Symbol.{escaped, spelled};
ghost use Rattle.llc_top.specs.Streams.{sink_change, TellsAll, CutOff};

use crate::tell::{Untold, write_piece};
use asm_line::is_bare;
use cg_io::Sink;

/// Tells a line that ends in a symbol. It takes no memory.
pub fn tell_symbol<E: Sink>(err: &mut E, text: &[u8], name: &[u8]) -> Result<(), Untold>
    ensures all { OnOk result (TellsAll (ended (text.now ++ spelled name.now)) (sink_change E.written E.faults err.old err.new)) }
    ensures cut_off { OnErr result (CutOff (ended (text.now ++ spelled name.now)) (sink_change E.written E.faults err.old err.new)) }
{
    write_piece(err, text)?;
    write_symbol(err, name)?;
    write_piece(err, b"\n")?;
    Ok(())
}

fn write_symbol<E: Sink>(err: &mut E, name: &[u8]) -> Result<(), Untold>
    ensures all { OnOk result (TellsAll (spelled name.now) (sink_change E.written E.faults err.old err.new)) }
    ensures cut_off { OnErr result (CutOff (spelled name.now) (sink_change E.written E.faults err.old err.new)) }
{
    if is_bare(name) {
        return write_piece(err, name);
    }
    write_piece(err, b"\"")?;
    write_escaped(err, name)?;
    write_piece(err, b"\"")?;
    Ok(())
}

/// Writes the bytes of a name as they stand between quotes.
fn write_escaped<E: Sink>(err: &mut E, name: &[u8]) -> Result<(), Untold>
    ensures all { OnOk result (TellsAll (flat_map escaped name.now) (sink_change E.written E.faults err.old err.new)) }
    ensures cut_off { OnErr result (CutOff (flat_map escaped name.now) (sink_change E.written E.faults err.old err.new)) }
{
    for byte in name {
        write_escape(err, *byte)?;
    }
    Ok(())
}

fn write_escape<E: Sink>(err: &mut E, byte: u8) -> Result<(), Untold>
    ensures all { OnOk result (TellsAll (escaped byte) (sink_change E.written E.faults err.old err.new)) }
    ensures cut_off { OnErr result (CutOff (escaped byte) (sink_change E.written E.faults err.old err.new)) }
{
    match byte {
        b'"' => write_piece(err, b"\\\""),
        b'\\' => write_piece(err, b"\\\\"),
        0x20..=0x7e => write_piece(err, &[byte]),
        _ => write_piece(
            err,
            &[
                b'\\',
                b'0' + byte / 64,
                b'0' + byte / 8 % 8,
                b'0' + byte % 8,
            ],
        ),
    }
}
