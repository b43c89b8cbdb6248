//! What a run writes. Nothing here takes memory.
ghost use Rattle.std.specs.Prelude.{◌≡◌, pos, length};
ghost use Rattle.std.specs.Fmt.{signed_decimal};
ghost use Rattle.csub_semantics.specs.Formats.{shown, text_of, is_conversion};
ghost use Rattle.csub_semantics.specs.Memory.{value, then_do, put_byte, put_bytes, low_byte};
ghost use Rattle.csub_slots.specs.States.{state_of, Gives, same, nothing, Keeps};

use crate::store::Store;
use csub_semantics::{IntKind, Piece, Trap};
use csub_types::kind::convert;
use itoa::Buffer;

/// How many bytes a run may write.
const MOST_OUTPUT: usize = 16_384;

/// Writes a byte, for which there is room; past 16,384 bytes it is the trap `flood`.
fn write_byte(store: &mut Store, byte: u8) -> Result<(), Trap>
    ensures value { Gives nothing (put_byte byte (state_of store.old)) result (state_of store.new) }
    ensures kept { Keeps store.old store.new }
{
    if store.output.len() < MOST_OUTPUT {
        store.output.push(byte).unwrap();
        Ok(())
    } else {
        Err(Trap::Flood)
    }
}

/// Writes the low 8 bits of a number, and gives them as an unsigned byte.
pub fn write_low(store: &mut Store, number: i64) -> Result<i64, Trap>
    ensures value { Gives same (then_do (put_byte (low_byte number) (state_of store.old)) (λ x u. value (pos (low_byte number)) u)) result (state_of store.new) }
    ensures kept { Keeps store.old store.new }
{
    let byte = number.rem_euclid(256) as u8;
    write_byte(store, byte)?;
    Ok(i64::from(byte))
}

/// Writes bytes one after another.
fn write_bytes(store: &mut Store, bytes: &[u8]) -> Result<(), Trap>
    ensures value { Gives nothing (put_bytes bytes.now (state_of store.old)) result (state_of store.new) }
    ensures kept { Keeps store.old store.new }
{
    for byte in bytes {
        write_byte(store, *byte)?;
    }
    Ok(())
}

/// Writes a number in decimal.
fn write_number(store: &mut Store, number: i64) -> Result<(), Trap>
    ensures value { Gives nothing (put_bytes (signed_decimal number) (state_of store.old)) result (state_of store.new) }
    ensures kept { Keeps store.old store.new }
{
    let mut buffer = Buffer::new();
    write_bytes(store, buffer.format(number).as_bytes())
}

/// Writes what a piece of a format shows of a value (C11 7.21.6.1p8).
fn write_piece(store: &mut Store, piece: Piece, value: i64) -> Result<(), Trap>
    ensures value { Gives nothing (put_bytes (shown piece value) (state_of store.old)) result (state_of store.new) }
    ensures kept { Keeps store.old store.new }
{
    match piece {
        Piece::Byte(byte) => {
            write_low(store, i64::from(byte))?;
            Ok(())
        }
        Piece::Signed => write_number(store, convert(IntKind::Int, value)),
        Piece::Plain => write_number(store, convert(IntKind::Unsigned, value)),
        Piece::Letter => {
            write_low(store, value)?;
            Ok(())
        }
    }
}

/// Writes a format, whose conversions take the values in order; it ends where they run out.
fn write_pieces(store: &mut Store, pieces: &[Piece], values: &[i64]) -> Result<(), Trap>
    ensures value { Gives nothing (put_bytes (text_of pieces.now values.now) (state_of store.old)) result (state_of store.new) }
    ensures kept { Keeps store.old store.new }
{
    let mut rest = values;
    for piece in pieces {
        if !is_conversion(*piece) {
            write_piece(store, *piece, 0)?;
            continue;
        }
        let [value, others @ ..] = rest else {
            return Ok(());
        };
        write_piece(store, *piece, *value)?;
        rest = others;
    }
    Ok(())
}

/// Whether a piece takes a value.
fn is_conversion(piece: Piece) -> bool
    ensures { result ≡ is_conversion piece }
{
    match piece {
        Piece::Byte(_) => false,
        Piece::Signed | Piece::Plain | Piece::Letter => true,
    }
}

/// Writes a format, and gives how many bytes it wrote.
pub fn write_format(store: &mut Store, pieces: &[Piece], values: &[i64]) -> Result<i64, Trap>
    ensures value { Gives same (then_do (put_bytes (text_of pieces.now values.now) (state_of store.old)) (λ x u. value (pos (length (text_of pieces.now values.now))) u)) result (state_of store.new) }
    ensures kept { Keeps store.old store.new }
{
    let before = store.output.len();
    write_pieces(store, pieces, values)?;
    Ok((store.output.len() - before) as i64)
}
