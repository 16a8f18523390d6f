//! Patterns: texts in which `#` stands for a number, and `@` for that of its owner.
#![tactic(auto, unfolding(crate::specs::Generated::filled, crate::specs::Generated::listed))]

ghost use Rattle.std.specs.Prelude.{◌≡◌, ◌++◌, OnOk};
ghost use Rattle.lio_host_main.specs.Generated.{comma_before, filled, listed, stands_for};

use lio_clauses::NoMemory;
use lio_values::print_number;

/// How many principals there are, each the owner of every eighth task.
const OWNERS: u32 = 8;

/// Appends what a byte of a pattern stands for at a number.
fn append_part(out: &mut Vec<u8>, number: u32, byte: u8) -> Result<(), NoMemory>
    ensures { OnOk result (out.new.items ≡ out.old.items ++ stands_for number byte) }
{
    match byte {
        b'#' => print_number(out, u64::from(number)),
        b'@' => print_number(out, u64::from(number % OWNERS)),
        _ => Ok(out.push(byte)?),
    }
}

/// Appends a pattern at a number.
fn append_filled(out: &mut Vec<u8>, pattern: &[u8], number: u32) -> Result<(), NoMemory>
    ensures { OnOk result (out.new.items ≡ out.old.items ++ filled pattern.now number) }
{
    for byte in pattern {
        append_part(out, number, *byte)?;
    }
    Ok(())
}

/// Appends a comma before each item but the first.
fn append_comma(out: &mut Vec<u8>, number: u32) -> Result<(), NoMemory>
    ensures { OnOk result (out.new.items ≡ out.old.items ++ comma_before number) }
{
    if number > 0 {
        out.push(b',')?;
    }
    Ok(())
}

/// Appends a pattern at each number below a count, with a comma between two.
pub(crate) fn append_listed(out: &mut Vec<u8>, pattern: &[u8], count: u32) -> Result<(), NoMemory>
    ensures { OnOk result (out.new.items ≡ out.old.items ++ listed pattern.now count) }
{
    for number in 0..count {
        append_comma(out, number)?;
        append_filled(out, pattern, number)?;
    }
    Ok(())
}
