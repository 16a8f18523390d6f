//! The table of what may flow, as it stands in the table for programs.

ghost use Rattle.std.specs.Prelude.{◌≡◌, ◌++◌, [], IfOk, OnOk, codes, if◌then◌else◌};
ghost use Rattle.lio_ask_main.specs.Explained.{flow_item, flow_word, name_item, names_items};
ghost use Rattle.lio_ask_main.specs.Explained.{row_item, row_items, rows_items, table_with};

use lio_clauses::NoMemory;
use lio_policy::{FileEntry, MayFlow, Policy};
use lio_values::List;
use std::alloc::Global;

/// The word of what may flow, in its quotes.
fn word_of(flow: MayFlow) -> &'static [u8]
    ensures { result.now ≡ flow_word flow }
{
    match flow {
        MayFlow::Never => b"\"never\"",
        MayFlow::OnlyByPrivilege => b"\"privilege\"",
        MayFlow::May => b"\"may\"",
    }
}

/// The comma in front of an item, but of the first none.
fn comma_of(is_first: bool) -> &'static [u8]
    ensures { result.now ≡ (if is_first then [] else codes ",") }
{
    if is_first { b"" } else { b"," }
}

/// Appends what may flow, as the item at a place.
fn print_flow(out: &mut Vec<u8>, place: usize, flow: &MayFlow) -> Result<(), NoMemory>
    ensures { OnOk result (out.new.items ≡ out.old.items ++ flow_item place flow.now) }
{
    out.extend_from_slice(comma_of(place == 0))?;
    out.extend_from_slice(word_of(*flow))?;
    Ok(())
}

/// Appends the items of a row.
fn print_flows(out: &mut Vec<u8>, row: &[MayFlow]) -> Result<(), NoMemory>
    ensures { OnOk result (out.new.items ≡ out.old.items ++ row_items 0 row.now) }
{
    for (place, flow) in row.iter().enumerate() {
        print_flow(out, place, flow)?;
    }
    Ok(())
}

/// Appends a row, as the item at a place.
fn print_row(out: &mut Vec<u8>, place: usize, row: &List<MayFlow>) -> Result<(), NoMemory>
    ensures { OnOk result (out.new.items ≡ out.old.items ++ row_item place row.now) }
{
    out.extend_from_slice(comma_of(place == 0))?;
    out.push(b'[')?;
    print_flows(out, row.as_slice())?;
    out.push(b']')?;
    Ok(())
}

/// Appends the items of a table.
fn print_rows(out: &mut Vec<u8>, rows: &[List<MayFlow>]) -> Result<(), NoMemory>
    ensures { OnOk result (out.new.items ≡ out.old.items ++ rows_items 0 rows.now) }
{
    for (place, row) in rows.iter().enumerate() {
        print_row(out, place, row)?;
    }
    Ok(())
}

/// Appends the name of a channel or an input, as the item at a place.
fn print_name(out: &mut Vec<u8>, place: usize, entry: &FileEntry) -> Result<(), NoMemory>
    ensures { OnOk result (out.new.items ≡ out.old.items ++ name_item place entry.now) }
{
    out.extend_from_slice(comma_of(place == 0))?;
    out.push(b'"')?;
    out.extend_from_slice(entry.name.bytes())?;
    out.push(b'"')?;
    Ok(())
}

/// Appends the names of channels or inputs.
fn print_names(out: &mut Vec<u8>, entries: &[FileEntry]) -> Result<(), NoMemory>
    ensures { OnOk result (out.new.items ≡ out.old.items ++ names_items 0 entries.now) }
{
    for (place, entry) in entries.iter().enumerate() {
        print_name(out, place, entry)?;
    }
    Ok(())
}

/// A text that begins with the channels and the inputs of a policy and a table, and goes on with
/// what is told beside it.
pub(crate) fn text_with(
    alloc: Global,
    policy: &Policy,
    rows: &[List<MayFlow>],
    beside: &[u8],
) -> Result<Vec<u8>, NoMemory>
    ensures { IfOk result (λ text. text.items ≡ table_with policy.now rows.now beside.now) }
{
    let mut out = Vec::new(alloc);
    out.extend_from_slice(b"{\"channels\":[")?;
    print_names(&mut out, policy.channels.as_slice())?;
    out.extend_from_slice(b"],\"inputs\":[")?;
    print_names(&mut out, policy.inputs.as_slice())?;
    out.extend_from_slice(b"],\"flows\":[")?;
    print_rows(&mut out, rows)?;
    out.extend_from_slice(b"]")?;
    out.extend_from_slice(beside)?;
    Ok(out)
}
