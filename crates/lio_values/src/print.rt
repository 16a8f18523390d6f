//! Printing texts, labels and handles, as scripts and journals have them. Where memory runs
//! out, what is printed to is as before.
#![tactic(auto, unfolding(crate::specs::Quoted::escaped))]

ghost use Rattle.std.specs.Prelude.{◌≡◌, ◌++◌, ◌^◌, ◌<◌, List, ℕ, codes, decimal, take, OnOk};
ghost use Rattle.std.specs.Prelude.{OnErr};
ghost use Rattle.std.specs.Fmt.{signed_decimal};
ghost use Rattle.lio_clauses.specs.FormulaPrint.{Extends};
ghost use Rattle.lio_labels.specs.LabelPrint.{AreNamed};
ghost use Rattle.lio_values.specs.Quoted.{hex_digit, escaped, quoted};
ghost use Rattle.lio_values.specs.PlainText.{label_in_brackets, power_text, handle_text};
ghost use Rattle.lio_values.specs.PlainText.{IsPowerNamed};

use crate::value::Handle;
use itoa::Buffer;
use lio_clauses::{Names, NoMemory};
use lio_labels::{Label, Priv};

/// Appends a number.
pub fn print_number(out: &mut Vec<u8>, number: u64) -> Result<(), NoMemory>
    ensures ok { OnOk result (out.new.items ≡ out.old.items ++ decimal number) }
    ensures err { OnErr result (out.new.items ≡ out.old.items) }
{
    let mut buffer = Buffer::new();
    out.extend_from_slice(buffer.format(number).as_bytes())?;
    Ok(())
}

/// Appends a number with a sign.
pub(crate) fn print_whole(out: &mut Vec<u8>, number: i64) -> Result<(), NoMemory>
    ensures ok { OnOk result (out.new.items ≡ out.old.items ++ signed_decimal number) }
    ensures err { OnErr result (out.new.items ≡ out.old.items) }
{
    let mut buffer = Buffer::new();
    out.extend_from_slice(buffer.format(number).as_bytes())?;
    Ok(())
}

/// A hexadecimal digit.
fn hex_digit(digit: u8) -> u8
    requires { digit < 16 }
    ensures { result ≡ hex_digit digit }
{
    if digit < 10 {
        digit + b'0'
    } else {
        digit - 10 + b'a'
    }
}

/// Appends a byte as it stands in quotes.
fn print_escaped(out: &mut Vec<u8>, byte: u8) -> Result<(), NoMemory>
    ensures ok { OnOk result (out.new.items ≡ out.old.items ++ escaped byte) }
    ensures err { OnErr result (out.new.items ≡ out.old.items) }
{
    match byte {
        b'"' => out.extend_from_slice(b"\\\"")?,
        b'\\' => out.extend_from_slice(b"\\\\")?,
        b'\n' => out.extend_from_slice(b"\\n")?,
        0x20..=0x7e => out.push(byte)?,
        _ => out.extend_from_slice(&[b'\\', b'x', hex_digit(byte / 16), hex_digit(byte % 16)])?,
    }
    Ok(())
}

/// Takes off again what stands behind the first `len` bytes, where it couldn't be printed whole.
pub(crate) fn restore(
    out: &mut Vec<u8>,
    len: usize,
    printed: Result<(), NoMemory>,
) -> Result<(), NoMemory>
    ensures same { result ≡ printed }
    ensures ok { OnOk result (out.new.items ≡ out.old.items) }
    ensures err { OnErr result (out.new.items ≡ take len out.old.items) }
{
    if printed.is_err() {
        out.truncate(len);
    }
    printed
}

/// Appends bytes in quotes. Where memory runs out, a part of them may stand at the end.
fn append_quoted(out: &mut Vec<u8>, bytes: &[u8]) -> Result<(), NoMemory>
    ensures ok { OnOk result (out.new.items ≡ out.old.items ++ quoted bytes.now) }
    ensures kept { Extends out.old.items out.new.items }
{
    out.push(b'"')?;
    for byte in bytes {
        print_escaped(out, *byte)?;
    }
    out.push(b'"')?;
    Ok(())
}

/// Appends bytes in quotes.
pub fn print_quoted(out: &mut Vec<u8>, bytes: &[u8]) -> Result<(), NoMemory>
    ensures ok { OnOk result (out.new.items ≡ out.old.items ++ quoted bytes.now) }
    ensures err { OnErr result (out.new.items ≡ out.old.items) }
{
    let len = out.len();
    let printed = append_quoted(out, bytes);
    restore(out, len, printed)
}

/// Appends a label between `<` and `>`. Where memory runs out, a part of it may stand at the end.
fn append_label(out: &mut Vec<u8>, label: &Label, names: &Names) -> Result<(), NoMemory>
    requires { AreNamed names.now label.now }
    ensures ok { OnOk result (out.new.items
        ≡ out.old.items ++ label_in_brackets names.now label.now) }
    ensures kept { Extends out.old.items out.new.items }
{
    out.push(b'<')?;
    label.secrecy.print_to(out, names)?;
    out.extend_from_slice(b" %% ")?;
    label.integrity.print_to(out, names)?;
    out.push(b'>')?;
    Ok(())
}

/// Appends a label between `<` and `>`.
pub fn print_label(out: &mut Vec<u8>, label: &Label, names: &Names) -> Result<(), NoMemory>
    requires { AreNamed names.now label.now }
    ensures ok { OnOk result (out.new.items
        ≡ out.old.items ++ label_in_brackets names.now label.now) }
    ensures err { OnErr result (out.new.items ≡ out.old.items) }
{
    let len = out.len();
    let printed = append_label(out, label, names);
    restore(out, len, printed)
}

/// Appends a privilege. Where memory runs out, a part of it may stand at the end.
fn append_power(out: &mut Vec<u8>, privilege: &Priv, names: &Names) -> Result<(), NoMemory>
    requires { IsPowerNamed names.now privilege.now }
    ensures ok { OnOk result (out.new.items ≡ out.old.items ++ power_text names.now privilege.now) }
    ensures kept { Extends out.old.items out.new.items }
{
    out.extend_from_slice(b"power<")?;
    privilege.power.print_to(out, names)?;
    out.push(b'>')?;
    Ok(())
}

/// Appends a privilege.
pub fn print_power(out: &mut Vec<u8>, privilege: &Priv, names: &Names) -> Result<(), NoMemory>
    requires { IsPowerNamed names.now privilege.now }
    ensures ok { OnOk result (out.new.items ≡ out.old.items ++ power_text names.now privilege.now) }
    ensures err { OnErr result (out.new.items ≡ out.old.items) }
{
    let len = out.len();
    let printed = append_power(out, privilege, names);
    restore(out, len, printed)
}

/// Appends a handle of a kind. Where memory runs out, a part of it may stand at the end.
fn append_handle(
    out: &mut Vec<u8>,
    kind: &[u8],
    handle: &Handle,
    names: &Names,
) -> Result<(), NoMemory>
    requires { AreNamed names.now handle.now.label }
    ensures ok { OnOk result (out.new.items
        ≡ out.old.items ++ handle_text names.now kind.now handle.now) }
    ensures kept { Extends out.old.items out.new.items }
{
    out.extend_from_slice(kind)?;
    print_number(out, u64::from(handle.number))?;
    print_label(out, &handle.label, names)
}

/// Appends a handle of a kind.
pub(crate) fn print_handle(
    out: &mut Vec<u8>,
    kind: &[u8],
    handle: &Handle,
    names: &Names,
) -> Result<(), NoMemory>
    requires { AreNamed names.now handle.now.label }
    ensures ok { OnOk result (out.new.items
        ≡ out.old.items ++ handle_text names.now kind.now handle.now) }
    ensures err { OnErr result (out.new.items ≡ out.old.items) }
{
    let len = out.len();
    let printed = append_handle(out, kind, handle, names);
    restore(out, len, printed)
}
